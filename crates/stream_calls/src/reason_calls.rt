//! Calls of `cddl_reasons`.
use call_lines::{push_no_memory, push_none, push_number};
use cbor_item::Sound;
use cddl_reasons::{Cause, Reason, find_reasons};
use std::alloc::{AllocError, Global};
use table_nodes::{Content, Table};
use type_links::Link;

// Why a table says no to an item: where that shows, so many reasons, and how many more there are.
pub(crate) fn push_reasons(
    alloc: Global,
    table: &Table,
    item: &Sound,
    steps: u64,
    most: usize,
    out: &mut String,
) -> Result<(), AllocError> {
    match find_reasons(alloc, table, item, steps, most) {
        Ok(Some(reasons)) => {
            out.push_str("at ")?;
            push_number(alloc, reasons.place as u64, out)?;
            for reason in &reasons.list {
                push_reason(alloc, reason, out)?;
            }
            out.push_str(", ")?;
            push_number(alloc, reasons.more, out)?;
            out.push_str(" more")
        }
        Ok(None) => push_none(out),
        Err(_) => push_no_memory(out),
    }
}

// What led there, the strings in whose content it is, of a sequence with `*`, the place, the cause, and whether a part before took
// what it need not have.
fn push_reason(alloc: Global, reason: &Reason, out: &mut String) -> Result<(), AllocError> {
    out.push_str(", ")?;
    for link in &reason.links {
        push_step(alloc, *link, out)?;
        out.push_str(" ")?;
    }
    out.push_str("at ")?;
    for string in &reason.strings {
        push_number(alloc, string.place as u64, out)?;
        out.push_str(match string.content {
            Content::OneItem => ":",
            Content::Sequence => "*:",
        })?;
    }
    push_number(alloc, reason.place as u64, out)?;
    push_cause(alloc, reason.cause, out)?;
    push_if(reason.greedy, " greedy", out)
}

// The number of a type, also of that of a key; and of an alternative or an entry how many come after it.
fn push_step(alloc: Global, link: Link, out: &mut String) -> Result<(), AllocError> {
    match link {
        Link::Type(id) => push_number(alloc, id.number as u64, out),
        Link::Alternative { after } => {
            out.push_str("or")?;
            push_number(alloc, after as u64, out)
        }
        Link::Entry { after } => {
            out.push_str("of")?;
            push_number(alloc, after as u64, out)
        }
        Link::Key(id) => push_named(alloc, "key ", id.number, out),
    }
}

fn push_cause(alloc: Global, cause: Cause, out: &mut String) -> Result<(), AllocError> {
    match cause {
        Cause::Value => Ok(()),
        Cause::Missing { member } => push_named(alloc, " missing ", member.number, out),
        Cause::TooMuch => out.push_str(" too much"),
        Cause::Stray => out.push_str(" stray"),
        Cause::Few { key, count, least } => {
            push_named(alloc, " few of ", key.number, out)?;
            push_counts(alloc, count, " < ", least, out)
        }
        Cause::Many {
            key,
            count,
            most,
            later,
        } => {
            push_named(alloc, " many of ", key.number, out)?;
            push_counts(alloc, count, " > ", most, out)?;
            push_if(later, " and later", out)
        }
        Cause::NothingHeld {
            content: Content::OneItem,
        } => out.push_str(" no item"),
        Cause::NothingHeld {
            content: Content::Sequence,
        } => out.push_str(" no sequence"),
    }
}

fn push_if(holds: bool, words: &str, out: &mut String) -> Result<(), AllocError> {
    if holds {
        out.push_str(words)?;
    }
    Ok(())
}

fn push_named(
    alloc: Global,
    what: &str,
    number: usize,
    out: &mut String,
) -> Result<(), AllocError> {
    out.push_str(what)?;
    push_number(alloc, number as u64, out)
}

fn push_counts(
    alloc: Global,
    count: u64,
    sign: &str,
    bound: u64,
    out: &mut String,
) -> Result<(), AllocError> {
    out.push_str(" ")?;
    push_number(alloc, count, out)?;
    out.push_str(sign)?;
    push_number(alloc, bound, out)
}
