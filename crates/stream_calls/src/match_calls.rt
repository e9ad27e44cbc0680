//! Calls of `table_nodes` and `cddl_match`.
use crate::item_calls::push_notation_of;
use crate::reason_calls::push_reasons;
use crate::tables::groups_of;
use call_lines::{bytes, count, first, number, push_no_memory, push_none, push_number};
use cbor_item::Sound;
use cbor_read::embedded_item;
use cddl_match::{Cells, Machine, Verdict, verdict};
use match_held::held_in;
use std::alloc::{AllocError, Global};
use table_nodes::flags::flags_of;
use table_nodes::{Content, Table};

// Whether each group may take no item.
pub(crate) fn push_flags(alloc: Global, words: &str, out: &mut String) -> Result<(), AllocError> {
    let groups = groups_of(alloc, words)?;
    match flags_of(alloc, &groups) {
        Ok(flags) => push_marks(&flags, out),
        Err(_) => push_no_memory(out),
    }
}

fn push_marks(flags: &[bool], out: &mut String) -> Result<(), AllocError> {
    for flag in flags {
        out.push_str(if *flag { "1" } else { "0" })?;
    }
    push_none(out)
}

// The greatest rank; or what the root says of an item in so many steps, by calls, or by turns with room for so many questions; or
// why it says no, in so many reasons.
pub(crate) fn answer(
    alloc: Global,
    table: &Table,
    name: &str,
    words: &str,
    out: &mut String,
) -> Result<(), AllocError> {
    let (steps, words) = first(words);
    match name {
        "ranks_of" => push_number(alloc, table.ranks() as u64, out),
        "verdict" => {
            let item = held_of(alloc, words)?;
            push_judged(alloc, verdict(alloc, table, &item, number(steps)), out)
        }
        "turns" => push_turns(alloc, table, number(steps), words, out),
        "reasons" => {
            let (most, words) = first(words);
            let item = held_of(alloc, words)?;
            push_reasons(alloc, table, &item, number(steps), count(most), out)
        }
        _ => out.push_str("no such call"),
    }
}

// What a byte string of these bytes holds, as one item or as a sequence.
pub(crate) fn push_held(alloc: Global, words: &str, out: &mut String) -> Result<(), AllocError> {
    let (form, words) = first(words);
    let content = match form {
        "one" => Content::OneItem,
        _ => Content::Sequence,
    };
    let spelling = bytes(alloc, words)?;
    match held_in(alloc, content, &spelling) {
        Ok(Some(item)) => push_notation_of(alloc, &item, out),
        Ok(None) => push_none(out),
        Err(_) => push_no_memory(out),
    }
}

fn push_judged(
    alloc: Global,
    answer: Result<Verdict, AllocError>,
    out: &mut String,
) -> Result<(), AllocError> {
    match answer {
        Ok(Verdict::Yes) => out.push_str("Yes"),
        Ok(Verdict::No { place }) => {
            out.push_str("No at ")?;
            push_number(alloc, place as u64, out)
        }
        Ok(Verdict::Spent) => out.push_str("Spent"),
        Err(_) => push_no_memory(out),
    }
}

// A machine with this room, taken to its answer.
fn push_turns(
    alloc: Global,
    table: &Table,
    steps: u64,
    words: &str,
    out: &mut String,
) -> Result<(), AllocError> {
    let (room, words) = first(words);
    let item = held_of(alloc, words)?;
    let mut cells = Cells::new(alloc);
    match Machine::new(alloc, &mut cells, table, &item, steps, count(room)) {
        Ok(mut machine) => push_run(alloc, &mut machine, steps, out),
        Err(_) => out.push_str("no room"),
    }
}

// What the turns come to: there are at most twice as many as steps, and one more. The answer is asked for again.
fn push_run(
    alloc: Global,
    machine: &mut Machine<'_, '_>,
    steps: u64,
    out: &mut String,
) -> Result<(), AllocError> {
    let mut most = 0;
    for _ in 0..steps.saturating_mul(2).saturating_add(1) {
        let is_open = matches!(machine.turn(), Ok(None));
        most = machine.frames().max(most);
        if !is_open {
            break;
        }
    }
    push_last(alloc, machine.turn(), out)?;
    out.push_str(", at most ")?;
    push_number(alloc, most as u64, out)?;
    out.push_str(" open, steps ")?;
    push_number(alloc, machine.steps_taken(), out)
}

fn push_last(
    alloc: Global,
    answer: Result<Option<Verdict>, AllocError>,
    out: &mut String,
) -> Result<(), AllocError> {
    match answer {
        Ok(Some(verdict)) => push_judged(alloc, Ok(verdict), out),
        Ok(None) => out.push_str("no answer"),
        Err(error) => push_judged(alloc, Err(error), out),
    }
}

// The item that bytes are, and undefined where they are none.
fn held_of(alloc: Global, word: &str) -> Result<Box<Sound>, AllocError> {
    let spelling = bytes(alloc, word)?;
    match embedded_item(alloc, &spelling)? {
        Some(item) => Ok(Box::new(alloc, item)?),
        None => undefined(alloc),
    }
}

fn undefined(alloc: Global) -> Result<Box<Sound>, AllocError> {
    match embedded_item(alloc, &[0xf7])? {
        Some(item) => Ok(Box::new(alloc, item)?),
        None => Err(AllocError),
    }
}
