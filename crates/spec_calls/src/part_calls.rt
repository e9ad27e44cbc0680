//! Calls of `alternatives`: each word is a part, and numbers name parts of the same list.
use alternatives::{
    Bounds, Member, Part, Summary, alternatives, is_too_large, occurs_badly, summaries,
};
use call_lines::{count, first, push_is, push_no_memory, push_none, push_number, push_space};
use rooms::Room;
use std::alloc::{AllocError, Global};

// A number of a part, and the parts.
pub(crate) fn answer(
    alloc: Global,
    name: &str,
    words: &str,
    out: &mut String,
) -> Result<(), AllocError> {
    let (number, words) = first(words);
    let parts = parts_of(alloc, words)?;
    match summaries(alloc, &parts) {
        Ok(found) => push_told(alloc, name, &parts, &found, count(number), out),
        Err(_) => push_no_memory(out),
    }
}

fn parts_of(alloc: Global, words: &str) -> Result<Vec<Part>, AllocError> {
    let mut parts = Vec::new(alloc);
    for word in words.split(' ') {
        parts.push(part_of(word))?;
    }
    Ok(parts)
}

fn part_of(word: &str) -> Part {
    let (form, told) = word.split_once(':').unwrap_or((word, ""));
    let (one, other) = told.split_once(':').unwrap_or((told, ""));
    match form {
        "entry" => Part::Entry(bounds_of("1")),
        "refused" => Part::Refused,
        "empty" => Part::Empty,
        "nothing" => Part::Nothing,
        "same" => Part::Same(count(one)),
        "both" => Part::Both(count(one), count(other)),
        "either" => Part::Either(count(one), count(other)),
        _ => Part::Occurs(bounds_of(form), count(one)),
    }
}

// The bounds of an occurrence: `?`, `*`, `+`, or once.
fn bounds_of(sign: &str) -> Bounds {
    match sign {
        "?" => bounds(0, Some(1)),
        "*" => bounds(0, None),
        "+" => bounds(1, None),
        _ => bounds(1, Some(1)),
    }
}

fn bounds(least: u64, most: Option<u64>) -> Bounds {
    Bounds { least, most }
}

fn push_told(
    alloc: Global,
    name: &str,
    parts: &[Part],
    found: &[Option<Summary>],
    number: usize,
    out: &mut String,
) -> Result<(), AllocError> {
    match name {
        "summaries" => push_summary(alloc, found.get(number).copied().unwrap_or(None), out),
        "is_too_large" => push_large(found.get(number).copied().unwrap_or(None), out),
        "occurs_badly" => push_is(occurs_badly(parts, found, number), out),
        "alternatives" => push_alternatives(alloc, parts, found, number, out),
        _ => out.push_str("no such call"),
    }
}

fn push_summary(
    alloc: Global,
    summary: Option<Summary>,
    out: &mut String,
) -> Result<(), AllocError> {
    let Some(summary) = summary else {
        return out.push_str("none");
    };
    push_number(alloc, summary.alternatives, out)?;
    out.push_str(" alternatives, ")?;
    push_number(alloc, summary.members, out)?;
    out.push_str(" members")
}

fn push_large(summary: Option<Summary>, out: &mut String) -> Result<(), AllocError> {
    match summary {
        Some(summary) => push_is(is_too_large(summary), out),
        None => out.push_str("none"),
    }
}

fn push_alternatives(
    alloc: Global,
    parts: &[Part],
    found: &[Option<Summary>],
    number: usize,
    out: &mut String,
) -> Result<(), AllocError> {
    // room enough for each of the rows
    let mut room = Room::new(1_048_576, 0, 0);
    match alternatives(alloc, parts, found, number, &mut room) {
        Ok(Some(lists)) => push_lists(alloc, &lists, out),
        Ok(None) => out.push_str("unmade"),
        Err(_) => push_no_memory(out),
    }
}

// The members of each alternative, in brackets.
fn push_lists(alloc: Global, lists: &[Vec<Member>], out: &mut String) -> Result<(), AllocError> {
    for members in lists {
        push_space(out)?;
        out.push_str("[")?;
        push_members(alloc, members, out)?;
        out.push_str("]")?;
    }
    push_none(out)
}

// The entry of each member, and how often it is there at least.
fn push_members(alloc: Global, members: &[Member], out: &mut String) -> Result<(), AllocError> {
    for (at, member) in members.iter().enumerate() {
        if at > 0 {
            out.push_str(" ")?;
        }
        let entry = member.entry;
        let least = member.bounds.least;
        out.push_str(format!(in alloc; "{least}*{entry}")?.as_str())?;
    }
    Ok(())
}
