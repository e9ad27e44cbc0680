//! What the rooms of `cddl_check` tell of the text of a specification: what it has, and what its root leads to; and what
//! `cddl_check` and `cddl_table` make of it.
use crate::{texts_told, whole};
use call_lines::{bytes, count, first, push_none};
use check_instances::Found;
use check_root::root_faults::too_many;
use lists::lesser;
use std::alloc::{AllocError, Global};

pub(crate) fn answer(
    alloc: Global,
    room: &str,
    what: &str,
    words: &str,
    out: &mut String,
) -> Result<(), AllocError> {
    match room {
        "text" | "root" => push_told(alloc, room, what, words, out),
        "spec" | "table" | "ranks" => whole::push_whole(alloc, room, words, out),
        "too_many" => push_offset(alloc, too_many(&found_of(alloc, words)), out),
        "lesser" => {
            let (one, other) = first(words);
            push_offset(alloc, lesser(offset(one), offset(other)), out)
        }
        _ => out.push_str("no such call"),
    }
}

// What is reported for a text, or of what its root leads to.
fn push_told(
    alloc: Global,
    room: &str,
    what: &str,
    words: &str,
    out: &mut String,
) -> Result<(), AllocError> {
    let source = bytes(alloc, words)?;
    let text = str::from_utf8(&source).unwrap_or("");
    match texts_told::told_of(alloc, text, room, what) {
        Some(told) => out.push_str(told.as_str().trim_end())?,
        None => out.push_str("no answer")?,
    }
    push_none(out)
}

fn found_of(alloc: Global, words: &str) -> Found {
    match words {
        "many" => Found::TooMany,
        _ => Found::Instances(Vec::new(alloc)),
    }
}

fn offset(word: &str) -> Option<usize> {
    match word {
        "-" => None,
        _ => Some(count(word)),
    }
}

fn push_offset(alloc: Global, at: Option<usize>, out: &mut String) -> Result<(), AllocError> {
    match at {
        Some(at) => out.push_str(format!(in alloc; "{at}")?.as_str()),
        None => out.push_str("none"),
    }
}
