//! Calls of `cbor_item` that look at items.
use crate::items::{items_of, taken, top_of};
use call_lines::{count, first, push_is, push_no_memory, push_text};
use cbor_item::{Item, Sound, Unsound, diag, item_at, path_text};
use std::alloc::{AllocError, Global};

pub(crate) fn answer(
    alloc: Global,
    name: &str,
    words: &str,
    out: &mut String,
) -> Result<(), AllocError> {
    match name {
        "diag" => push_notation_of(alloc, &*top_of(alloc, words)?, out),
        "try_new" => push_judged(alloc, words, out),
        "is_same" => push_same(alloc, words, out),
        "item_at" => push_item_at(alloc, words, out),
        "path_text" => push_path(alloc, words, out),
        _ => out.push_str("no such call"),
    }
}

pub(crate) fn push_notation_of(
    alloc: Global,
    item: &Item,
    out: &mut String,
) -> Result<(), AllocError> {
    match diag(alloc, item) {
        Ok(notation) => push_text(&notation, out),
        Err(_) => push_no_memory(out),
    }
}

// Whether an item is sound, or the first reason why it is not; a sound one is to be given back as it was.
fn push_judged(alloc: Global, words: &str, out: &mut String) -> Result<(), AllocError> {
    let item = top_of(alloc, words)?;
    match Sound::try_new(alloc, Box::into_inner(item)) {
        Ok(sound) => {
            out.push_str("sound ")?;
            push_notation_of(alloc, sound.item(), out)
        }
        Err(Unsound::Memory) => push_no_memory(out),
        Err(reason) => push_reason(alloc, reason, out),
    }
}

fn push_reason(alloc: Global, reason: Unsound, out: &mut String) -> Result<(), AllocError> {
    out.push_str(format!(in alloc; "{reason:?}")?.as_str())
}

// Whether the last two items are the same.
fn push_same(alloc: Global, words: &str, out: &mut String) -> Result<(), AllocError> {
    let mut stack = items_of(alloc, words)?;
    let other = taken(alloc, &mut stack)?;
    let one = taken(alloc, &mut stack)?;
    push_is(*one == *other, out)
}

fn push_item_at(alloc: Global, words: &str, out: &mut String) -> Result<(), AllocError> {
    let (place, words) = first(words);
    let item = top_of(alloc, words)?;
    match item_at(&item, count(place)) {
        Some(found) => push_notation_of(alloc, found, out),
        None => out.push_str("none"),
    }
}

fn push_path(alloc: Global, words: &str, out: &mut String) -> Result<(), AllocError> {
    let (place, words) = first(words);
    let item = top_of(alloc, words)?;
    match path_text(alloc, &item, count(place)) {
        Ok(Some(path)) => push_text(&path, out),
        Ok(None) => out.push_str("none"),
        Err(_) => push_no_memory(out),
    }
}
