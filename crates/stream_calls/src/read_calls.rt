//! Calls of `cbor_read`, whose reader goes on with the next line.
use crate::item_calls::push_notation_of;
use call_lines::{bytes, first, limit, number, push_no_memory, push_number};
use cbor_item::Sound;
use cbor_read::{Fault, Fed, Front, ItemReader, Limits, Stop, embedded, embedded_item, read_front};
use std::alloc::{AllocError, Global};

/// A reader, once there is one.
#[derive(Drop)]
pub(crate) struct Reading {
    alloc: Global,
    reader: Option<Box<ItemReader>>,
}

impl Reading {
    pub(crate) fn new(alloc: Global) -> Reading {
        Reading {
            alloc,
            reader: None,
        }
    }

    pub(crate) fn answer(
        &mut self,
        name: &str,
        words: &str,
        out: &mut String,
    ) -> Result<(), AllocError> {
        match name {
            "new" => self.open(words, out),
            "feed" | "feed_all" | "take_small" | "at_end" => self.go_on(name, words, out),
            _ => answer_of_bytes(self.alloc, name, words, out),
        }
    }

    // Begins a stream with these limits.
    fn open(&mut self, words: &str, out: &mut String) -> Result<(), AllocError> {
        self.reader = match limits_of(words) {
            Some(limits) => Some(Box::new(self.alloc, ItemReader::new(self.alloc, limits))?),
            None => None,
        };
        push_limits(self.alloc, limits_of(words), out)
    }

    fn go_on(&mut self, name: &str, words: &str, out: &mut String) -> Result<(), AllocError> {
        let piece = bytes(self.alloc, words)?;
        match &mut self.reader {
            None => out.push_str("no reader"),
            Some(reader) => match name {
                "feed" => push_once_fed(self.alloc, reader, &piece, out),
                "feed_all" => push_all_fed(self.alloc, reader, &piece, out),
                "take_small" => push_small(self.alloc, reader.take_small(&piece), out),
                _ => push_end(self.alloc, reader.at_end(), out),
            },
        }
    }
}

// The depth and the number of bytes that words begin with, where they are limits.
fn limits_of(words: &str) -> Option<Limits> {
    let (depth, words) = first(words);
    let (item_bytes, _) = first(words);
    Limits::try_new(limit(depth), limit(item_bytes))
}

fn push_limits(alloc: Global, limits: Option<Limits>, out: &mut String) -> Result<(), AllocError> {
    let Some(limits) = limits else {
        return out.push_str("none");
    };
    let depth = limits.depth();
    let item_bytes = limits.item_bytes();
    out.push_str(format!(in alloc; "depth {depth}, item_bytes {item_bytes}")?.as_str())
}

// Feeds a piece once. Answers where the rest of it begins, if an item was taken from it.
fn push_fed(
    alloc: Global,
    reader: &mut ItemReader,
    piece: &[u8],
    out: &mut String,
) -> Result<Option<usize>, AllocError> {
    match reader.feed(piece) {
        Ok(Fed::More) => out.push_str("More")?,
        Ok(Fed::Item { used, item }) => {
            push_item(alloc, used, &item, out)?;
            return Ok(Some(used));
        }
        Ok(Fed::Fault { used, fault }) => push_used_fault(alloc, used, fault, out)?,
        Err(_) => push_no_memory(out)?,
    }
    Ok(None)
}

fn push_once_fed(
    alloc: Global,
    reader: &mut ItemReader,
    piece: &[u8],
    out: &mut String,
) -> Result<(), AllocError> {
    push_fed(alloc, reader, piece, out)?;
    Ok(())
}

fn push_used_fault(
    alloc: Global,
    used: usize,
    fault: Fault,
    out: &mut String,
) -> Result<(), AllocError> {
    push_number(alloc, used as u64, out)?;
    out.push_str(": ")?;
    push_fault(alloc, fault, out)
}

// Feeds a piece until it is used up, or nothing more is taken from it.
fn push_all_fed(
    alloc: Global,
    reader: &mut ItemReader,
    piece: &[u8],
    out: &mut String,
) -> Result<(), AllocError> {
    let mut rest = piece;
    for _ in 0..=piece.len() {
        match push_fed(alloc, reader, rest, out)? {
            Some(used) => rest = rest.get(used..).unwrap_or(&[]),
            None => break,
        }
        out.push_str("; ")?;
    }
    Ok(())
}

// How many bytes an item has or ends, and its notation.
fn push_item(alloc: Global, used: usize, item: &Sound, out: &mut String) -> Result<(), AllocError> {
    push_number(alloc, used as u64, out)?;
    out.push_str(": ")?;
    push_notation_of(alloc, item.item(), out)
}

fn push_fault(alloc: Global, fault: Fault, out: &mut String) -> Result<(), AllocError> {
    let kind = fault.kind;
    let at = fault.at;
    out.push_str(format!(in alloc; "{kind:?} at {at}")?.as_str())
}

fn push_small(alloc: Global, small: Option<u8>, out: &mut String) -> Result<(), AllocError> {
    match small {
        Some(number) => push_number(alloc, number as u64, out),
        None => out.push_str("none"),
    }
}

fn push_end(alloc: Global, answer: Result<(), Stop>, out: &mut String) -> Result<(), AllocError> {
    match answer {
        Ok(()) => out.push_str("clean"),
        Err(Stop::Fault(fault)) => push_fault(alloc, fault, out),
        Err(Stop::Memory) => push_no_memory(out),
    }
}

fn answer_of_bytes(
    alloc: Global,
    name: &str,
    words: &str,
    out: &mut String,
) -> Result<(), AllocError> {
    match name {
        "read_front" => push_fronts(alloc, words, false, out),
        "read_fronts" => push_fronts(alloc, words, true, out),
        "embedded" => push_embedded(alloc, words, out),
        "embedded_item" => push_embedded_item(alloc, words, out),
        "embedded_count" => push_embedded_count(alloc, words, out),
        _ => out.push_str("no such call"),
    }
}

// Limits, an offset, and the rest of a stream; with `all` each item of it, one after the other.
fn push_fronts(alloc: Global, words: &str, all: bool, out: &mut String) -> Result<(), AllocError> {
    let Some(limits) = limits_of(words) else {
        return out.push_str("no limits");
    };
    let (_, words) = first(words);
    let (_, words) = first(words);
    let (offset, words) = first(words);
    let rest = bytes(alloc, words)?;
    push_rest(alloc, limits, number(offset), &rest, all, out)
}

fn push_rest(
    alloc: Global,
    limits: Limits,
    offset: u64,
    bytes: &[u8],
    all: bool,
    out: &mut String,
) -> Result<(), AllocError> {
    let mut rest = bytes;
    let mut at = offset;
    for _ in 0..=bytes.len() {
        match push_front(alloc, limits, at, rest, out)? {
            Some(length) if all => {
                rest = rest.get(length..).unwrap_or(&[]);
                at = at.saturating_add(length as u64);
            }
            _ => break,
        }
        out.push_str("; ")?;
    }
    Ok(())
}

// What is at the front. Answers how many bytes an item has there.
fn push_front(
    alloc: Global,
    limits: Limits,
    offset: u64,
    rest: &[u8],
    out: &mut String,
) -> Result<Option<usize>, AllocError> {
    match read_front(alloc, limits, offset, rest) {
        Ok(Front::Nothing) => out.push_str("Nothing")?,
        Ok(Front::Item { length, item }) => {
            push_item(alloc, length, &item, out)?;
            return Ok(Some(length));
        }
        Ok(Front::Fault(fault)) => push_fault(alloc, fault, out)?,
        Err(_) => push_no_memory(out)?,
    }
    Ok(None)
}

// The items that bytes hold, each with a semicolon.
fn push_embedded(alloc: Global, words: &str, out: &mut String) -> Result<(), AllocError> {
    let held = bytes(alloc, words)?;
    match embedded(alloc, &held) {
        Ok(Some(items)) => push_items(alloc, &items, out),
        Ok(None) => out.push_str("none"),
        Err(_) => push_no_memory(out),
    }
}

fn push_items(alloc: Global, items: &[Sound], out: &mut String) -> Result<(), AllocError> {
    for item in items {
        push_notation_of(alloc, item.item(), out)?;
        out.push_str(";")?;
    }
    Ok(())
}

// How many items bytes hold.
fn push_embedded_count(alloc: Global, words: &str, out: &mut String) -> Result<(), AllocError> {
    let held = bytes(alloc, words)?;
    match embedded(alloc, &held) {
        Ok(Some(items)) => push_number(alloc, items.len() as u64, out),
        Ok(None) => out.push_str("none"),
        Err(_) => push_no_memory(out),
    }
}

fn push_embedded_item(alloc: Global, words: &str, out: &mut String) -> Result<(), AllocError> {
    let held = bytes(alloc, words)?;
    match embedded_item(alloc, &held) {
        Ok(Some(item)) => push_notation_of(alloc, item.item(), out),
        Ok(None) => out.push_str("none"),
        Err(_) => push_no_memory(out),
    }
}
