//! Calls of sessions of `seq_run`: a line has all pieces of a stream, and its answer what came of each.
use crate::sessions::Sessions;
use call_lines::{bytes, first, limit, number, push_no_memory, push_text};
use cbor_item::{Sound, diag};
use cbor_read::Limits;
use seq_run::{End, OwnedSession, Session, State, Step, validate_pieces};
use std::alloc::{AllocError, Global};
use std::sync::Arc;
use table_nodes::Table;

// The words are the steps for each item, the limits, and the pieces.
pub(crate) fn answer(
    alloc: Global,
    table: &Table,
    name: &str,
    words: &str,
    out: &mut String,
) -> Result<(), AllocError> {
    let (steps, words) = first(words);
    let (limits, words) = limits_of(words);
    let Some(limits) = limits else {
        return out.push_str("no limits");
    };
    match name {
        "feed" | "feed_one" => {
            let mut session = Session::new(alloc, table, limits, number(steps));
            push_session(alloc, &mut session, name == "feed", words, out)
        }
        "validate_pieces" => {
            let pieces = pieces_of(alloc, words)?;
            let told = validate_pieces(alloc, table, limits, number(steps), &pieces);
            push_validated(alloc, told, out)
        }
        _ => out.push_str("no such call"),
    }
}

// The same of a session that owns its table.
pub(crate) fn answer_owned(
    alloc: Global,
    table: Box<Table>,
    name: &str,
    words: &str,
    out: &mut String,
) -> Result<(), AllocError> {
    let (steps, words) = first(words);
    let (limits, words) = limits_of(words);
    let table = Arc::new(alloc, Box::into_inner(table))?;
    let Some(limits) = limits else {
        return out.push_str("no limits");
    };
    let mut session = OwnedSession::new(alloc, table, limits, number(steps));
    push_owned(alloc, &mut session, name, words, out)
}

// The depth and the number of bytes that words begin with, where they are limits, and the words after them.
pub(crate) fn limits_of(words: &str) -> (Option<Limits>, &str) {
    let (depth, words) = first(words);
    let (item_bytes, words) = first(words);
    (Limits::try_new(limit(depth), limit(item_bytes)), words)
}

fn pieces_of(alloc: Global, words: &str) -> Result<Vec<Vec<u8>>, AllocError> {
    let mut pieces = Vec::new(alloc);
    for word in words.split(' ') {
        pieces.push(bytes(alloc, word)?)?;
    }
    Ok(pieces)
}

fn push_validated(
    alloc: Global,
    told: Result<(End, Vec<Sound>), AllocError>,
    out: &mut String,
) -> Result<(), AllocError> {
    match told {
        Ok((end, items)) => {
            push_items(alloc, &items, out)?;
            push_end(alloc, end, out)
        }
        Err(_) => push_no_memory(out),
    }
}

// Each with a semicolon.
fn push_items(alloc: Global, items: &[Sound], out: &mut String) -> Result<(), AllocError> {
    for item in items {
        push_text(&diag(alloc, item.item())?, out)?;
        out.push_str("; ")?;
    }
    Ok(())
}

fn push_end(alloc: Global, end: End, out: &mut String) -> Result<(), AllocError> {
    out.push_str(format!(in alloc; "{end:?}")?.as_str())
}

// The same of a session that owns its table: at its first stream, or of pieces that are whole after another stream of the same.
fn push_owned(
    alloc: Global,
    session: &mut OwnedSession,
    name: &str,
    words: &str,
    out: &mut String,
) -> Result<(), AllocError> {
    if name == "owned_again" {
        push_session(alloc, session, false, words, &mut String::new(alloc))?;
        session.restart();
    }
    push_session(alloc, session, name != "owned_feed_one", words, out)
}

// What a session answers to each piece, with the items that it adds; then the end, the item that was rejected, and how much was
// taken.
fn push_session<S: Sessions>(
    alloc: Global,
    session: &mut S,
    is_whole: bool,
    words: &str,
    out: &mut String,
) -> Result<(), AllocError> {
    for word in words.split(' ') {
        let piece = bytes(alloc, word)?;
        if is_whole {
            push_fed(alloc, session, &piece, out)?;
        } else {
            push_taken(alloc, session, &piece, out)?;
        }
        out.push_str(" | ")?;
    }
    match session.finish() {
        Ok(end) => push_end(alloc, end, out)?,
        Err(_) => push_no_memory(out)?,
    }
    push_rejected(alloc, session.rejected(), out)?;
    push_count(alloc, session.taken(), out)
}

fn push_rejected(
    alloc: Global,
    rejected: Option<&Sound>,
    out: &mut String,
) -> Result<(), AllocError> {
    out.push_str(" | ")?;
    match rejected {
        Some(sound) => push_text(&diag(alloc, sound.item())?, out),
        None => out.push_str("none"),
    }
}

fn push_fed<S: Sessions>(
    alloc: Global,
    session: &mut S,
    piece: &[u8],
    out: &mut String,
) -> Result<(), AllocError> {
    let mut items = Vec::new(alloc);
    let state = session.feed(piece, &mut items);
    push_items(alloc, &items, out)?;
    match state {
        Ok(State::Open) => out.push_str("Open"),
        Ok(State::Ended(end)) => push_end(alloc, end, out),
        Err(_) => push_no_memory(out),
    }
}

// Takes the items of a piece one by one.
fn push_taken<S: Sessions>(
    alloc: Global,
    session: &mut S,
    piece: &[u8],
    out: &mut String,
) -> Result<(), AllocError> {
    let mut rest = piece;
    for _ in 0..=piece.len() {
        let before = session.taken();
        match session.feed_one(rest) {
            Ok(Step::Item { used, item }) => {
                rest = rest.get(used..).unwrap_or(&[]);
                push_step(alloc, before, used, &item, out)?;
            }
            Ok(Step::More) => return out.push_str("More"),
            Ok(Step::Ended(end)) => return push_end(alloc, end, out),
            Err(_) => return push_no_memory(out),
        }
    }
    out.push_str("more items than bytes")
}

// The item's number and its offset, by how many items and bytes were taken before it, how many bytes of the piece end it, and
// the item.
fn push_step(
    alloc: Global,
    before: (u64, u64),
    used: usize,
    item: &Sound,
    out: &mut String,
) -> Result<(), AllocError> {
    let (number, offset) = (before.0.saturating_add(1), before.1);
    out.push_str(format!(in alloc; "{number} at {offset} used {used}: ")?.as_str())?;
    push_text(&diag(alloc, item.item())?, out)?;
    out.push_str("; ")
}

// How many items were taken, and how many bytes they have.
fn push_count(alloc: Global, count: (u64, u64), out: &mut String) -> Result<(), AllocError> {
    let (items, bytes) = count;
    out.push_str(format!(in alloc; " | taken {items}, {bytes}")?.as_str())
}
