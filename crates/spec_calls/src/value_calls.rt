//! Calls of `check_literals::values` and of `cddl_literal::operators`: the values of literals, and what is made of two.
use call_lines::{bytes, first, push_no_memory, push_text};
use cbor_item::diag;
use cddl_literal::Literal;
use cddl_literal::operators::{Fault, Joining, joined, plus};
use check_literals::values::{Whole, Written, item_of, value_of, whole_of};
use std::alloc::{AllocError, Global};

// The words are literals as they are written, as bytes; or with `=` before them the bytes of a byte string.
pub(crate) fn answer(
    alloc: Global,
    name: &str,
    words: &str,
    out: &mut String,
) -> Result<(), AllocError> {
    let (one, other) = first(words);
    match name {
        "number" | "text" | "bytes" => push_value(alloc, name, one, out),
        "whole_of" => push_whole(alloc, one, out),
        _ => push_made(alloc, name, one, other, out),
    }
}

// A literal of this kind.
fn written<'t>(kind: &str, text: &'t str) -> Written<'t> {
    match kind {
        "text" => Written::Text(text),
        "bytes" => Written::Bytes(text),
        _ => Written::Number(text),
    }
}

// The kind of literal that begins so.
fn kind_of(text: &str) -> &'static str {
    match text.as_bytes().first() {
        Some(b'"') => "text",
        Some(b'\'' | b'h') => "bytes",
        _ => "number",
    }
}

fn push_value(alloc: Global, kind: &str, word: &str, out: &mut String) -> Result<(), AllocError> {
    let source = bytes(alloc, word)?;
    let text = str::from_utf8(&source).unwrap_or("");
    match value_of(alloc, written(kind, text)) {
        Ok(Some(literal)) => push_item(alloc, &literal, out),
        Ok(None) => out.push_str("none"),
        Err(_) => push_no_memory(out),
    }
}

// The literal as an item.
fn push_item(alloc: Global, literal: &Literal, out: &mut String) -> Result<(), AllocError> {
    match item_of(alloc, literal) {
        Ok(item) => push_text(&diag(alloc, &item)?, out),
        Err(_) => push_no_memory(out),
    }
}

fn literal_of(alloc: Global, word: &str) -> Result<Option<Literal>, AllocError> {
    if let Some(digits) = word.strip_prefix('=') {
        return Ok(Some(Literal::Bytes(bytes(alloc, digits)?)));
    }
    let source = bytes(alloc, word)?;
    let text = str::from_utf8(&source).unwrap_or("");
    value_of(alloc, written(kind_of(text), text))
}

fn push_whole(alloc: Global, word: &str, out: &mut String) -> Result<(), AllocError> {
    let Some(literal) = literal_of(alloc, word)? else {
        return out.push_str("no literal");
    };
    match whole_of(&literal) {
        Some(Whole::Uint(number)) => out.push_str(format!(in alloc; "Uint({number})")?.as_str()),
        Some(Whole::Nint(number)) => out.push_str(format!(in alloc; "Nint({number})")?.as_str()),
        None => out.push_str("none"),
    }
}

fn push_made(
    alloc: Global,
    name: &str,
    one: &str,
    other: &str,
    out: &mut String,
) -> Result<(), AllocError> {
    let left = literal_of(alloc, one)?;
    let right = literal_of(alloc, other)?;
    match (&left, &right) {
        (Some(left), Some(right)) => push_result(alloc, apply(alloc, name, left, right), out),
        _ => out.push_str("no literal"),
    }
}

// What an operator makes of two literals.
fn apply(
    alloc: Global,
    operator: &str,
    left: &Literal,
    right: &Literal,
) -> Result<Result<Literal, Fault>, AllocError> {
    match operator {
        "plus" => Ok(plus(left, right)),
        "cat" => joined(alloc, Joining::AsTheyAre, left, right),
        _ => joined(alloc, Joining::Dedented, left, right),
    }
}

fn push_result(
    alloc: Global,
    made: Result<Result<Literal, Fault>, AllocError>,
    out: &mut String,
) -> Result<(), AllocError> {
    match made {
        Ok(Ok(literal)) => push_item(alloc, &literal, out),
        Ok(Err(fault)) => out.push_str(format!(in alloc; "{fault:?}")?.as_str()),
        Err(_) => push_no_memory(out),
    }
}
