//! Calls of `cddl_literal`: the values of numbers, text strings and byte strings, escapes, and where strings end.

ghost use Rattle.std.specs.Prelude.{◌≡◌, ℕ, ◌+◌, ◌<◌, ◌≤◌, Bool, length, slice_index, IsTrue};
ghost use Rattle.cddl_literal.specs.Bytes.{Each, is_decimal_digit, is_binary_digit};
ghost use Rattle.cddl_literal.specs.Numbers.{IsUint, IsSigned};
ghost use Rattle.hex.specs.Hex.{is_hex_digit};

use crate::token_calls::push_literal;
use call_lines::{bytes, first, push_hex, push_no_memory, push_number};
use cddl_literal::{
    Coding, Escape, Literal, Quote, byte_at, bytes_between, bytes_value, characters_end, coded_end,
    escape_at, is_b, is_binary_digit, is_digit, is_hex_digit, is_x, number_of, text_value,
};
use std::alloc::{AllocError, Global};

// A call, and the bytes of a source; those of strings in quotes begin with `double` or `single`.
pub(crate) fn answer(
    alloc: Global,
    name: &str,
    words: &str,
    out: &mut String,
) -> Result<(), AllocError> {
    match name {
        "double" => answer_in_quotes(alloc, Quote::Double, words, out),
        "single" => answer_in_quotes(alloc, Quote::Single, words, out),
        "number" => {
            let source = bytes(alloc, words)?;
            push_number_read(alloc, number(&source), out)
        }
        "coded_end" => {
            let source = bytes(alloc, words)?;
            push_number(alloc, coded_end(&source, 0) as u64, out)
        }
        "hex" | "base64" => answer_between(alloc, name, words, out),
        _ => answer_of_text(alloc, name, words, out),
    }
}

// What is at the beginning of a source: an escape, or the end of the characters of a string.
fn answer_in_quotes(
    alloc: Global,
    quote: Quote,
    words: &str,
    out: &mut String,
) -> Result<(), AllocError> {
    let (name, words) = first(words);
    let source = bytes(alloc, words)?;
    match name {
        "escape_at" => push_escape(alloc, escape_at(&source, 0, quote), out),
        "characters_end" => push_number(alloc, characters_end(&source, 0, quote) as u64, out),
        _ => out.push_str("no such call"),
    }
}

fn push_escape(alloc: Global, escape: Option<Escape>, out: &mut String) -> Result<(), AllocError> {
    match escape {
        Some(Escape { end, scalar }) => {
            push_number(alloc, end as u64, out)?;
            out.push_str(" ")?;
            push_number(alloc, scalar as u64, out)
        }
        None => out.push_str("none"),
    }
}

fn push_number_read(
    alloc: Global,
    literal: Option<Literal>,
    out: &mut String,
) -> Result<(), AllocError> {
    match literal {
        Some(literal) => push_literal(alloc, &literal, out),
        None => out.push_str("none"),
    }
}

// The bytes between the quotes of a string with a prefix.
fn answer_between(
    alloc: Global,
    name: &str,
    words: &str,
    out: &mut String,
) -> Result<(), AllocError> {
    let source = bytes(alloc, words)?;
    let coding = if name == "hex" {
        Coding::Hex
    } else {
        Coding::Base64
    };
    push_value(alloc, between(alloc, coding, &source), out)
}

// The value of a string with its quotes.
fn answer_of_text(
    alloc: Global,
    name: &str,
    words: &str,
    out: &mut String,
) -> Result<(), AllocError> {
    let source = bytes(alloc, words)?;
    let source = str::from_utf8(&source).unwrap_or("");
    match name {
        "text_value" => push_text_value(text(alloc, source), out),
        "plain_value" => push_value(alloc, plain(alloc, source), out),
        "hex_value" => push_value(alloc, in_hex(alloc, source), out),
        "base64_value" => push_value(alloc, in_base64(alloc, source), out),
        _ => out.push_str("no such call"),
    }
}

fn push_text_value(
    value: Result<Option<String>, AllocError>,
    out: &mut String,
) -> Result<(), AllocError> {
    match value {
        Ok(Some(text)) => {
            out.push_str("\"")?;
            out.push_str(text.as_str())?;
            out.push_str("\"")
        }
        Ok(None) => out.push_str("no text"),
        Err(_) => push_no_memory(out),
    }
}

fn push_value(
    alloc: Global,
    value: Result<Option<Vec<u8>>, AllocError>,
    out: &mut String,
) -> Result<(), AllocError> {
    match value {
        Ok(Some(value)) => {
            out.push_str("h'")?;
            push_hex(alloc, &value, out)?;
            out.push_str("'")
        }
        Ok(None) => out.push_str("none"),
        Err(_) => push_no_memory(out),
    }
}

// Whether digits are from here to the end.
fn are_decimal(source: &[u8], from: usize) -> bool
    ensures { IsTrue result → Each is_decimal_digit source.now from (length source.now) }
{
    let mut i = from;
    while i < source.len() {
        if !is_digit(source[i]) {
            return false;
        }
        i += 1;
    }
    true
}

// Whether hex digits are from here to the end.
fn are_hex(source: &[u8], from: usize) -> bool
    ensures { IsTrue result → Each is_hex_digit source.now from (length source.now) }
{
    let mut i = from;
    while i < source.len() {
        if !is_hex_digit(source[i]) {
            return false;
        }
        i += 1;
    }
    true
}

// Whether binary digits are from here to the end.
fn are_binary(source: &[u8], from: usize) -> bool
    ensures { IsTrue result → Each is_binary_digit source.now from (length source.now) }
{
    let mut i = from;
    while i < source.len() {
        if !is_binary_digit(source[i]) {
            return false;
        }
        i += 1;
    }
    true
}

// Whether a uint is from here to the end.
fn is_uint(source: &[u8], from: usize) -> bool
    requires { from < length source.now }
    ensures { IsTrue result → (n : ℕ) × IsUint source.now from (length source.now) n }
{
    if source[from] != b'0' {
        return are_decimal(source, from);
    }
    if from + 1 == source.len() {
        return are_decimal(source, from);
    }
    if from + 2 == source.len() {
        return false;
    }
    if is_x(source[from + 1]) {
        return are_hex(source, from + 2);
    }
    if is_b(source[from + 1]) {
        return are_binary(source, from + 2);
    }
    false
}

// What a source that is a number stands for, if it is one that is not too large.
fn number(source: &[u8]) -> Option<Literal> {
    let from = if byte_at(source, 0) == b'-' { 1 } else { 0 };
    if from < source.len() && is_uint(source, from) {
        number_of(source, 0, source.len())
    } else {
        None
    }
}

// The value of a source that is a text string, if it is one.
fn text(alloc: Global, source: &str) -> Result<Option<String>, AllocError> {
    let bytes = source.as_bytes();
    if byte_at(bytes, 0) != b'"' {
        return Ok(None);
    }
    let end = characters_end(bytes, 1, Quote::Double);
    if byte_at(bytes, end) != b'"' || end + 1 != source.len() {
        return Ok(None);
    }
    let value = text_value(alloc, source)?;
    Ok(Some(value))
}

// The value of a source that is a plain byte string, if it is one.
fn plain(alloc: Global, source: &str) -> Result<Option<Vec<u8>>, AllocError> {
    let bytes = source.as_bytes();
    if byte_at(bytes, 0) != b'\'' {
        return Ok(None);
    }
    let end = characters_end(bytes, 1, Quote::Single);
    if byte_at(bytes, end) != b'\'' || end + 1 != source.len() {
        return Ok(None);
    }
    let value = bytes_value(alloc, source)?;
    Ok(Some(value))
}

// The bytes between the quotes of a closed string with prefix, if they are fit for them.
fn between(alloc: Global, coding: Coding, source: &[u8]) -> Result<Option<Vec<u8>>, AllocError> {
    let end = coded_end(source, 0);
    if byte_at(source, end) != b'\'' {
        return Ok(None);
    }
    bytes_between(alloc, coding, source, 0, end)
}

// The value of a source that is a byte string in hex, if it is one.
fn in_hex(alloc: Global, source: &str) -> Result<Option<Vec<u8>>, AllocError> {
    let bytes = source.as_bytes();
    let first = byte_at(bytes, 0);
    if (first != b'h' && first != b'H') || byte_at(bytes, 1) != b'\'' {
        return Ok(None);
    }
    let end = coded_end(bytes, 2);
    if byte_at(bytes, end) != b'\'' || end + 1 != source.len() {
        return Ok(None);
    }
    match bytes_between(alloc, Coding::Hex, bytes, 2, end)? {
        Some(_) => {
            let value = bytes_value(alloc, source)?;
            Ok(Some(value))
        }
        None => Ok(None),
    }
}

// The value of a source that is a byte string in base64, if it is one.
fn in_base64(alloc: Global, source: &str) -> Result<Option<Vec<u8>>, AllocError> {
    let bytes = source.as_bytes();
    if !is_b(byte_at(bytes, 0)) || byte_at(bytes, 1) != b'6' {
        return Ok(None);
    }
    if byte_at(bytes, 2) != b'4' || byte_at(bytes, 3) != b'\'' {
        return Ok(None);
    }
    let end = coded_end(bytes, 4);
    if byte_at(bytes, end) != b'\'' || end + 1 != source.len() {
        return Ok(None);
    }
    match bytes_between(alloc, Coding::Base64, bytes, 4, end)? {
        Some(_) => {
            let value = bytes_value(alloc, source)?;
            Ok(Some(value))
        }
        None => Ok(None),
    }
}
