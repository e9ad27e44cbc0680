//! Diagnostic notation of items.

ghost use Rattle.std.specs.Prelude.{◌≡◌, ◌≢◌, ◌<◌, ◌≤◌, ◌+◌, ◌*◌, ◌↔◌, ◌++◌, ◌∷◌, [], length, slice_index, take, codes, decimal, flat_map, IfOk, OnOk, IsTrue};
ghost use Rattle.hex.specs.Hex.{encode_lower, lower_digits};
ghost use Rattle.cbor_data.specs.Notation.{bytes_notation, float_notation, notation, shown_byte, simple_notation, text_notation};
ghost use Rattle.cbor_data.specs.Value.{array, pairs as pairs_value};
ghost use Rattle.item_nodes.specs.Comma.{comma};
ghost use Rattle.item_nodes.specs.View.{view, values_view, pairs_view};

use crate::item::Item;
use cbor_data::Width;
use itoa::Buffer;
use std::alloc::{AllocError, Global};

/// The item in diagnostic notation, a profile of RFC 8949 section 8: numbers in decimal, byte strings as `h'01ff'`,
/// texts in `"`, where `"` and `\` are after a `\` and controls are `\u` and four hex digits, arrays as `[1, 2]`, maps as
/// `{1: 2, 3: 4}`, tags as `1(2)`, simple values as `false`, `true`, `null`, `undefined` or `simple(99)`, and floats as their
/// bits, `f16'3c00'`.
///
/// # Errors
///
/// `AllocError` where memory runs out.
pub fn diag(alloc: Global, item: &Item) -> Result<Vec<u8>, AllocError>
    ensures { IfOk result (λ text. text.items ≡ notation (view item.now)) }
{
    let mut text = Vec::new(alloc);
    push_notation(&mut text, item)?;
    Ok(text)
}

/// Appends the notation of the item that [`diag`] gives.
///
/// # Errors
///
/// `AllocError` where memory runs out. A prefix of the notation may be appended then.
#[cycle(show)]
pub fn push_notation(out: &mut Vec<u8>, item: &Item) -> Result<(), AllocError>
    ensures { OnOk result (out.new.items ≡ out.old.items ++ notation (view item.now)) }
{
    match item {
        Item::Uint(n) => push_number(out, *n),
        Item::Nint(n) => push_negative(out, *n),
        Item::Bytes(bytes) => push_bytes(out, bytes.as_slice()),
        Item::Text(text) => push_text(out, text.as_str().as_bytes()),
        Item::Array(items) => push_members(out, items),
        Item::Map(pairs) => push_pairs(out, pairs),
        Item::Tag(number, content) => {
            push_number(out, *number)?;
            out.push(b'(')?;
            push_notation(out, content)?;
            Ok(out.push(b')')?)
        }
        Item::Simple(n) => push_simple(out, *n),
        Item::Float(width, bits) => push_float(out, *width, *bits),
    }
}

#[cycle(show)]
fn push_members(out: &mut Vec<u8>, items: &Vec<Item>) -> Result<(), AllocError>
    ensures { OnOk result (out.new.items ≡ out.old.items ++ notation (array (values_view items.now.items))) }
{
    out.push(b'[')?;
    for (i, item) in items.iter().enumerate() {
        push_comma(out, i)?;
        push_notation(out, item)?;
    }
    Ok(out.push(b']')?)
}

#[cycle(show)]
fn push_pairs(out: &mut Vec<u8>, pairs: &Vec<(Item, Item)>) -> Result<(), AllocError>
    ensures { OnOk result (out.new.items ≡ out.old.items ++ notation (pairs_value (pairs_view pairs.now.items))) }
{
    out.push(b'{')?;
    for (i, pair) in pairs.iter().enumerate() {
        push_comma(out, i)?;
        push_notation(out, &pair.0)?;
        out.extend_from_slice(b": ")?;
        push_notation(out, &pair.1)?;
    }
    Ok(out.push(b'}')?)
}

// What parts the member or pair at this index from the one before.
fn push_comma(out: &mut Vec<u8>, index: usize) -> Result<(), AllocError>
    ensures { OnOk result (out.new.items ≡ out.old.items ++ comma index) }
{
    if index > 0 {
        out.extend_from_slice(b", ")?;
    }
    Ok(())
}

fn push_simple(out: &mut Vec<u8>, n: u8) -> Result<(), AllocError>
    ensures { OnOk result (out.new.items ≡ out.old.items ++ simple_notation n) }
{
    match n {
        20 => out.extend_from_slice(b"false"),
        21 => out.extend_from_slice(b"true"),
        22 => out.extend_from_slice(b"null"),
        23 => out.extend_from_slice(b"undefined"),
        _ => {
            out.extend_from_slice(b"simple(")?;
            push_number(out, u64::from(n))?;
            out.extend_from_slice(b")")
        }
    }
}

// As many bytes as the width has, of the bits' low end.
fn push_float(out: &mut Vec<u8>, width: Width, bits: u64) -> Result<(), AllocError>
    ensures { OnOk result (out.new.items ≡ out.old.items ++ float_notation width bits) }
{
    let bytes = bits.to_be_bytes();
    match width {
        Width::W16 => {
            out.extend_from_slice(b"f16'")?;
            push_hex_run(out, &bytes[6..])?;
        }
        Width::W32 => {
            out.extend_from_slice(b"f32'")?;
            push_hex_run(out, &bytes[4..])?;
        }
        Width::W64 => {
            out.extend_from_slice(b"f64'")?;
            push_hex_run(out, &bytes)?;
        }
    }
    out.extend_from_slice(b"'")
}

fn push_number(out: &mut Vec<u8>, n: u64) -> Result<(), AllocError>
    ensures { OnOk result (out.new.items ≡ out.old.items ++ decimal n) }
{
    let mut buffer = Buffer::new();
    out.extend_from_slice(buffer.format(n).as_bytes())
}

// The number -1 - n.
fn push_negative(out: &mut Vec<u8>, n: u64) -> Result<(), AllocError>
    ensures { OnOk result (out.new.items ≡ out.old.items ++ (codes "-" ++ decimal (n + 1))) }
{
    out.push(b'-')?;
    if n < u64::MAX {
        return push_number(out, n + 1);
    }
    let mut buffer = Buffer::new();
    out.extend_from_slice(buffer.format(u128::from(n) + 1).as_bytes())
}

fn push_bytes(out: &mut Vec<u8>, bytes: &[u8]) -> Result<(), AllocError>
    ensures { OnOk result (out.new.items ≡ out.old.items ++ bytes_notation bytes.now) }
{
    out.extend_from_slice(b"h'")?;
    push_hex(out, bytes)?;
    out.extend_from_slice(b"'")
}

// So many bytes are turned into digits at once.
const RUN: usize = 16;

fn push_hex(out: &mut Vec<u8>, bytes: &[u8]) -> Result<(), AllocError>
    ensures { OnOk result (out.new.items ≡ out.old.items ++ encode_lower bytes.now) }
{
    let mut at = 0;
    while bytes.len() - at >= RUN {
        push_hex_run(out, &bytes[at..at + RUN])?;
        at += RUN;
    }
    if at < bytes.len() {
        push_hex_run(out, &bytes[at..])
    } else {
        Ok(())
    }
}

// It is to stand in its callers: where they know how many bytes there are, all digits are worked out without a loop, and appended
// without a call.
#[inline(always)]
fn push_hex_run(out: &mut Vec<u8>, run: &[u8]) -> Result<(), AllocError>
    requires { length run.now ≤ 16 }
    ensures { OnOk result (out.new.items ≡ out.old.items ++ encode_lower run.now) }
{
    let mut buffer = [0u8; 2 * RUN];
    for i in 0..run.len() {
        buffer[2 * i] = digit(run[i] / 16);
        buffer[2 * i + 1] = digit(run[i] % 16);
    }
    out.extend_from_slice(&buffer[..2 * run.len()])
}

// By arithmetic: so the digits of many bytes are worked out at once, and none is looked up.
#[inline]
fn digit(n: u8) -> u8
    requires { n < 16 }
    ensures { result ≡ slice_index lower_digits n }
{
    if n < 10 { b'0' + n } else { b'a' + (n - 10) }
}

fn push_text(out: &mut Vec<u8>, bytes: &[u8]) -> Result<(), AllocError>
    ensures { OnOk result (out.new.items ≡ out.old.items ++ text_notation bytes.now) }
{
    out.push(b'"')?;
    let mut at = 0;
    while at < bytes.len() {
        at += push_run(out, &bytes[at..])?;
    }
    out.extend_from_slice(b"\"")
}

// Pushes what `bytes` begins with: the bytes that are shown as themselves, and the one after them. Answers how many.
fn push_run(out: &mut Vec<u8>, bytes: &[u8]) -> Result<usize, AllocError>
    requires { 0 < length bytes.now }
    ensures some { IfOk result (λ n. 0 < n) }
    ensures within { IfOk result (λ n. n ≤ length bytes.now) }
    ensures pushed { IfOk result (λ n. out.new.items ≡ out.old.items ++ flat_map shown_byte (take n bytes.now)) }
{
    let plain = plain_len(bytes);
    out.extend_from_slice(&bytes[..plain])?;
    if plain == bytes.len() {
        return Ok(plain);
    }
    push_shown(out, bytes[plain])?;
    Ok(plain + 1)
}

// How many bytes at the front are shown as themselves.
fn plain_len(bytes: &[u8]) -> usize
    ensures within { result ≤ length bytes.now }
    ensures plain { flat_map shown_byte (take result bytes.now) ≡ take result bytes.now }
    ensures longest { result < length bytes.now → shown_byte (slice_index bytes.now result) ≢ slice_index bytes.now result ∷ [] }
{
    for (i, byte) in bytes.iter().enumerate() {
        if !is_plain(*byte) {
            return i;
        }
    }
    bytes.len()
}

fn is_plain(byte: u8) -> bool
    ensures { IsTrue result ↔ (shown_byte byte ≡ byte ∷ []) }
{
    !matches!(byte, b'"' | b'\\' | 0..32 | 127)
}

fn push_shown(out: &mut Vec<u8>, byte: u8) -> Result<(), AllocError>
    ensures { OnOk result (out.new.items ≡ out.old.items ++ shown_byte byte) }
{
    match byte {
        b'"' => out.extend_from_slice(b"\\\""),
        b'\\' => out.extend_from_slice(b"\\\\"),
        0..32 | 127 => {
            out.extend_from_slice(b"\\u00")?;
            push_hex_run(out, &[byte])
        }
        _ => Ok(out.push(byte)?),
    }
}
