//! Texts between quotes, in which some bytes are shown by others.
ghost use Rattle.std.specs.Prelude.{◌≡◌, ◌+◌, ◌≤◌, ◌↔◌, ◌∷◌, [], length, flat_map, IsTrue};
ghost use Rattle.cbor_data.specs.Notation.{shown_byte, text_notation};
ghost use Rattle.tape_notation.specs.Put.{IsPut};

use crate::hex_digits::put_hex_run;
use crate::put::{put, put_byte};

// So many bytes are looked at at once.
const RUN: usize = 16;

const HALF: usize = 8;

/// Puts the text between quotes.
pub(crate) fn put_text(out: &mut [u8], at: usize, bytes: &[u8]) -> usize
    requires { at + length (text_notation bytes.now) ≤ length out.old }
    ensures { IsPut out.old out.new at (text_notation bytes.now) result }
{
    let inner = put(out, at, b"\"");
    let end = put_shown(out, inner, bytes);
    put(out, end, b"\"")
}

/// Puts the text as it is shown between quotes.
pub(crate) fn put_shown(out: &mut [u8], at: usize, bytes: &[u8]) -> usize
    requires { at + length (flat_map shown_byte bytes.now) ≤ length out.old }
    ensures { IsPut out.old out.new at (flat_map shown_byte bytes.now) result }
{
    let mut end = at;
    let mut read = 0;
    while bytes.len() - read >= RUN {
        end = put_run(out, end, &bytes[read..read + RUN]);
        read += RUN;
    }
    put_rest(out, end, &bytes[read..])
}

// The same of fewer bytes than are looked at at once: first half as many, and then byte by byte.
#[inline(always)]
fn put_rest(out: &mut [u8], at: usize, bytes: &[u8]) -> usize
    requires { at + length (flat_map shown_byte bytes.now) ≤ length out.old }
    ensures { IsPut out.old out.new at (flat_map shown_byte bytes.now) result }
{
    if bytes.len() < HALF {
        return put_each(out, at, bytes);
    }
    let end = put_run(out, at, &bytes[..HALF]);
    put_each(out, end, &bytes[HALF..])
}

// The same of a few bytes, which are mostly shown as themselves. It is to stand in its callers, which know how many there are.
#[inline(always)]
fn put_run(out: &mut [u8], at: usize, run: &[u8]) -> usize
    requires { at + length (flat_map shown_byte run.now) ≤ length out.old }
    ensures { IsPut out.old out.new at (flat_map shown_byte run.now) result }
{
    if are_plain(run) {
        return put(out, at, run);
    }
    put_each(out, at, run)
}

// The same, byte by byte.
fn put_each(out: &mut [u8], at: usize, bytes: &[u8]) -> usize
    requires { at + length (flat_map shown_byte bytes.now) ≤ length out.old }
    ensures { IsPut out.old out.new at (flat_map shown_byte bytes.now) result }
{
    let mut end = at;
    for i in 0..bytes.len() {
        end = put_shown_byte(out, end, bytes[i]);
    }
    end
}

// Whether all are shown as themselves. It goes over all of them, so that it needs no loop where their number is known.
#[inline(always)]
fn are_plain(bytes: &[u8]) -> bool
    ensures { IsTrue result → flat_map shown_byte bytes.now ≡ bytes.now }
{
    let mut plain = true;
    for byte in bytes {
        plain &= is_plain(*byte);
    }
    plain
}

#[inline(always)]
fn is_plain(byte: u8) -> bool
    ensures { IsTrue result ↔ (shown_byte byte ≡ byte ∷ []) }
{
    byte >= 32 && byte != b'"' && byte != b'\\' && byte != 127
}

#[inline(always)]
fn put_shown_byte(out: &mut [u8], at: usize, byte: u8) -> usize
    requires { at + length (shown_byte byte) ≤ length out.old }
    ensures { IsPut out.old out.new at (shown_byte byte) result }
{
    if is_plain(byte) {
        return put_byte(out, at, byte);
    }
    put_escaped(out, at, byte)
}

// The same, where it is mostly not shown as itself.
#[inline(never)]
fn put_escaped(out: &mut [u8], at: usize, byte: u8) -> usize
    requires { at + length (shown_byte byte) ≤ length out.old }
    ensures { IsPut out.old out.new at (shown_byte byte) result }
{
    match byte {
        b'"' => put(out, at, b"\\\""),
        b'\\' => put(out, at, b"\\\\"),
        0..32 | 127 => {
            let digits = put(out, at, b"\\u00");
            put_hex_run(out, digits, &[byte])
        }
        _ => put_byte(out, at, byte),
    }
}
