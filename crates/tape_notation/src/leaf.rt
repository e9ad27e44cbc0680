//! Items with no items in them (RFC 8949 sections 3.1, 3.2.3 and 3.3).
ghost use Rattle.std.specs.Prelude.{◌≡◌, ◌≢◌, ◌+◌, ◌<◌, ◌≤◌, ◌++◌, length, slice_index, codes};
ghost use Rattle.std.specs.Prelude.{◌⊎◌};
ghost use Rattle.hex.specs.Hex.{encode_lower};
ghost use Rattle.cbor_data.specs.Forms.{Form, meaning};
ghost use Rattle.cbor_data.specs.Notation.{bytes_notation, notation, simple_notation};
ghost use Rattle.tape_notation.specs.Heads.{HasForm, IsFormAt};
ghost use Rattle.tape_notation.specs.Put.{IsPut};

use crate::chunks::{put_byte_chunks, put_text_chunks};
use crate::head::head_at;
use crate::hex_digits::{put_hex, put_hex_run};
use crate::put::{put, put_negative, put_number};
use crate::text::put_text;

// The initial bytes of strings in chunks.
const BYTES_TO_BREAK: u8 = 0x5f;

const TEXT_TO_BREAK: u8 = 0x7f;

// Those of simple values and floats are from this one on.
const LAST_FROM: u8 = 0xe0;

/// Puts the notation of the item at `head`, which is no array, map or tag.
pub(crate) fn put_leaf(out: &mut [u8], at: usize, bytes: &[u8], head: usize) -> usize
    requires there { HasForm bytes.now head at (length out.old) }
    requires leaf { (slice_index bytes.now head < 128) ⊎ (224 ≤ slice_index bytes.now head) }
    ensures { (f : Form) → IsFormAt bytes.now head f → IsPut out.old out.new at (notation (meaning f)) result }
{
    match bytes[head] {
        BYTES_TO_BREAK => put_broken_bytes(out, at, bytes, head),
        TEXT_TO_BREAK => put_broken_text(out, at, bytes, head),
        LAST_FROM.. => put_last(out, at, bytes, head),
        _ => put_counted(out, at, bytes, head),
    }
}

// Puts the notation of the byte string in chunks at `head`.
#[inline(never)]
fn put_broken_bytes(out: &mut [u8], at: usize, bytes: &[u8], head: usize) -> usize
    requires there { HasForm bytes.now head at (length out.old) }
    requires chunks { slice_index bytes.now head ≡ 95 }
    ensures { (f : Form) → IsFormAt bytes.now head f → IsPut out.old out.new at (notation (meaning f)) result }
{
    let digits = put(out, at, b"h'");
    let end = put_byte_chunks(out, digits, bytes, head + 1);
    put(out, end, b"'")
}

// Puts the notation of the text in chunks at `head`.
#[inline(never)]
fn put_broken_text(out: &mut [u8], at: usize, bytes: &[u8], head: usize) -> usize
    requires there { HasForm bytes.now head at (length out.old) }
    requires chunks { slice_index bytes.now head ≡ 127 }
    ensures { (f : Form) → IsFormAt bytes.now head f → IsPut out.old out.new at (notation (meaning f)) result }
{
    let inner = put(out, at, b"\"");
    let end = put_text_chunks(out, inner, bytes, head + 1);
    put(out, end, b"\"")
}

// Puts the notation of the number or the string in one part at `head`.
#[inline(always)]
fn put_counted(out: &mut [u8], at: usize, bytes: &[u8], head: usize) -> usize
    requires there { HasForm bytes.now head at (length out.old) }
    requires plain { slice_index bytes.now head < 128 }
    requires no_bytes { slice_index bytes.now head ≢ 95 }
    requires no_text { slice_index bytes.now head ≢ 127 }
    ensures { (f : Form) → IsFormAt bytes.now head f → IsPut out.old out.new at (notation (meaning f)) result }
{
    let (argument, start) = head_at(bytes, head);
    match bytes[head] / 32 {
        0 => put_number(out, at, argument),
        1 => put_negative(out, at, argument),
        2 => put_bytes(out, at, &bytes[start..start + argument as usize]),
        _ => put_text(out, at, &bytes[start..start + argument as usize]),
    }
}

#[inline(always)]
fn put_bytes(out: &mut [u8], at: usize, bytes: &[u8]) -> usize
    requires { at + length (bytes_notation bytes.now) ≤ length out.old }
    ensures { IsPut out.old out.new at (bytes_notation bytes.now) result }
{
    let digits = put(out, at, b"h'");
    let end = put_hex(out, digits, bytes);
    put(out, end, b"'")
}

// Puts the notation of the simple value or the float at `head`.
#[inline(never)]
fn put_last(out: &mut [u8], at: usize, bytes: &[u8], head: usize) -> usize
    requires there { HasForm bytes.now head at (length out.old) }
    requires last { 224 ≤ slice_index bytes.now head }
    ensures { (f : Form) → IsFormAt bytes.now head f → IsPut out.old out.new at (notation (meaning f)) result }
{
    let content = head + 1;
    match bytes[head] % 32 {
        24 => put_simple(out, at, bytes[content]),
        25 => put_float(out, at, b"f16'", &bytes[content..content + 2]),
        26 => put_float(out, at, b"f32'", &bytes[content..content + 4]),
        27 => put_float(out, at, b"f64'", &bytes[content..content + 8]),
        n => put_simple(out, at, n),
    }
}

// Puts the bits of a float, which its bytes have, after the front that its width has.
#[inline(always)]
fn put_float(out: &mut [u8], at: usize, front: &[u8], bits: &[u8]) -> usize
    requires few { length bits.now ≤ 16 }
    requires room { at + length (front.now ++ (encode_lower bits.now ++ codes "'")) ≤ length out.old }
    ensures { IsPut out.old out.new at (front.now ++ (encode_lower bits.now ++ codes "'")) result }
{
    let digits = put(out, at, front);
    let end = put_hex_run(out, digits, bits);
    put(out, end, b"'")
}

fn put_simple(out: &mut [u8], at: usize, n: u8) -> usize
    requires { at + length (simple_notation n) ≤ length out.old }
    ensures { IsPut out.old out.new at (simple_notation n) result }
{
    match n {
        20 => put(out, at, b"false"),
        21 => put(out, at, b"true"),
        22 => put(out, at, b"null"),
        23 => put(out, at, b"undefined"),
        _ => {
            let digits = put(out, at, b"simple(");
            let end = put_number(out, digits, u64::from(n));
            put(out, end, b")")
        }
    }
}
