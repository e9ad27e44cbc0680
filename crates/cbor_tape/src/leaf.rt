//! Items with no items in them (RFC 8949 sections 3.1, 3.2.3 and 3.3).
ghost use Rattle.std.specs.Prelude.{◌≡◌, ◌<◌, ◌≤◌, length, take, drop, IfSome, IsTrue};
ghost use Rattle.cbor_data.specs.Value.{bytes as bytes_value, text as text_value};
ghost use Rattle.read_items.specs.Whole.Parts.{IsArgumentAt, IsBytesAt, IsTextAt};
ghost use Rattle.cbor_tape.specs.Parts.{AreSomeChunksAt, IsLeafAt};

use read_items::whole::{are_there, chunk_at, is_break};
use simdutf8::is_utf8;

// The major types of strings.
const BYTES: u8 = 2;

const TEXT: u8 = 3;

/// Where the item at `at` ends, if it has no parts and its bytes are all there. Its head, with this argument, ends at `start`.
#[inline(always)]
pub fn leaf_end(bytes: &[u8], at: usize, argument: u64, start: usize) -> Option<usize>
    requires within { at < length bytes.now }
    requires head { IsArgumentAt bytes.now at argument start }
    requires start { start ≤ length bytes.now }
    ensures { IfSome result (λ end. IsLeafAt bytes.now at end) }
{
    match bytes[at] / 32 {
        0 => Some(start),
        1 => Some(start),
        2 => bytes_end(bytes, start, argument),
        3 => text_end(bytes, start, argument),
        7 => last_end(bytes[at] % 32, argument, start),
        _ => None,
    }
}

// Where a byte string ends that has so many bytes from `start` on.
#[inline(always)]
fn bytes_end(bytes: &[u8], start: usize, len: u64) -> Option<usize>
    requires { start ≤ length bytes.now }
    ensures { IfSome result (λ end. IsBytesAt bytes.now start len (bytes_value (take len (drop start bytes.now))) end) }
{
    if are_there(bytes, start, len) {
        Some(start + len as usize)
    } else {
        None
    }
}

// Where a text string ends that has so many bytes from `start` on. `None` also where it is not UTF-8. The test of that takes more
// of the stack than all else, so it is not to be a part of the calls that go down.
#[inline(never)]
fn text_end(bytes: &[u8], start: usize, len: u64) -> Option<usize>
    requires { start ≤ length bytes.now }
    ensures { IfSome result (λ end. IsTextAt bytes.now start len (text_value (take len (drop start bytes.now))) end) }
{
    if !are_there(bytes, start, len) {
        return None;
    }
    let end = start + len as usize;
    if is_utf8(&bytes[start..end]) {
        Some(end)
    } else {
        None
    }
}

// Where the simple value or the float ends whose head ends at `start`. `None` for a simple value that has to be written
// without an argument of its own.
#[inline(always)]
fn last_end(info: u8, argument: u64, start: usize) -> Option<usize>
    ensures { IfSome result (λ end. (end ≡ start) × (info ≡ 24 → 32 ≤ argument)) }
{
    if info == 24 && argument < 32 {
        None
    } else {
        Some(start)
    }
}

/// Where the string in chunks at `at` ends, if there is one and it is all there.
pub fn string_to_break_end(bytes: &[u8], at: usize) -> Option<usize>
    requires { at < length bytes.now }
    ensures { IfSome result (λ end. IsLeafAt bytes.now at end) }
{
    match bytes[at] {
        0x5f => chunks_end(bytes, at + 1, BYTES),
        0x7f => chunks_end(bytes, at + 1, TEXT),
        _ => None,
    }
}

// Where the chunks of this major type that are from `start` on end, with a break. `None` also where a chunk of a text is not
// UTF-8 by itself.
fn chunks_end(bytes: &[u8], start: usize, major: u8) -> Option<usize>
    requires { start ≤ length bytes.now }
    ensures { IfSome result (λ end. AreSomeChunksAt major bytes.now start end) }
{
    let mut at = start;
    while !is_break(bytes, at) {
        let (_, end) = chunk_at(bytes, at, major)?;
        at = end;
    }
    Some(at + 1)
}
