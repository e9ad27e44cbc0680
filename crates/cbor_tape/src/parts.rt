//! Keys of every kind, part by part: those in arrays and after tags, too.
ghost use Rattle.std.specs.Prelude.{◌≡◌, ◌-◌, ◌<◌, ◌⊎◌, length, slice_index, IfSome};
ghost use Rattle.cbor_tape.specs.Keys.{IsOrder};
ghost use Rattle.cbor_tape.specs.Parted.{inside_of, ArePartsTold, AreToldAt, IsPartAt};

use crate::keys::{Key, by_heads, compare, key_at, plain, plain_at};
use crate::strings::{Content, chunks_len, compare_contents};
use read_items::whole::argument_at;
use std::cmp::Ordering;

// The initial bytes of strings in chunks.
const BYTES_TO_BREAK: u8 = 0x5f;

const TEXT_TO_BREAK: u8 = 0x7f;

// The major types of what has parts.
const ARRAY: u8 = 4;

const MAP: u8 = 5;

const TAG: u8 = 6;

// A part of a key, up to the parts in it.
#[derive(Clone, Copy)]
struct Part<'a> {
    // Its kind and its argument, and the bytes of a string in one part.
    key: Key<'a>,
    // Where the chunks of a string begin.
    chunks: Option<usize>,
    // Where the parts in it begin.
    end: usize,
}

/// The order of the keys at these offsets. It is that of their deterministic bytes (RFC 8949 section 4.2.1) where both are plain.
/// Others are compared part by part, with the members of arrays and the contents of tags, up to the first that differs.
///
/// `Equal` also where it is not told: where, up to there, both have a map with as many pairs; or both have an array, both a map or
/// both a string of one major type, and that of one key is an array or a map up to a break, or in 16 chunks or more.
pub fn order(bytes: &[u8], at: usize, other: usize) -> Ordering
    ensures { IsOrder bytes.now at other result }
{
    match (key_at(bytes, at), key_at(bytes, other)) {
        (Some(key), Some(other_key)) => compare(&key, &other_key),
        _ => order_by_parts(bytes, at, other).unwrap_or(Ordering::Equal),
    }
}

// The same of keys of every kind, by their first parts that differ.
fn order_by_parts(bytes: &[u8], at: usize, other: usize) -> Option<Ordering>
    ensures { IfSome result (λ o. IsOrder bytes.now at other o) }
{
    let mut at = at;
    let mut other = other;
    let mut left: u64 = 1;
    while left > 0 {
        let (Some(part), Some(other_part)) = (part_at(bytes, at), part_at(bytes, other)) else {
            return by_majors(bytes, at, other);
        };
        match compare_parts(bytes, &part, &other_part)? {
            Ordering::Equal => {}
            order => return Some(order),
        }
        let count = inside(&part.key)?;
        left = (left - 1).checked_add(count)?;
        at = part.end;
        other = other_part.end;
    }
    None
}

// The order of the items at these offsets by their major types, if these differ.
fn by_majors(bytes: &[u8], at: usize, other: usize) -> Option<Ordering>
    ensures { IfSome result (λ o. AreToldAt bytes.now at other o) }
{
    if at >= bytes.len() || other >= bytes.len() {
        return None;
    }
    let major = bytes[at] / 32;
    let other_major = bytes[other] / 32;
    if major < other_major {
        return Some(Ordering::Less);
    }
    if major > other_major {
        return Some(Ordering::Greater);
    }
    None
}

// The order of two parts, if what they hold is told.
fn compare_parts(bytes: &[u8], part: &Part, other: &Part) -> Option<Ordering>
    ensures { IfSome result (λ o. ArePartsTold bytes.now part.now other.now o) }
{
    match by_heads(&part.key, &other.key) {
        Ordering::Equal => {
            let content = Content {
                front: part.key.string,
                chunks: part.chunks,
            };
            let other_content = Content {
                front: other.key.string,
                chunks: other.chunks,
            };
            compare_contents(bytes, content, other_content)
        }
        order => Some(order),
    }
}

// How many parts are in a part; `None` for a map, whose parts are not gone through.
fn inside(key: &Key) -> Option<u64>
    ensures { result ≡ inside_of key.now.kind key.now.argument }
{
    match key.kind {
        ARRAY => Some(key.argument),
        MAP => None,
        TAG => Some(1),
        _ => Some(0),
    }
}

// The part that begins at `at`.
fn part_at(bytes: &[u8], at: usize) -> Option<Part<'_>>
    ensures there { IfSome result (λ part. IsPartAt bytes.now at part) }
    ensures on { IfSome result (λ part. length bytes.now - part.end < length bytes.now - at) }
{
    if at >= bytes.len() {
        return None;
    }
    if let Some((key, end)) = plain_at(bytes, at) {
        return Some(Part {
            key,
            chunks: None,
            end,
        });
    }
    match bytes[at] {
        BYTES_TO_BREAK | TEXT_TO_BREAK => chunks_at(bytes, at),
        _ => container_at(bytes, at),
    }
}

// The string in chunks that begins at `at`.
fn chunks_at(bytes: &[u8], at: usize) -> Option<Part<'_>>
    requires within { at < length bytes.now }
    requires initial { (slice_index bytes.now at ≡ 95) ⊎ (slice_index bytes.now at ≡ 127) }
    ensures there { IfSome result (λ part. IsPartAt bytes.now at part) }
    ensures on { IfSome result (λ part. length bytes.now - part.end < length bytes.now - at) }
{
    let (len, end) = chunks_len(bytes, at + 1)?;
    Some(Part {
        key: plain(bytes[at] / 32, len as u64),
        chunks: Some(at + 1),
        end,
    })
}

// The array, the map or the tag that begins at `at`, if it is not up to a break.
fn container_at(bytes: &[u8], at: usize) -> Option<Part<'_>>
    requires { at < length bytes.now }
    ensures there { IfSome result (λ part. IsPartAt bytes.now at part) }
    ensures on { IfSome result (λ part. length bytes.now - part.end < length bytes.now - at) }
{
    let (argument, end) = argument_at(bytes, at);
    let kind = bytes[at] / 32;
    if end == 0 || kind < ARRAY || kind > TAG {
        return None;
    }
    Some(Part {
        key: plain(kind, argument),
        chunks: None,
        end,
    })
}
