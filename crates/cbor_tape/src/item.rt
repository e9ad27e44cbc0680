//! Items of every kind, each with its tape.
ghost use Rattle.std.specs.Prelude.{◌≡◌, ◌+◌, ◌^◌, ◌<◌, ◌≤◌, length, slice_set, IfSome};
ghost use Rattle.cbor_tape.specs.Parts.{AreMapPairsTapedAt, AreMembersTapedAt, IsContentTapedAt, IsInsideTapedAt, IsTapedAt, next_at};
ghost use Rattle.cbor_tape.specs.Tape.{IsWholeTape};

use crate::entry::Entry;
use crate::keys::{Keys, with_key};
use crate::leaf::{leaf_end, string_to_break_end};
use crate::order::all_differ;
use read_items::whole::{argument_at, end_len, is_end};

// An item with more containers round a place of it is left to a reader that keeps what is open in a list: each container
// takes a call of this one, and so a part of the program's stack.
const DEEPEST: u32 = 128;

// The initial bytes of an array and of a map up to a break.
const ARRAY_TO_BREAK: u8 = 0x9f;

const MAP_TO_BREAK: u8 = 0xbf;

// Where an item ends in the bytes, and the place after it.
#[derive(Clone, Copy)]
struct Extent {
    end: usize,
    next: usize,
}

/// Checks the item at the front of `bytes` (RFC 8949 section 3), and writes its tape from the front of `tape` on: how many bytes
/// the item has. It is valid, and has at most `depth` containers round or at some place. What is behind its last entry on the
/// tape says nothing; how many entries it has is the `next` of the first one.
///
/// `None` says nothing of the bytes, and then the tape says nothing: no item may be there, or none that is all there, or one
/// with a text that is not UTF-8, with a repeated key, too deep, or more than 128 containers deep; or a map has two keys that are
/// not told apart, or keys for which there is no room.
///
/// Keys are compared part by part, with the members of arrays and the contents of tags, up to the first part that differs. It is
/// not told whether two differ where, up to there, both have a map with as many pairs, since these may come in any order (RFC 8949
/// section 5.6.1); or both have an array, both a map or both a string of one major type, and that of one key is an array or a map
/// up to a break, or in 16 chunks or more.
///
/// The keys of a map take room where one is a container or a string in chunks, if it is not alone; and where they are more than
/// eight, of which after these eight one is not above all before it, in the order of deterministic bytes (RFC 8949 section 4.2.1).
/// Then there has to be an entry for each key after as many as there are bytes. So where the tape is half as long again as the
/// bytes, each map has room.
///
/// No memory is asked for. Calls are as deep as the item. A byte is looked at once, and a key's also where it is compared: with
/// the highest key before it, with eight others at most, and where that does not tell, once the map is read, as a sort does. Of a
/// map in a key, or one that is a key, no pair is looked at when keys are compared.
#[inline(always)]
pub fn whole_tape(bytes: &[u8], depth: u32, tape: &mut [Entry]) -> Option<usize>
    requires room { length bytes.now ≤ length tape.old }
    requires short { length bytes.now < 2 ^ 32 }
    ensures { IfSome result (λ end. IsWholeTape depth bytes.now tape.new end) }
{
    item_at(bytes, 0, depth.min(DEEPEST), tape, 0)
}

// Where the item at `at` ends, whose place is `place`. Its entry is put after those of what is below it, when the next place
// is known.
#[cycle(taped)]
#[inline(always)]
fn item_at(bytes: &[u8], at: usize, depth: u32, tape: &mut [Entry], place: usize) -> Option<usize>
    requires room { length bytes.now ≤ length tape.old }
    requires short { length bytes.now < 2 ^ 32 }
    requires place { place ≤ at }
    ensures { IfSome result (λ end. IsTapedAt depth bytes.now at place tape.old tape.new end (next_at tape.new place)) }
{
    if at >= bytes.len() {
        return None;
    }
    let (argument, start) = argument_at(bytes, at);
    if start > 0 && !may_have_parts(bytes[at]) {
        let end = leaf_end(bytes, at, argument, start)?;
        put(tape, place, at, place + 1);
        return Some(end);
    }
    let extent = inside(bytes, at, depth, tape, place + 1)?;
    put(tape, place, at, extent.next);
    Some(extent.end)
}

// Whether the initial byte is that of an array, a map or a tag.
#[inline(always)]
fn may_have_parts(byte: u8) -> bool {
    (0x80..0xe0).contains(&byte)
}

// Puts the entry of the item at `at`: `next` is the place after it and all that is below it.
#[inline(always)]
fn put(tape: &mut [Entry], place: usize, at: usize, next: usize)
    requires room { place < length tape.old }
    requires head { at < 2 ^ 32 }
    requires next { next < 2 ^ 32 }
    ensures { tape.new ≡ slice_set tape.old place (record { head = at; next = next }) }
{
    tape[place] = Entry {
        head: at as u32,
        next: next as u32,
    };
}

// The item at `at`, which has parts or chunks, with the entries of what is below it from `place` on.
#[cycle(taped)]
#[inline(always)]
fn inside(bytes: &[u8], at: usize, depth: u32, tape: &mut [Entry], place: usize) -> Option<Extent>
    requires room { length bytes.now ≤ length tape.old }
    requires short { length bytes.now < 2 ^ 32 }
    requires within { at < length bytes.now }
    requires place { place ≤ at + 1 }
    ensures { IfSome result (λ r. IsInsideTapedAt depth bytes.now at place tape.old tape.new r.end r.next) }
{
    let (argument, start) = argument_at(bytes, at);
    if start == 0 {
        return inside_to_break(bytes, at, depth, tape, place);
    }
    match bytes[at] / 32 {
        4 => members(bytes, start, depth, Some(argument), tape, place),
        5 => pairs(bytes, start, depth, Some(argument), tape, place),
        6 => content(bytes, start, depth, tape, place),
        _ => None,
    }
}

// The same of an item whose parts or chunks go up to a break.
#[cycle(taped)]
fn inside_to_break(
    bytes: &[u8],
    at: usize,
    depth: u32,
    tape: &mut [Entry],
    place: usize,
) -> Option<Extent>
    requires room { length bytes.now ≤ length tape.old }
    requires short { length bytes.now < 2 ^ 32 }
    requires within { at < length bytes.now }
    requires place { place ≤ at + 1 }
    ensures { IfSome result (λ r. IsInsideTapedAt depth bytes.now at place tape.old tape.new r.end r.next) }
{
    match bytes[at] {
        ARRAY_TO_BREAK => members(bytes, at + 1, depth, None, tape, place),
        MAP_TO_BREAK => pairs(bytes, at + 1, depth, None, tape, place),
        _ => {
            let end = string_to_break_end(bytes, at)?;
            Some(Extent { end, next: place })
        }
    }
}

// The members of an array, so many from `start` on, or those up to a break.
#[cycle(taped)]
fn members(
    bytes: &[u8],
    start: usize,
    depth: u32,
    count: Option<u64>,
    tape: &mut [Entry],
    place: usize,
) -> Option<Extent>
    requires room { length bytes.now ≤ length tape.old }
    requires short { length bytes.now < 2 ^ 32 }
    requires within { start ≤ length bytes.now }
    requires place { place ≤ start }
    ensures { IfSome result (λ r. AreMembersTapedAt depth count bytes.now start place tape.old tape.new r.end r.next) }
{
    if depth == 0 {
        return None;
    }
    let mut end = start;
    let mut next = place;
    let mut read = 0;
    while !is_end(bytes, end, count, read) {
        end = item_at(bytes, end, depth - 1, tape, next)?;
        next = tape[next].next as usize;
        read += 1;
    }
    Some(Extent {
        end: end + end_len(count),
        next,
    })
}

// The pairs of a map, so many from `start` on, or those up to a break.
#[cycle(taped)]
fn pairs(
    bytes: &[u8],
    start: usize,
    depth: u32,
    count: Option<u64>,
    tape: &mut [Entry],
    place: usize,
) -> Option<Extent>
    requires room { length bytes.now ≤ length tape.old }
    requires short { length bytes.now < 2 ^ 32 }
    requires within { start ≤ length bytes.now }
    requires place { place ≤ start }
    ensures { IfSome result (λ r. AreMapPairsTapedAt depth count bytes.now start place tape.old tape.new r.end r.next) }
{
    if depth == 0 {
        return None;
    }
    let mut end = start;
    let mut next = place;
    let mut read = 0;
    let mut keys = Keys::Differ(None);
    while !is_end(bytes, end, count, read) {
        let known = with_key(bytes, tape, place, next, keys, end);
        let after_key = item_at(bytes, end, depth - 1, tape, next)?;
        let value = tape[next].next as usize;
        end = item_at(bytes, after_key, depth - 1, tape, value)?;
        next = tape[value].next as usize;
        keys = known;
        read += 1;
    }
    if !all_differ(bytes, tape, place, next, keys) {
        return None;
    }
    Some(Extent {
        end: end + end_len(count),
        next,
    })
}

// The content of a tag.
#[cycle(taped)]
fn content(
    bytes: &[u8],
    start: usize,
    depth: u32,
    tape: &mut [Entry],
    place: usize,
) -> Option<Extent>
    requires room { length bytes.now ≤ length tape.old }
    requires short { length bytes.now < 2 ^ 32 }
    requires place { place ≤ start }
    ensures { IfSome result (λ r. IsContentTapedAt depth bytes.now start place tape.old tape.new r.end r.next) }
{
    if depth == 0 {
        return None;
    }
    let end = item_at(bytes, start, depth - 1, tape, place)?;
    Some(Extent {
        end,
        next: tape[place].next as usize,
    })
}
