//! Items of every kind, each from its place on the tape.
ghost use Rattle.std.specs.Prelude.{◌≡◌, ℕ, ◌+◌, ◌*◌, ◌≤◌, length};
ghost use Rattle.cbor_data.specs.Notation.{notation};
ghost use Rattle.cbor_data.specs.Value.{array, pairs as pairs_value, places, tag, Pairs, Value, Values};
ghost use Rattle.cbor_tape.specs.Tape.{IsWholeTape};
ghost use Rattle.cbor_tape.specs.Places.{AreOn};
ghost use Rattle.tape_notation.specs.OnTape.{AreMembersOn, ArePairsOn, HasItem, HasMembers, HasPairs, HasTag, IsNestedAt, IsTaped, IsTagOn};
ghost use Rattle.tape_notation.specs.Put.{IsPut};

use crate::head::head_at;
use crate::leaf::put_leaf;
use crate::put::{put, put_comma, put_number};
use cbor_tape::Entry;

// Initial bytes below this are those of numbers and strings, and from the other one on of simple values and floats.
const CONTAINERS_FROM: u8 = 0x80;

const CONTAINERS_BELOW: u8 = 0xe0;

/// Puts the notation of the item that the tape stands for, which is the one that the first `end` of `bytes` spell, at `at`: the
/// same that [`item_nodes::diag`] gives of it. It answers where the notation ends, which is at most twelve bytes long for each
/// byte of the item, and leaves what is before it. What is behind it says nothing.
///
/// No memory is asked for. Calls are as deep as the item.
#[inline]
pub fn put_notation(out: &mut [u8], at: usize, bytes: &[u8], end: usize, tape: &[Entry]) -> usize
    requires taped { IsTaped bytes.now tape.now end }
    requires room { at + 12 * end ≤ length out.old }
    ensures put { (depth : ℕ) (whole : IsWholeTape depth bytes.now tape.now end) → IsPut out.old out.new at (notation whole.value) result }
    ensures short { result ≤ at + 12 * end }
{
    put_item(out, at, bytes, tape, 0)
}

// Puts the notation of the item at the place.
#[cycle(noted)]
#[inline(always)]
fn put_item(out: &mut [u8], at: usize, bytes: &[u8], tape: &[Entry], place: usize) -> usize
    requires { HasItem bytes.now tape.now place at (length out.old) }
    ensures { (x : Value) → AreOn bytes.now tape.now place (places x) → IsPut out.old out.new at (notation x) result }
{
    let head = tape[place].head as usize;
    let byte = bytes[head];
    if byte < CONTAINERS_FROM || byte >= CONTAINERS_BELOW {
        return put_leaf(out, at, bytes, head);
    }
    put_parts(out, at, bytes, tape, place)
}

// The same of an array, a map or a tag.
#[cycle(noted)]
fn put_parts(out: &mut [u8], at: usize, bytes: &[u8], tape: &[Entry], place: usize) -> usize
    requires there { HasItem bytes.now tape.now place at (length out.old) }
    requires nested { IsNestedAt bytes.now tape.now place }
    ensures { (x : Value) → AreOn bytes.now tape.now place (places x) → IsPut out.old out.new at (notation x) result }
{
    let entry = tape[place];
    let head = entry.head as usize;
    match bytes[head] / 32 {
        4 => put_members(out, at, bytes, tape, place + 1, entry.next as usize),
        5 => put_pairs(out, at, bytes, tape, place + 1, entry.next as usize),
        _ => put_tag(out, at, bytes, head, tape, place + 1),
    }
}

// Puts the notation of the array whose members have the places from this one up to `next`.
#[cycle(noted)]
#[inline(always)]
fn put_members(
    out: &mut [u8],
    at: usize,
    bytes: &[u8],
    tape: &[Entry],
    place: usize,
    next: usize,
) -> usize
    requires { HasMembers bytes.now tape.now place next at (length out.old) }
    ensures { (xs : Values) → AreMembersOn bytes.now tape.now place next xs → IsPut out.old out.new at (notation (array xs)) result }
{
    let mut end = put(out, at, b"[");
    let mut member = place;
    while member < next {
        let inner = put_comma(out, end, member - place);
        end = put_item(out, inner, bytes, tape, member);
        member = tape[member].next as usize;
    }
    put(out, end, b"]")
}

// Puts the notation of the map whose pairs have the places from this one up to `next`.
#[cycle(noted)]
#[inline(always)]
fn put_pairs(
    out: &mut [u8],
    at: usize,
    bytes: &[u8],
    tape: &[Entry],
    place: usize,
    next: usize,
) -> usize
    requires { HasPairs bytes.now tape.now place next at (length out.old) }
    ensures { (ps : Pairs) → ArePairsOn bytes.now tape.now place next ps → IsPut out.old out.new at (notation (pairs_value ps)) result }
{
    let mut end = put(out, at, b"{");
    let mut key = place;
    while key < next {
        let inner = put_comma(out, end, key - place);
        let colon = put_item(out, inner, bytes, tape, key);
        let content = put(out, colon, b": ");
        let value = tape[key].next as usize;
        end = put_item(out, content, bytes, tape, value);
        key = tape[value].next as usize;
    }
    put(out, end, b"}")
}

// Puts the notation of the tag at `head`, whose content is at the place.
#[cycle(noted)]
#[inline(always)]
fn put_tag(
    out: &mut [u8],
    at: usize,
    bytes: &[u8],
    head: usize,
    tape: &[Entry],
    place: usize,
) -> usize
    requires { HasTag bytes.now head tape.now place at (length out.old) }
    ensures { (n : ℕ) (x : Value) → IsTagOn bytes.now head tape.now place n x → IsPut out.old out.new at (notation (tag n x)) result }
{
    let (number, _) = head_at(bytes, head);
    let bracket = put_number(out, at, number);
    let content = put(out, bracket, b"(");
    let end = put_item(out, content, bytes, tape, place);
    put(out, end, b")")
}
