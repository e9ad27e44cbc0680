//! Keys of maps: whether one is the same as others, by what stands in the bytes.
ghost use Rattle.std.specs.Prelude.{◌≡◌, ◌<◌, ◌≤◌, ℕ, List, [], length, IfSome, IsTrue};
ghost use Rattle.std.specs.Cmp.Lexicographic.{slice_cmp};
ghost use Rattle.std.specs.Ordering.{nat_cmp, ordering_then};
ghost use Rattle.cbor_data.specs.Value.{Pairs};
ghost use Rattle.cbor_tape.specs.Keys.{key_marks, mark_of, AreOther, ArePairsOn, IsKeyAt, IsKnownWith, IsLastKind, IsNext, IsPairOn, IsPlainAt, IsWithKey};

use crate::entry::Entry;
use read_items::whole::{are_there, argument_at};
use std::cmp::Ordering;

// With so many keys before it one is compared that does not come after all of them.
const FEW: usize = 8;

// The initial bytes of integers and of strings are below this, those of integers also below half of it.
const STRINGS_BELOW: u8 = 0x80;

const INTEGERS_BELOW: u8 = 0x40;

// Those of simple values and floats are from this one on.
const LAST_FROM: u8 = 0xe0;

// Kinds of keys beyond the major types below 7, in the order of deterministic bytes.
const SIMPLE: u8 = 7;

const HALF: u8 = 8;

const SINGLE: u8 = 9;

const DOUBLE: u8 = 10;

/// What tells a plain key (a number, a simple value, or a string in one part) from other keys: its kind, which is its major type,
/// but where that is 7 another number for simple values and for floats of each width; the argument of its head; and the bytes of a
/// string.
#[derive(Clone, Copy)]
pub struct Key<'a> {
    pub kind: u8,
    pub argument: u64,
    pub string: &'a [u8],
}

/// A pair on the tape: the offset of its first byte, and the place after it.
#[derive(Clone, Copy)]
pub struct PairOn {
    pub head: u32,
    pub next: usize,
}

/// What is known of the keys of a map so far.
#[derive(Clone, Copy)]
pub enum Keys {
    /// They all differ, and the highest is at this offset, if there is one.
    Differ(Option<usize>),
    /// Nothing, so they are put in order when all are there.
    Untold,
}

/// The key at `at`, if it is plain and its bytes are all there.
#[inline(always)]
pub fn key_at(bytes: &[u8], at: usize) -> Option<Key<'_>>
    ensures { IfSome result (λ key. IsKeyAt bytes.now at (mark_of key)) }
{
    let (key, _) = plain_at(bytes, at)?;
    Some(key)
}

/// The same with where it ends.
#[inline(always)]
pub fn plain_at(bytes: &[u8], at: usize) -> Option<(Key<'_>, usize)>
    ensures { IfSome result (λ r. IsPlainAt bytes.now at (mark_of r.0) r.1) }
{
    if at >= bytes.len() {
        return None;
    }
    let (argument, start) = argument_at(bytes, at);
    if start == 0 {
        return None;
    }
    if bytes[at] < INTEGERS_BELOW {
        let kind = bytes[at] / 32;
        return Some((plain(kind, argument), start));
    }
    if bytes[at] >= STRINGS_BELOW {
        let kind = last_kind(bytes[at], argument)?;
        return Some((plain(kind, argument), start));
    }
    if !are_there(bytes, start, argument) {
        return None;
    }
    let end = start + argument as usize;
    let key = Key {
        kind: bytes[at] / 32,
        argument,
        string: &bytes[start..end],
    };
    Some((key, end))
}

/// A key with no bytes of a string.
#[inline(always)]
pub fn plain<'a>(kind: u8, argument: u64) -> Key<'a>
    ensures kind { result.kind ≡ kind }
    ensures argument { result.argument ≡ argument }
    ensures string { result.string.now ≡ [] }
{
    Key {
        kind,
        argument,
        string: &[],
    }
}

// The kind of a simple value or a float, from its initial byte and its argument. `None` for a simple value that has to be written
// without an argument of its own, and for other items. It is no part of what integers and strings go through.
#[inline(never)]
fn last_kind(initial: u8, argument: u64) -> Option<u8>
    ensures { IfSome result (λ kind. IsLastKind initial argument kind) }
{
    if initial < LAST_FROM {
        return None;
    }
    match initial % 32 {
        24 if argument < 32 => None,
        25 => Some(HALF),
        26 => Some(SINGLE),
        27 => Some(DOUBLE),
        _ => Some(SIMPLE),
    }
}

/// Plain keys in the order of their deterministic bytes (RFC 8949 section 4.2.1).
pub fn compare(key: &Key, other: &Key) -> Ordering
    ensures { result ≡ slice_cmp nat_cmp (mark_of key.now) (mark_of other.now) }
{
    match by_heads(key, other) {
        Ordering::Equal => key.string.cmp(other.string),
        order => order,
    }
}

/// The order of keys by their kinds and arguments alone.
#[inline(always)]
pub fn by_heads(key: &Key, other: &Key) -> Ordering
    ensures { result ≡ ordering_then (nat_cmp key.now.kind other.now.kind) (nat_cmp key.now.argument other.now.argument) }
{
    key.kind
        .cmp(&other.kind)
        .then(key.argument.cmp(&other.argument))
}

/// What is known of some keys and the key at `at`. Their pairs are on the tape from the place `first` up to the place `last`.
pub fn with_key(
    bytes: &[u8],
    tape: &[Entry],
    first: usize,
    last: usize,
    keys: Keys,
    at: usize,
) -> Keys
    requires { last ≤ length tape.now }
    ensures { IsKnownWith bytes.now tape.now first last keys at result }
{
    match keys {
        Keys::Differ(highest) => match highest_with(bytes, tape, first, last, highest, at) {
            Some(above) => Keys::Differ(Some(above)),
            None => Keys::Untold,
        },
        Keys::Untold => Keys::Untold,
    }
}

// The highest of some keys and the key at `at`, if that is surely the same as none of them. Their pairs are on the tape from the
// place `first` up to the place `last`, and the highest of them is `highest`.
//
// A key above all of them is the same as none. Another one is compared with each, where they are eight at most.
fn highest_with(
    bytes: &[u8],
    tape: &[Entry],
    first: usize,
    last: usize,
    highest: Option<usize>,
    at: usize,
) -> Option<usize>
    requires { last ≤ length tape.now }
    ensures { IfSome result (λ after. (own : List ℕ) → IsKeyAt bytes.now at own → IsWithKey bytes.now tape.now first last highest after own) }
{
    let Some(before) = highest else {
        return Some(at);
    };
    let key = key_at(bytes, at)?;
    let top = key_at(bytes, before)?;
    match compare(&top, &key) {
        Ordering::Less => Some(at),
        Ordering::Greater if is_new(bytes, tape, first, last, &key) => Some(before),
        _ => None,
    }
}

// Whether the key is surely the same as none of those whose pairs are on the tape from `first` up to `last`. Where these are more
// than eight it does not tell.
fn is_new(bytes: &[u8], tape: &[Entry], first: usize, last: usize, key: &Key) -> bool
    requires { last ≤ length tape.now }
    ensures { IsTrue result → (ps : Pairs) → ArePairsOn bytes.now tape.now first last ps → AreOther (mark_of key.now) (key_marks ps) }
{
    let mut place = first;
    for _ in 0..FEW {
        if place >= last {
            return true;
        }
        match after_other(bytes, tape, place, last, key) {
            Some(next) => place = next,
            None => return false,
        }
    }
    place >= last
}

// The place after the pair at `place`, if its key is surely another one.
fn after_other(bytes: &[u8], tape: &[Entry], place: usize, last: usize, key: &Key) -> Option<usize>
    requires place { place < last }
    requires last { last ≤ length tape.now }
    ensures { IfSome result (λ next. IsNext bytes.now tape.now place last (mark_of key.now) next) }
{
    let pair = pair_on(tape, place, last)?;
    let other = key_at(bytes, pair.head as usize)?;
    match compare(key, &other) {
        Ordering::Equal => None,
        _ => Some(pair.next),
    }
}

/// The pair at `place`.
#[inline(always)]
pub fn pair_on(tape: &[Entry], place: usize, last: usize) -> Option<PairOn>
    requires place { place < last }
    requires last { last ≤ length tape.now }
    ensures { IfSome result (λ pair. (bytes : List ℕ) → IsPairOn bytes tape.now place last pair.head pair.next) }
{
    let entry = tape[place];
    let value = entry.next as usize;
    if value >= last {
        return None;
    }
    Some(PairOn {
        head: entry.head,
        next: tape[value].next as usize,
    })
}
