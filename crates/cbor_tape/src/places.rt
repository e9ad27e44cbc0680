//! What is at the places of a tape.
ghost use Rattle.std.specs.Prelude.{◌≡◌, ◌+◌, ◌≤◌, ℕ, length, IfSome, MatchOption};
ghost use Rattle.cbor_data.specs.Value.{Value, Values, Pairs, no_values, no_pairs, place_count};
ghost use Rattle.cbor_tape.specs.Parts.{next_at};
ghost use Rattle.cbor_tape.specs.Tape.{IsWholeTape};
ghost use Rattle.cbor_tape.specs.Places.{AreAt, ArePairsAt, IsAt, IsFirstOf, IsFirstPairOf, IsLeafSeen, IsSeen, IsTagSeen, major_type};

use crate::entry::Entry;
use crate::keys::plain_at;
use cbor_data::Width;
use read_items::whole::argument_at;

/// Bytes, and a tape over them, as [`whole_tape`](crate::whole_tape) writes it. What a call answers of a place is so of whatever item
/// is there.
#[derive(Clone, Copy)]
pub struct Taped<'b> {
    bytes: &'b [u8],
    tape: &'b [Entry],
}

/// An item at a place, as far as its own bytes tell.
#[derive(Clone, Copy)]
pub enum Seen<'b> {
    /// An unsigned integer.
    Uint(u64),
    /// The integer -1 minus this number.
    Nint(u64),
    /// A byte string in one part.
    Bytes(&'b [u8]),
    /// A text in one part.
    Text(&'b [u8]),
    /// An array, whose members have the places from `first` up to `end`.
    Array { first: usize, end: usize },
    /// A map, whose pairs have the places from `first` up to `end`, each key before its value.
    Map { first: usize, end: usize },
    /// A tag of this number, and the place of its content.
    Tag { number: u64, content: usize },
    /// A simple value.
    Simple(u8),
    /// A float of this width, by its bits.
    Float(Width, u64),
}

impl<'b> Taped<'b> {
    /// The tape over the bytes. An item that it stands for is at the place 0.
    #[inline(always)]
    pub fn new(bytes: &'b [u8], tape: &'b [Entry]) -> Taped<'b>
        ensures { (depth n : ℕ) (whole : IsWholeTape depth bytes.now tape.now n) → IsAt result 0 whole.value }
    {
        Taped { bytes, tape }
    }

    /// The major type of the item at the place (RFC 8949 section 3.1). `None` says nothing.
    #[inline(always)]
    pub fn major(&self, place: usize) -> Option<u8>
        ensures { IfSome result (λ major. (x : Value) → IsAt self.now place x → major_type x ≡ major) }
    {
        if place >= self.tape.len() {
            return None;
        }
        let head = self.tape[place].head as usize;
        if head >= self.bytes.len() {
            return None;
        }
        Some(self.bytes[head] / 32)
    }

    /// The place after the item at the place and all that is below it. `None` says nothing.
    #[inline(always)]
    pub fn after(&self, place: usize) -> Option<usize>
        ensures { IfSome result (λ next. (x : Value) → IsAt self.now place x → next ≡ place + place_count x) }
    {
        self.next(place)
    }

    // The next place that the entry of this place has.
    #[inline(always)]
    fn next(&self, place: usize) -> Option<usize>
        ensures { MatchOption result (length self.now.tape.now ≤ place) (λ next. next ≡ next_at self.now.tape.now place) }
    {
        if place >= self.tape.len() {
            return None;
        }
        Some(self.tape[place].next as usize)
    }

    /// What is at the place. `None` says nothing: a string in chunks may be there, or no item.
    #[inline(always)]
    pub fn seen(&self, place: usize) -> Option<Seen<'b>>
        ensures { IfSome result (λ seen. (x : Value) → IsAt self.now place x → IsSeen self.now x seen) }
    {
        if place >= self.tape.len() {
            return None;
        }
        let Entry { head, next } = self.tape[place];
        let head = head as usize;
        if head >= self.bytes.len() {
            return None;
        }
        let first = place + 1;
        let end = next as usize;
        match self.bytes[head] / 32 {
            4 => Some(Seen::Array { first, end }),
            5 => Some(Seen::Map { first, end }),
            6 => Some(Seen::Tag {
                number: tag_at(self.bytes, head)?,
                content: first,
            }),
            _ => leaf_at(self.bytes, head),
        }
    }

    /// The place after the first of the items that have the places from this one up to `end`. `None` where there are none.
    #[inline(always)]
    pub fn first(&self, place: usize, end: usize) -> Option<usize>
        ensures { (xs : Values) → AreAt self.now place end xs → MatchOption result (xs ≡ no_values) (λ next. IsFirstOf self.now place end next xs) }
    {
        if place >= end {
            return None;
        }
        self.next(place)
    }

    /// Of the pairs that have the places from this one up to `end`: the place of the first one's value, and the place after that value.
    /// `None` where there are none.
    #[inline(always)]
    pub fn first_pair(&self, place: usize, end: usize) -> Option<(usize, usize)>
        ensures { (ps : Pairs) → ArePairsAt self.now place end ps → MatchOption result (ps ≡ no_pairs) (λ r. IsFirstPairOf self.now place end r.0 r.1 ps) }
    {
        if place >= end {
            return None;
        }
        let Some(held) = self.next(place) else {
            return None;
        };
        let Some(next) = self.next(held) else {
            return None;
        };
        Some((held, next))
    }
}

// The number of the tag at `head`, if a tag is there.
#[inline(always)]
fn tag_at(bytes: &[u8], head: usize) -> Option<u64>
    ensures { IfSome result (λ number. IsTagSeen bytes.now head number) }
{
    if head >= bytes.len() {
        return None;
    }
    let (number, start) = argument_at(bytes, head);
    if start == 0 {
        return None;
    }
    Some(number)
}

// What is at `head`, if it has no parts and is no string in chunks.
#[inline(always)]
fn leaf_at(bytes: &[u8], head: usize) -> Option<Seen<'_>>
    ensures { IfSome result (λ seen. IsLeafSeen bytes.now head seen) }
{
    let (key, _) = plain_at(bytes, head)?;
    match key.kind {
        0 => Some(Seen::Uint(key.argument)),
        1 => Some(Seen::Nint(key.argument)),
        2 => Some(Seen::Bytes(key.string)),
        3 => Some(Seen::Text(key.string)),
        7 if key.argument < 256 => Some(Seen::Simple(key.argument as u8)),
        8 => Some(Seen::Float(Width::W16, key.argument)),
        9 => Some(Seen::Float(Width::W32, key.argument)),
        10 => Some(Seen::Float(Width::W64, key.argument)),
        _ => None,
    }
}
