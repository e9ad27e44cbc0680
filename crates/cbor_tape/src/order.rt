//! Keys of a map of which it is not known that all differ: they are put in order.
ghost use Rattle.std.specs.Prelude.{◌≡◌, ◌≤◌, ℕ, [], length, take, IfSome, IsTrue, List};
ghost use Rattle.std.specs.List.Sorted.{IsPermutation};
ghost use Rattle.cbor_data.specs.Value.{Pairs};
ghost use Rattle.item_nodes.specs.Apart.{AreKeysApart};
ghost use Rattle.cbor_tape.specs.Keys.{key_marks, AreApart, AreKeys, ArePairsOn, AreListed, IsAbove, IsKeyAt, IsKnown};

use crate::entry::Entry;
use crate::keys::{Keys, pair_on};
use crate::parts::order;
use std::cmp::Ordering;

/// Whether the keys of a map all differ, of which this is known. Their pairs are on the tape from the place `first` up to the place
/// `last`. The keys are put in order in the room after the front of the tape, which is as long as the bytes; where that is too
/// short for them, it is not reported.
pub fn all_differ(bytes: &[u8], tape: &mut [Entry], first: usize, last: usize, keys: Keys) -> bool
    requires room { length bytes.now ≤ length tape.old }
    requires last { last ≤ length bytes.now }
    ensures front { take (length bytes.now) tape.new ≡ take (length bytes.now) tape.old }
    ensures apart { IsTrue result → (ps : Pairs) → ArePairsOn bytes.now tape.old first last ps → IsKnown bytes.now keys ps → AreKeysApart [] ps }
{
    match keys {
        Keys::Differ(_) => true,
        Keys::Untold => are_apart(bytes, tape, first, last),
    }
}

// The same where nothing is known.
fn are_apart(bytes: &[u8], tape: &mut [Entry], first: usize, last: usize) -> bool
    requires room { length bytes.now ≤ length tape.old }
    requires last { last ≤ length bytes.now }
    ensures front { take (length bytes.now) tape.new ≡ take (length bytes.now) tape.old }
    ensures apart { IsTrue result → (ps : Pairs) → ArePairsOn bytes.now tape.old first last ps → AreApart (key_marks ps) }
{
    let (front, room) = tape.split_at_mut(bytes.len());
    match list(front, first, last, room) {
        Some(count) => differ(bytes, room.split_at_mut(count).0),
        None => false,
    }
}

// Puts the keys of these pairs into the room, each with its number: how many there are. None where the room is too short.
fn list(tape: &[Entry], first: usize, last: usize, room: &mut [Entry]) -> Option<usize>
    requires { last ≤ length tape.now }
    ensures within { IfSome result (λ count. count ≤ length room.new) }
    ensures listed { IfSome result (λ count. (bytes : List ℕ) (ps : Pairs) → ArePairsOn bytes tape.now first last ps → AreListed bytes 0 (key_marks ps) (take count room.new)) }
{
    let mut place = first;
    let mut count = 0;
    while place < last {
        let pair = pair_on(tape, place, last)?;
        if count >= room.len() || count > u32::MAX as usize || pair.next <= place {
            return None;
        }
        room[count] = Entry {
            head: pair.head,
            next: count as u32,
        };
        count += 1;
        place = pair.next;
    }
    Some(count)
}

// Whether these keys all differ. They are put in order.
fn differ(bytes: &[u8], keys: &mut [Entry]) -> bool
    ensures { IsTrue result → (ms : List (List ℕ)) → AreListed bytes.now 0 ms keys.old → AreApart ms }
{
    sort(bytes, keys);
    rise(bytes, keys)
}

fn sort(bytes: &[u8], keys: &mut [Entry])
    ensures { IsPermutation keys.old keys.new }
{
    keys.sort_unstable_by(|key, other| order(bytes, key.head as usize, other.head as usize));
}

// Whether each of these keys is surely above the one before it.
fn rise(bytes: &[u8], keys: &[Entry]) -> bool
    ensures { IsTrue result → (ms : List (List ℕ)) → AreKeys bytes.now ms keys.now → AreApart ms }
{
    let mut top = None;
    for key in keys {
        let at = key.head as usize;
        if !is_above(bytes, top, at) {
            return false;
        }
        top = Some(at);
    }
    true
}

// Whether the key at `at` is surely above the highest of some, which is at `top`, if there are some.
fn is_above(bytes: &[u8], top: Option<usize>, at: usize) -> bool
    ensures { IsTrue result → (own : List ℕ) → IsKeyAt bytes.now at own → IsAbove bytes.now top at own }
{
    match top {
        Some(top) => matches!(order(bytes, top, at), Ordering::Less),
        None => true,
    }
}
