//! How many bytes may be read in byte strings, in proportion to the size of an item, and what else takes time and is no step.

ghost use Rattle.std.specs.Prelude.{◌≡◌, ◌↔◌, ◌+◌, ◌-◌, ◌*◌, ◌/◌, ◌≤◌, ◌<◌, ◌^◌, IsTrue};
ghost use Rattle.std.specs.Option.{option_and};
ghost use Rattle.cbor_data.specs.Value.{pairs_place_count};
ghost use Rattle.match_held.specs.Allowance.{is_small, most_in, string_length, work_of_keys};
ghost use Rattle.cddl_meaning.specs.Moves.{plus};
ghost use Rattle.cddl_meaning.specs.Size.{size, values_size, pairs_size};
ghost use Rattle.item_nodes.specs.View.{view, values_view, pairs_view};

use cbor_item::Item;
use match_moves::{place_after, plus};

/// So many bytes may be read in the byte strings of any item.
const FREE: usize = 1 << 20;

/// So many more may be read for each item and each byte of a string in an item.
const EACH: usize = 64;

/// This part of the bytes that may be read may be those of items that are kept at once.
const KEPT: usize = 8;

/// What a string holds takes memory beside its bytes while it is kept, as so many of them do: else empty ones could be kept without
/// a limit.
const KEPT_BESIDE: usize = 4;

/// So much work counts as one byte that is read: so many entries that are gone by, places that are counted, or bytes of a long
/// string that are compared.
const WORK: usize = 16;

/// Where strings of fewer bytes than these are compared, and where an item has fewer places, nothing is counted.
const SMALL: usize = 1_024;

/// A question that waits counts as so many bytes that may be read.
const WAITING: usize = 16;

/// To compare so many bytes of a key takes as long as to go by an entry.
const KEY_BYTES: usize = 64;

/// How many bytes may be read in byte strings, how many were read, those that were read again too, and of how many what they
/// hold is kept. An item's size is counted where more are to be read than any item allows.
#[derive(Clone, Copy)]
pub struct Allowance<'i> {
    /// The item, until its size is counted.
    item: Option<&'i Item>,
    most: usize,
    read: usize,
    kept: usize,
}

// How large an item is, on top of `before`: one for itself and for each item in it, and one for each byte of a string.
#[cycle(size)]
fn size_after(item: &Item, before: usize) -> usize
    ensures { result ≡ plus before (size (view item.now)) }
{
    let before = plus(before, 1);
    match item {
        Item::Bytes(bytes) => plus(before, bytes.len()),
        Item::Text(text) => plus(before, text.len()),
        Item::Array(items) => size_after_items(items, before),
        Item::Map(pairs) => size_after_pairs(pairs, before),
        Item::Tag(_, content) => size_after(content, before),
        _ => before,
    }
}

#[cycle(size)]
fn size_after_items(items: &Vec<Item>, before: usize) -> usize
    ensures { result ≡ plus before (values_size (values_view items.now.items)) }
{
    let mut next = before;
    for item in items {
        next = size_after(item, next);
    }
    next
}

#[cycle(size)]
fn size_after_pairs(pairs: &Vec<(Item, Item)>, before: usize) -> usize
    ensures { result ≡ plus before (pairs_size (pairs_view pairs.now.items)) }
{
    let mut next = before;
    for (key, value) in pairs {
        next = size_after(key, next);
        next = size_after(value, next);
    }
    next
}

// How many bytes a string has, and 0 for any other item.
#[inline(always)]
fn string_length(item: &Item) -> usize
    ensures { result ≡ string_length (view item.now) }
{
    match item {
        Item::Bytes(bytes) => bytes.len(),
        Item::Text(text) => text.len(),
        _ => 0,
    }
}

/// Whether little is to be done for a question about an item that a test answers: it has one place, and is no string of 1,024
/// bytes or more.
#[inline(always)]
pub fn is_small(item: &Item) -> bool
    ensures { result ≡ is_small (view item.now) }
{
    match item {
        Item::Array(_) | Item::Map(_) | Item::Tag(_, _) => false,
        _ => string_length(item) < SMALL,
    }
}

/// How much work it may be for the pairs of a map to pass over one entry: one for each pair, and one more for each 64 bytes of a key
/// that is a string; 2^64 - 1 at most.
pub fn work_of_keys(pairs: &[(Item, Item)]) -> usize
    ensures { result ≡ plus 0 (work_of_keys (pairs_view pairs.now)) }
{
    let mut work = 0;
    for (key, _) in pairs {
        work = plus(work, 1 + string_length(key) / KEY_BYTES);
    }
    work
}

/// How many places the pairs of a map have, 2^64 - 1 at most.
pub fn places_of(pairs: &[(Item, Item)]) -> usize
    ensures { result ≡ plus 0 (pairs_place_count (pairs_view pairs.now)) }
{
    let mut next = 0;
    for (key, value) in pairs {
        next = place_after(value, place_after(key, next));
    }
    next
}

impl<'i> Allowance<'i> {
    /// As much as there is memory for.
    pub fn unbounded() -> Allowance<'i>
        ensures most { most_in result ≡ 2 ^ 64 - 1 }
        ensures nothing { result.read + result.kept ≡ 0 }
    {
        Allowance {
            item: None,
            most: usize::MAX,
            read: 0,
            kept: 0,
        }
    }

    /// What the item allows: 1 MiB, and 64 bytes for each item and each byte of a string in it.
    pub fn of(item: &'i Item) -> Allowance<'i>
        ensures most { most_in result ≡ plus (2 ^ 20) (64 * size (view item.now)) }
        ensures nothing { result.read + result.kept ≡ 0 }
    {
        Allowance {
            item: Some(item),
            most: FREE,
            read: 0,
            kept: 0,
        }
    }

    // The same, where the item's size is counted.
    #[cold]
    #[inline(never)]
    fn counted(self) -> Allowance<'i>
        ensures most { result.most ≡ most_in self.entry }
        ensures item { result.item ≡ None }
        ensures read { result.read ≡ self.entry.read }
        ensures kept { result.kept ≡ self.entry.kept }
    {
        let Some(item) = self.item else {
            return self;
        };
        let more = size_after(item, 0).saturating_mul(EACH);
        Allowance {
            item: None,
            most: plus(self.most, more),
            ..self
        }
    }

    // Whether so many bytes may be read in all, which are read then. The item's size is counted first.
    #[cold]
    #[inline(never)]
    fn take_counted(&mut self, read: usize) -> bool
        ensures said { IsTrue result ↔ read ≤ most_in self.old }
        ensures taken { IsTrue result → self.new.read ≡ read }
        ensures most { most_in self.new ≡ most_in self.old }
        ensures kept { self.new.kept ≡ self.old.kept }
    {
        *self = self.counted();
        if read > self.most {
            return false;
        }
        self.read = read;
        true
    }

    /// Takes so many bytes for a reading, if so many may be read yet.
    #[inline(always)]
    pub fn take_read(&mut self, bytes: usize) -> bool
        ensures said { IsTrue result ↔ plus self.old.read bytes ≤ most_in self.old }
        ensures taken { IsTrue result → self.new.read ≡ plus self.old.read bytes }
        ensures most { most_in self.new ≡ most_in self.old }
        ensures kept { self.new.kept ≡ self.old.kept }
    {
        let read = plus(self.read, bytes);
        if read <= self.most {
            self.read = read;
            return true;
        }
        self.take_counted(read)
    }

    /// Takes one byte for each 16 of the work, if so many may be read yet.
    #[inline(always)]
    pub fn take_for(&mut self, work: usize) -> bool
        ensures said { IsTrue result ↔ plus self.old.read (work / 16) ≤ most_in self.old }
        ensures taken { IsTrue result → self.new.read ≡ plus self.old.read (work / 16) }
        ensures most { most_in self.new ≡ most_in self.old }
        ensures kept { self.new.kept ≡ self.old.kept }
    {
        self.take_read(work / WORK)
    }

    // The same, where it is much.
    #[cold]
    #[inline(never)]
    fn take_for_much(&mut self, work: usize) -> bool
        ensures said { IsTrue result ↔ plus self.old.read (work / 16) ≤ most_in self.old }
        ensures taken { IsTrue result → self.new.read ≡ plus self.old.read (work / 16) }
        ensures most { most_in self.new ≡ most_in self.old }
        ensures kept { self.new.kept ≡ self.old.kept }
    {
        self.take_for(work)
    }

    /// Takes one byte for each 16 of two strings of so many bytes that are compared, if they have 1,024 or more; and says whether so
    /// many may be read yet.
    #[inline(always)]
    pub fn may_compare(&mut self, length: usize) -> bool
        ensures short { length < 1024 → IsTrue result × (self.new.read ≡ self.old.read) }
        ensures long { 1024 ≤ length → IsTrue result ↔ plus self.old.read (length / 16) ≤ most_in self.old }
        ensures taken { 1024 ≤ length → IsTrue result → self.new.read ≡ plus self.old.read (length / 16) }
        ensures most { most_in self.new ≡ most_in self.old }
        ensures kept { self.new.kept ≡ self.old.kept }
    {
        length < SMALL || self.take_for_much(length)
    }

    /// Takes one byte for each 16 places that were counted from one to another, if they are 1,024 or more; and says whether so many
    /// may be read yet.
    #[inline(always)]
    pub fn may_count(&mut self, place: usize, next: usize) -> bool
        ensures few { next - place < 1024 → IsTrue result × (self.new.read ≡ self.old.read) }
        ensures many { 1024 ≤ next - place → IsTrue result ↔ plus self.old.read ((next - place) / 16) ≤ most_in self.old }
        ensures taken { 1024 ≤ next - place → IsTrue result → self.new.read ≡ plus self.old.read ((next - place) / 16) }
        ensures most { most_in self.new ≡ most_in self.old }
        ensures kept { self.new.kept ≡ self.old.kept }
    {
        let places = next.saturating_sub(place);
        places < SMALL || self.take_for_much(places)
    }

    /// Whether so many questions may wait for a reply: one for each 16 bytes that may be read.
    #[inline(always)]
    pub fn may_wait(&mut self, questions: usize) -> bool
        ensures said { IsTrue result ↔ 16 * questions ≤ most_in self.old }
        ensures most { most_in self.new ≡ most_in self.old }
        ensures read { self.new.read ≡ self.old.read }
        ensures kept { self.new.kept ≡ self.old.kept }
    {
        if questions <= self.most / WAITING {
            return true;
        }
        *self = self.counted();
        questions <= self.most / WAITING
    }

    /// Takes so many bytes, and four more, for a string of which it is kept what it holds, if so many may be kept yet: an eighth of
    /// those that may be read.
    pub fn take_kept(&mut self, bytes: usize) -> bool
        ensures said { IsTrue result ↔ plus (plus self.old.kept bytes) 4 ≤ most_in self.old / 8 }
        ensures taken { IsTrue result → self.new.kept ≡ plus (plus self.old.kept bytes) 4 }
        ensures most { most_in self.new ≡ most_in self.old }
        ensures read { self.new.read ≡ self.old.read }
    {
        let kept = plus(plus(self.kept, bytes), KEPT_BESIDE);
        if kept <= self.most / KEPT {
            self.kept = kept;
            return true;
        }
        *self = self.counted();
        if kept > self.most / KEPT {
            return false;
        }
        self.kept = kept;
        true
    }

    /// The same, once all is let go of that was read by another allowance, which began as this one is. What that one has read
    /// stays read.
    pub fn after(self, other: Allowance<'_>) -> Allowance<'i>
        ensures read { result.read ≡ other.entry.read }
        ensures kept { result.kept ≡ self.entry.kept }
        ensures most { result.most ≡ other.entry.most }
        ensures item { result.item ≡ option_and other.entry.item self.entry.item }
    {
        Allowance {
            item: other.item.and(self.item),
            most: other.most,
            read: other.read,
            kept: self.kept,
        }
    }
}
