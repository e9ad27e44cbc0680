//! A quick test that no map in an item repeats a key. It writes no bytes. Where it can't tell, the walk of `duplicates` has
//! to.

ghost use Rattle.std.specs.Prelude.{◌≡◌, [], false, length, map, IfSome, IsTrue};
ghost use Rattle.std.specs.Cmp.Lexicographic.{slice_cmp};
ghost use Rattle.std.specs.List.{AllByRecursion};
ghost use Rattle.std.specs.List.Sorted.{IsStrictlyIncreasing};
ghost use Rattle.std.specs.Ordering.{nat_cmp};
ghost use Rattle.std.specs.declared.cmp.Ordering.TheVariants.{Less};
ghost use Rattle.cbor_data.specs.Validity.{IsValid};
ghost use Rattle.cbor_data.specs.Value.{pairs as pairs_value};
ghost use Rattle.item_nodes.specs.Apart.{has_parts, keys_view, may_be_same, number_of, numbers_view, string_of, strings_view, AreKeysApart, AreValuesValid, RisesBelow};
ghost use Rattle.item_nodes.specs.View.{view, values_view, pairs_view};

use crate::item::{Item, is_same};
use std::alloc::Global;
use std::cmp::Ordering;

// So many keys are compared with each other; of more, the numbers or strings are sorted.
const FEW: usize = 8;

/// Whether it is sure that no map in the item has two keys that are the same up to the order of pairs in them. False says
/// nothing. It looks at a byte of a key at most seven times, or at most once for each level of a sort.
#[cycle(surely)]
pub fn is_surely_valid(alloc: Global, item: &Item) -> bool
    ensures { IsTrue result → IsValid (view item.now) }
{
    match item {
        Item::Array(items) => are_members_valid(alloc, items),
        Item::Map(pairs) => are_pairs_valid(alloc, pairs),
        Item::Tag(_, content) => is_surely_valid(alloc, content),
        _ => true,
    }
}

#[cycle(surely)]
fn are_members_valid(alloc: Global, items: &Vec<Item>) -> bool
    ensures { IsTrue result → AreValuesValid (values_view items.now.items) }
{
    for item in items {
        if is_container(item) && !is_surely_valid(alloc, item) {
            return false;
        }
    }
    true
}

#[cycle(surely)]
fn are_pairs_valid(alloc: Global, pairs: &Vec<(Item, Item)>) -> bool
    ensures { IsTrue result → IsValid (pairs_value (pairs_view pairs.now.items)) }
{
    if !are_keys_apart(alloc, pairs.as_slice()) {
        return false;
    }
    for (key, value) in pairs {
        if is_container(key) && !is_surely_valid(alloc, key) {
            return false;
        }
        if is_container(value) && !is_surely_valid(alloc, value) {
            return false;
        }
    }
    true
}

fn are_keys_apart(alloc: Global, pairs: &[(Item, Item)]) -> bool
    ensures { IsTrue result → AreKeysApart [] (pairs_view pairs.now) }
{
    if pairs.len() <= FEW {
        are_few_apart(pairs)
    } else {
        are_numbers_apart(alloc, pairs) || are_strings_apart(alloc, pairs)
    }
}

// Compares each two of the keys.
fn are_few_apart(pairs: &[(Item, Item)]) -> bool
    ensures { IsTrue result → AreKeysApart [] (pairs_view pairs.now) }
{
    for (i, pair) in pairs.iter().enumerate() {
        if !is_not_among(&pair.0, &pairs[i + 1..]) {
            return false;
        }
    }
    true
}

fn is_not_among(key: &Item, pairs: &[(Item, Item)]) -> bool
    ensures { IsTrue result → AllByRecursion (λ k. may_be_same (view key.now) k ≡ false) (keys_view pairs.now) }
{
    for pair in pairs {
        if is_maybe_same(key, &pair.0) {
            return false;
        }
    }
    true
}

// Two containers are not compared: what is deep in keys of keys would be, for each map round it.
fn is_maybe_same(key: &Item, other: &Item) -> bool
    ensures { result ≡ may_be_same (view key.now) (view other.now) }
{
    (is_container(key) && is_container(other)) || is_same(key, other)
}

/// Whether the item has parts. One that has none repeats no key.
#[inline]
pub fn is_container(item: &Item) -> bool
    ensures parts { result ≡ has_parts (view item.now) }
    ensures valid { result ≡ false → IsValid (view item.now) }
{
    matches!(item, Item::Array(_) | Item::Map(_) | Item::Tag(..))
}

fn are_numbers_apart(alloc: Global, pairs: &[(Item, Item)]) -> bool
    ensures { IsTrue result → AreKeysApart [] (pairs_view pairs.now) }
{
    match numbers_of(alloc, pairs) {
        Some(mut numbers) => {
            numbers.sort_unstable();
            is_rising(numbers.as_slice())
        }
        None => false,
    }
}

// The numbers of the keys, if each is an integer and there is memory.
fn numbers_of(alloc: Global, pairs: &[(Item, Item)]) -> Option<Vec<u128>>
    ensures { IfSome result (λ numbers. numbers.items ≡ numbers_view pairs.now) }
{
    let mut numbers = Vec::with_capacity(alloc, pairs.len()).ok()?;
    for pair in pairs {
        numbers.push(integer(&pair.0)?).ok()?;
    }
    Some(numbers)
}

// A number for each integer, the negative ones after the others.
fn integer(key: &Item) -> Option<u128>
    ensures { IfSome result (λ n. n ≡ number_of (view key.now)) }
{
    match key {
        Item::Uint(n) => Some(*n as u128),
        Item::Nint(n) => Some((1 << 64) + *n as u128),
        _ => None,
    }
}

fn is_rising(numbers: &[u128]) -> bool
    ensures { IsTrue result → IsStrictlyIncreasing numbers.now }
{
    for i in 1..numbers.len() {
        if numbers[i - 1] >= numbers[i] {
            return false;
        }
    }
    true
}

fn are_strings_apart(alloc: Global, pairs: &[(Item, Item)]) -> bool
    ensures { IsTrue result → AreKeysApart [] (pairs_view pairs.now) }
{
    match strings_of(alloc, pairs) {
        Some(mut strings) => {
            strings.sort_unstable();
            is_ascending(strings.as_slice())
        }
        None => false,
    }
}

// The bytes of the keys, if each is a string and there is memory.
fn strings_of<'a>(alloc: Global, pairs: &'a [(Item, Item)]) -> Option<Vec<&'a [u8]>>
    ensures { IfSome result (λ strings. map (λ s. s.now) strings.items ≡ strings_view pairs.now) }
{
    let mut strings = Vec::with_capacity(alloc, pairs.len()).ok()?;
    for pair in pairs {
        strings.push(string(&pair.0)?).ok()?;
    }
    Some(strings)
}

fn string<'a>(key: &'a Item) -> Option<&'a [u8]>
    ensures { IfSome result (λ s. s.now ≡ string_of (view key.now)) }
{
    match key {
        Item::Bytes(bytes) => Some(bytes.as_slice()),
        Item::Text(text) => Some(text.as_bytes()),
        _ => None,
    }
}

fn is_ascending(strings: &[&[u8]]) -> bool
    ensures { IsTrue result → RisesBelow (map (λ s. s.now) strings.now) (length strings.now) }
{
    for i in 1..strings.len() {
        if !is_before(strings[i - 1], strings[i]) {
            return false;
        }
    }
    true
}

/// Whether the first string comes before the second one, byte by byte. False says nothing.
pub(crate) fn is_before(s: &[u8], t: &[u8]) -> bool
    ensures { IsTrue result → slice_cmp nat_cmp s.now t.now ≡ Less }
{
    s.cmp(t) == Ordering::Less
}
