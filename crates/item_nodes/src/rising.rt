//! A quick test that the keys of a map are in the order of their deterministic bytes already. It lays out no key.

ghost use Rattle.std.specs.Prelude.{◌≡◌, ◌++◌, length, IfSome, IsTrue};
ghost use Rattle.std.specs.Cmp.Lexicographic.{slice_cmp};
ghost use Rattle.std.specs.Ordering.{nat_cmp};
ghost use Rattle.std.specs.declared.cmp.Ordering.TheVariants.{Less};
ghost use Rattle.cbor_data.specs.Deterministic.{deterministic};
ghost use Rattle.item_nodes.specs.Apart.{string_of, RisesBelow};
ghost use Rattle.item_nodes.specs.InOrder.{keys_det};
ghost use Rattle.item_nodes.specs.View.{view};

use crate::apart::is_before;
use crate::head::Head;
use crate::item::Item;
use std::cmp::Ordering;

/// Whether it is sure that the keys rise. False says nothing where a key is a float or has parts.
pub fn are_keys_rising(pairs: &[(Item, Item)]) -> bool
    ensures { IsTrue result → RisesBelow (keys_det pairs.now) (length pairs.now) }
{
    for i in 1..pairs.len() {
        if !comes_before(&pairs[i - 1].0, &pairs[i].0) {
            return false;
        }
    }
    true
}

// Whether it is sure that the one key's bytes come before those of the other.
fn comes_before(key: &Item, other: &Item) -> bool
    ensures { IsTrue result → slice_cmp nat_cmp (deterministic (view key.now)) (deterministic (view other.now)) ≡ Less }
{
    let Some(head) = head_of(key) else {
        return false;
    };
    let Some(next) = head_of(other) else {
        return false;
    };
    are_rising(
        head.as_slice(),
        string_of_key(key),
        next.as_slice(),
        string_of_key(other),
    )
}

// The head of an item that is a number, a string or a simple value.
fn head_of(item: &Item) -> Option<Head>
    ensures { IfSome result (λ head. deterministic (view item.now) ≡ head ++ string_of (view item.now)) }
{
    match item {
        Item::Uint(n) => Some(Head::shortest(0, *n)),
        Item::Nint(n) => Some(Head::shortest(1, *n)),
        Item::Bytes(bytes) => Some(Head::shortest(2, bytes.len() as u64)),
        Item::Text(text) => Some(Head::shortest(3, text.len() as u64)),
        Item::Simple(n) => Some(Head::simple(*n)),
        _ => None,
    }
}

// The bytes of a string, and none of another item.
fn string_of_key<'a>(key: &'a Item) -> &'a [u8]
    ensures { result.now ≡ string_of (view key.now) }
{
    match key {
        Item::Bytes(bytes) => bytes.as_slice(),
        Item::Text(text) => text.as_bytes(),
        _ => &[],
    }
}

// Whether it is sure that the one head with its string comes before the other. Heads of different lengths differ in their
// first bytes.
fn are_rising(head: &[u8], string: &[u8], next: &[u8], next_string: &[u8]) -> bool
    ensures { IsTrue result → slice_cmp nat_cmp (head.now ++ string.now) (next.now ++ next_string.now) ≡ Less }
{
    if head.len() != next.len() {
        return !head.is_empty() && !next.is_empty() && head[0] < next[0];
    }
    match head.cmp(next) {
        Ordering::Less => true,
        Ordering::Equal => is_before(string, next_string),
        Ordering::Greater => false,
    }
}
