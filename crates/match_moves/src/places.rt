//! Places of an item: it and all below it in preorder, a key before its value.

ghost use Rattle.std.specs.Prelude.{◌≡◌};
ghost use Rattle.cbor_data.specs.Value.{place_count, values_place_count, pairs_place_count};
ghost use Rattle.item_nodes.specs.View.{view, values_view, pairs_view};
ghost use Rattle.cddl_meaning.specs.Moves.{plus};

use item_nodes::Item;

/// A sum that stays at the greatest number, which no place of a sound item reaches.
#[inline]
pub fn plus(a: usize, b: usize) -> usize
    ensures { result ≡ plus a b }
{
    a.saturating_add(b)
}

/// The place after an item that is at this place, as far as 2^64 - 1.
#[inline]
pub fn place_after(item: &Item, place: usize) -> usize
    ensures { result ≡ plus place (place_count (view item.now)) }
{
    match item {
        Item::Array(_) | Item::Map(_) | Item::Tag(_, _) => place_after_all(item, place),
        _ => plus(place, 1),
    }
}

// The place after an item and all that is in it.
#[cycle(after)]
fn place_after_all(item: &Item, place: usize) -> usize
    ensures { result ≡ plus place (place_count (view item.now)) }
{
    let next = plus(place, 1);
    match item {
        Item::Array(items) => place_after_items(items, next),
        Item::Map(pairs) => place_after_pairs(pairs, next),
        Item::Tag(_, content) => place_after_all(content, next),
        _ => next,
    }
}

// The place after items, of which the first is at this place.
#[cycle(after)]
fn place_after_items(items: &Vec<Item>, place: usize) -> usize
    ensures { result ≡ plus place (values_place_count (values_view items.now.items)) }
{
    let mut next = place;
    for item in items {
        next = place_after_all(item, next);
    }
    next
}

// The place after pairs, of which the first key is at this place.
#[cycle(after)]
fn place_after_pairs(pairs: &Vec<(Item, Item)>, place: usize) -> usize
    ensures { result ≡ plus place (pairs_place_count (pairs_view pairs.now.items)) }
{
    let mut next = place;
    for (key, value) in pairs {
        next = place_after_all(key, next);
        next = place_after_all(value, next);
    }
    next
}
