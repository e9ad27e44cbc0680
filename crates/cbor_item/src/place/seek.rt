//! What is at a place of an item.

ghost use Rattle.std.specs.Prelude.{◌≡◌, slice_get};
ghost use Rattle.std.specs.Option.{option_map};
ghost use Rattle.std.specs.Result.{result_map_both};
ghost use Rattle.cbor_data.specs.Value.{places, values_places, pairs_places};
ghost use Rattle.item_nodes.specs.View.{view, values_view, pairs_view};
ghost use Rattle.cbor_item.specs.Place.Elements.{element_or_rest};

use crate::Item;

/// What is at this place of the item: the item itself or an item in it, where the places number these in preorder, a
/// key before its value, from 0 for the whole. It is None exactly where there is no such place. The call takes no memory,
/// and visits no item after the one that it lends.
pub fn item_at(item: &Item, place: usize) -> Option<&Item>
    ensures { option_map (λ found. view found.now) result ≡ slice_get (places (view item.now)) place }
{
    seek(item, place).ok()
}

// What is at a place of the item, or how many places are left when all of the item's are counted. One walk that counts
// down: to count an item's places before going into it would count those below once more at each level.
#[cycle(seek)]
fn seek(item: &Item, place: usize) -> Result<&Item, usize>
    ensures { result_map_both (λ found. view found.now) (λ left. left) result ≡ element_or_rest (places (view item.now)) place }
{
    if place == 0 {
        return Ok(item);
    }
    let left = place - 1;
    match item {
        Item::Array(items) => seek_in_members(items, left),
        Item::Map(pairs) => seek_in_pairs(pairs, left),
        Item::Tag(_, content) => seek(content, left),
        _ => Err(left),
    }
}

#[cycle(seek)]
fn seek_in_members(items: &Vec<Item>, place: usize) -> Result<&Item, usize>
    ensures { result_map_both (λ found. view found.now) (λ left. left) result ≡ element_or_rest (values_places (values_view items.now.items)) place }
{
    let mut left = place;
    for item in items {
        match seek(item, left) {
            Ok(found) => return Ok(found),
            Err(rest) => left = rest,
        }
    }
    Err(left)
}

#[cycle(seek)]
fn seek_in_pairs(pairs: &Vec<(Item, Item)>, place: usize) -> Result<&Item, usize>
    ensures { result_map_both (λ found. view found.now) (λ left. left) result ≡ element_or_rest (pairs_places (pairs_view pairs.now.items)) place }
{
    let mut left = place;
    for (key, value) in pairs {
        match seek(key, left) {
            Ok(found) => return Ok(found),
            Err(rest) => left = rest,
        }
        match seek(value, left) {
            Ok(found) => return Ok(found),
            Err(rest) => left = rest,
        }
    }
    Err(left)
}
