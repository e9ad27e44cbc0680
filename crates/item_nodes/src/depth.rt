//! How deep an item is.

ghost use Rattle.std.specs.Prelude.{◌≤◌, ◌↔◌, IsTrue};
ghost use Rattle.cbor_data.specs.Value.{depth_of, values_depth, pairs_depth};
ghost use Rattle.item_nodes.specs.View.{view, values_view, pairs_view};

use crate::item::Item;

/// Whether no place of the item has more than `allowed` containers round or at it. It goes no deeper than that.
#[cycle(within)]
pub fn is_within(item: &Item, allowed: u32) -> bool
    ensures { IsTrue result ↔ (depth_of (view item.now) ≤ allowed) }
{
    match item {
        Item::Array(items) => allowed > 0 && are_within(items, allowed - 1),
        Item::Map(pairs) => allowed > 0 && are_pairs_within(pairs, allowed - 1),
        Item::Tag(_, content) => allowed > 0 && is_within(content, allowed - 1),
        _ => true,
    }
}

#[cycle(within)]
fn are_within(items: &Vec<Item>, allowed: u32) -> bool
    ensures { IsTrue result ↔ (values_depth (values_view items.now.items) ≤ allowed) }
{
    for item in items {
        if !is_within(item, allowed) {
            return false;
        }
    }
    true
}

#[cycle(within)]
fn are_pairs_within(pairs: &Vec<(Item, Item)>, allowed: u32) -> bool
    ensures { IsTrue result ↔ (pairs_depth (pairs_view pairs.now.items) ≤ allowed) }
{
    for (key, value) in pairs {
        if !is_within(key, allowed) || !is_within(value, allowed) {
            return false;
        }
    }
    true
}
