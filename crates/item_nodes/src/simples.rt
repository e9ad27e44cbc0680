//! Whether an item's simple values are assignable.

ghost use Rattle.std.specs.Prelude.{◌↔◌, IsTrue};
ghost use Rattle.cbor_data.specs.Value.{AreSimplesAssignable, AreValuesAssignable, ArePairsAssignable};
ghost use Rattle.item_nodes.specs.View.{view, values_view, pairs_view};

use crate::item::Item;

/// Whether no simple value in the item is one of 24 to 31, which RFC 8949 section 3.3 reserves.
#[cycle(simples)]
pub fn are_simples_assignable(item: &Item) -> bool
    ensures { IsTrue result ↔ AreSimplesAssignable (view item.now) }
{
    match item {
        Item::Array(items) => are_members_assignable(items),
        Item::Map(pairs) => are_pairs_assignable(pairs),
        Item::Tag(_, content) => are_simples_assignable(content),
        Item::Simple(n) => !matches!(*n, 24..32),
        _ => true,
    }
}

#[cycle(simples)]
fn are_members_assignable(items: &Vec<Item>) -> bool
    ensures { IsTrue result ↔ AreValuesAssignable (values_view items.now.items) }
{
    for item in items {
        if !are_simples_assignable(item) {
            return false;
        }
    }
    true
}

#[cycle(simples)]
fn are_pairs_assignable(pairs: &Vec<(Item, Item)>) -> bool
    ensures { IsTrue result ↔ ArePairsAssignable (pairs_view pairs.now.items) }
{
    for (key, value) in pairs {
        if !are_simples_assignable(key) || !are_simples_assignable(value) {
            return false;
        }
    }
    true
}
