//! Whether floats have the bits of their widths.

ghost use Rattle.std.specs.Prelude.{◌↔◌, IsTrue};
ghost use Rattle.cbor_data.specs.Value.{FitsWidth, AreBitsFitting, AreValuesFitting, ArePairsFitting};
ghost use Rattle.item_nodes.specs.View.{view, values_view, pairs_view};

use crate::item::Item;
use cbor_data::Width;

/// Whether the bits of each float in the item fit its width.
#[cycle(bits)]
pub fn are_bits_fitting(item: &Item) -> bool
    ensures { IsTrue result ↔ AreBitsFitting (view item.now) }
{
    match item {
        Item::Array(items) => are_members_fitting(items),
        Item::Map(pairs) => are_pairs_fitting(pairs),
        Item::Tag(_, content) => are_bits_fitting(content),
        Item::Float(width, bits) => fits_width(*width, *bits),
        _ => true,
    }
}

fn fits_width(width: Width, bits: u64) -> bool
    ensures { IsTrue result ↔ FitsWidth width bits }
{
    match width {
        Width::W16 => bits < 1 << 16,
        Width::W32 => bits < 1 << 32,
        Width::W64 => true,
    }
}

#[cycle(bits)]
fn are_members_fitting(items: &Vec<Item>) -> bool
    ensures { IsTrue result ↔ AreValuesFitting (values_view items.now.items) }
{
    for item in items {
        if !are_bits_fitting(item) {
            return false;
        }
    }
    true
}

#[cycle(bits)]
fn are_pairs_fitting(pairs: &Vec<(Item, Item)>) -> bool
    ensures { IsTrue result ↔ ArePairsFitting (pairs_view pairs.now.items) }
{
    for (key, value) in pairs {
        if !are_bits_fitting(key) || !are_bits_fitting(value) {
            return false;
        }
    }
    true
}
