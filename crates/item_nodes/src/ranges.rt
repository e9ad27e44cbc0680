//! What the types of an item's parts say of it.

ghost use Rattle.std.specs.Prelude.{◌<◌, ◌^◌};
ghost use Rattle.cbor_data.specs.Value.{AreBytes, IsInRange, AreInRange, ArePairsInRange};
ghost use Rattle.item_nodes.specs.View.{view, values_view, pairs_view};

use crate::item::Item;

/// Does nothing. What the types of an item's parts say of them: numbers are in range, and texts are UTF-8.
#[cycle(ranges)]
pub fn note_ranges(item: &Item)
    ensures { IsInRange (view item.now) }
{
    match item {
        Item::Uint(n) | Item::Nint(n) | Item::Float(_, n) => note_number(*n),
        Item::Bytes(bytes) => note_bytes(bytes.as_slice()),
        Item::Text(text) => note_bytes(text.as_bytes()),
        Item::Array(items) => note_members(items),
        Item::Map(pairs) => note_pairs(pairs),
        Item::Tag(number, content) => {
            note_number(*number);
            note_ranges(content);
        }
        Item::Simple(n) => note_simple(*n),
    }
}

fn note_number(n: u64)
    ensures { n < 2 ^ 64 }
{
    let _ = n;
}

fn note_simple(n: u8)
    ensures { n < 256 }
{
    let _ = n;
}

fn note_bytes(bytes: &[u8])
    ensures { AreBytes bytes.now }
{
    let _ = bytes;
}

#[cycle(ranges)]
fn note_members(items: &Vec<Item>)
    ensures { AreInRange (values_view items.now.items) }
{
    for item in items {
        note_ranges(item);
    }
}

#[cycle(ranges)]
fn note_pairs(pairs: &Vec<(Item, Item)>)
    ensures { ArePairsInRange (pairs_view pairs.now.items) }
{
    for (key, value) in pairs {
        note_ranges(key);
        note_ranges(value);
    }
}
