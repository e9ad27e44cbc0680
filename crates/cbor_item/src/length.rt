//! How many preferred bytes an item has.

ghost use Rattle.std.specs.Prelude.{◌≡◌, ◌+◌, ◌^◌, ◌<◌, ℕ, length, OnOk, IfErr};
ghost use Rattle.cbor_data.specs.Preferred.{preferred, values_preferred, pairs_preferred, shortest_head, simple_bytes, float_bytes};
ghost use Rattle.cbor_data.specs.Value.{array, pairs as pairs_value};
ghost use Rattle.cbor_item.specs.Length.{capped_sum, IsTooLong};
ghost use Rattle.item_nodes.specs.View.{view, values_view, pairs_view};

use crate::sound::Unsound;
use cbor_data::Width;
use item_nodes::Item;

// Whether some spelling of the item is shorter than 2^64 bytes. No memory holds an item of which the preferred bytes do not
// tell.
pub fn check_length(item: &Item) -> Result<(), Unsound>
    ensures ok { OnOk result (length (preferred (view item.now)) < 2 ^ 64) }
    ensures err { IfErr result (IsTooLong (view item.now)) }
{
    let count = count_bytes(item, 0);
    if count < 1 << 64 {
        Ok(())
    } else if count < 9 << 64 {
        Err(Unsound::Memory)
    } else {
        Err(Unsound::TooBig)
    }
}

// How many preferred bytes the item has, on top of `before`, as far as 2^128 - 1.
#[cycle(length)]
pub fn count_bytes(item: &Item, before: u128) -> u128
    ensures { result ≡ capped_sum before (length (preferred (view item.now))) }
{
    match item {
        Item::Uint(n) | Item::Nint(n) => count_head(*n, before),
        Item::Bytes(bytes) => count_string(bytes.len(), before),
        Item::Text(text) => count_string(text.len(), before),
        Item::Array(items) => count_members(items, before),
        Item::Map(pairs) => count_pairs(pairs, before),
        Item::Tag(number, content) => count_bytes(content, count_head(*number, before)),
        Item::Simple(n) => count_simple(*n, before),
        Item::Float(width, _) => count_float(*width, before),
    }
}

fn count_head(argument: u64, before: u128) -> u128
    ensures { (major : ℕ) → result ≡ capped_sum before (length (shortest_head major argument)) }
{
    before.saturating_add(head_len(argument) as u128)
}

// How many bytes the shortest head with this argument has.
pub fn head_len(argument: u64) -> usize
    ensures { (major : ℕ) → result ≡ length (shortest_head major argument) }
{
    if argument < 24 {
        1
    } else if argument < 1 << 8 {
        2
    } else if argument < 1 << 16 {
        3
    } else if argument < 1 << 32 {
        5
    } else {
        9
    }
}

fn count_string(len: usize, before: u128) -> u128
    ensures { (major : ℕ) → result ≡ capped_sum before (length (shortest_head major len) + len) }
{
    count_head(len as u64, before).saturating_add(len as u128)
}

fn count_simple(n: u8, before: u128) -> u128
    ensures { result ≡ capped_sum before (length (simple_bytes n)) }
{
    before.saturating_add(if n < 24 { 1 } else { 2 })
}

fn count_float(width: Width, before: u128) -> u128
    ensures { (bits : ℕ) → result ≡ capped_sum before (length (float_bytes width bits)) }
{
    let len = match width {
        Width::W16 => 3,
        Width::W32 => 5,
        Width::W64 => 9,
    };
    before.saturating_add(len)
}

#[cycle(length)]
fn count_members(items: &Vec<Item>, before: u128) -> u128
    ensures { result ≡ capped_sum before (length (preferred (array (values_view items.now.items)))) }
{
    let mut count = count_head(items.len() as u64, before);
    for item in items {
        count = count_bytes(item, count);
    }
    count
}

#[cycle(length)]
fn count_pairs(pairs: &Vec<(Item, Item)>, before: u128) -> u128
    ensures { result ≡ capped_sum before (length (preferred (pairs_value (pairs_view pairs.now.items)))) }
{
    let mut count = count_head(pairs.len() as u64, before);
    for (key, value) in pairs {
        count = count_bytes(key, count);
        count = count_bytes(value, count);
    }
    count
}
