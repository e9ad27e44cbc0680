//! The first repeated key of an item (RFC 8949 section 5.3.1): one that is the same as an earlier key of its map, up to the
//! order of the pairs in maps in it. Such keys, and no others, have the same deterministic bytes (sections 4.2.1 and 5.6).

ghost use Rattle.std.specs.Prelude.{◌≡◌, ◌+◌, ◌<◌, ◌^◌, ◌||◌, List, [], ℕ, not, bytes_eq, IfOk, OnOk, IfErr};
ghost use Rattle.cbor_data.specs.Sound.{HasShortSpelling};
ghost use Rattle.cbor_data.specs.Validity.{IsValid};
ghost use Rattle.cbor_data.specs.Value.{place_count, values_place_count, pairs_place_count};
ghost use Rattle.cbor_item.specs.Unsound.{IsRepeat};
ghost use Rattle.item_nodes.specs.View.{view, values_view, pairs_view};
ghost use Rattle.cbor_item.specs.Walk.{IsPlain, ArePlain, ArePairsPlain, Walks, WalksAmong, WalksAfter, has};
ghost use Rattle.cbor_item.specs.declared.sound.Unsound.TheVariants.{Memory};

use crate::det::append_det;
use crate::sound::Unsound;
use item_nodes::Item;
use item_nodes::apart::{is_container, is_surely_valid};
use std::alloc::Global;
use std::collections::BTreeSet;

// Whether no map in the item has two keys that are the same. An item with no parts is settled without a call.
#[inline]
pub fn check_keys(alloc: Global, item: &Item) -> Result<(), Unsound>
    requires { HasShortSpelling (view item.now) }
    ensures ok { OnOk result (IsValid (view item.now)) }
    ensures err { IfErr result (IsRepeat (view item.now)) }
{
    if !is_container(item) || is_surely_valid(alloc, item) {
        Ok(())
    } else {
        find_repeat(alloc, item)
    }
}

// The same by the walk alone.
fn find_repeat(alloc: Global, item: &Item) -> Result<(), Unsound>
    requires { HasShortSpelling (view item.now) }
    ensures ok { OnOk result (IsValid (view item.now)) }
    ensures err { IfErr result (IsRepeat (view item.now)) }
{
    walk(alloc, item, 0)?;
    Ok(())
}

// Looks for the first repeated key of an item at `place`. Answers the place after the item.
#[cycle(walk)]
fn walk(alloc: Global, item: &Item, place: usize) -> Result<usize, Unsound>
    requires plain { IsPlain (view item.now) }
    requires room { place + place_count (view item.now) < 2 ^ 64 }
    ensures { Walks (view item.now) place result }
{
    match item {
        Item::Array(items) => walk_members(alloc, items, place + 1),
        Item::Map(pairs) => walk_pairs(alloc, pairs, place + 1),
        Item::Tag(_, content) => walk(alloc, content, place + 1),
        _ => Ok(place + 1),
    }
}

#[cycle(walk)]
fn walk_members(alloc: Global, items: &Vec<Item>, place: usize) -> Result<usize, Unsound>
    requires plain { ArePlain (values_view items.now.items) }
    requires room { place + values_place_count (values_view items.now.items) < 2 ^ 64 }
    ensures { WalksAmong (values_view items.now.items) place result }
{
    let mut next = place;
    for item in items {
        next = walk(alloc, item, next)?;
    }
    Ok(next)
}

// The same of the pairs of a map. Only keys are laid out as bytes.
#[cycle(walk)]
#[inline(never)]
fn walk_pairs(alloc: Global, pairs: &Vec<(Item, Item)>, place: usize) -> Result<usize, Unsound>
    requires plain { ArePairsPlain (pairs_view pairs.now.items) }
    requires room { place + pairs_place_count (pairs_view pairs.now.items) < 2 ^ 64 }
    ensures { WalksAfter [] (pairs_view pairs.now.items) place result }
{
    let mut keys = BTreeSet::new(alloc);
    let mut next = place;
    for (key, value) in pairs {
        let mut bytes = Vec::new(alloc);
        let after = append_det(alloc, key, next, &mut bytes)?;
        if !note_key(&mut keys, bytes)? {
            return Err(Unsound::Duplicate(next));
        }
        next = walk(alloc, value, after)?;
    }
    Ok(next)
}

// Adds the key's deterministic bytes to those of the keys before it. Answers whether they are new.
#[inline(never)]
fn note_key(keys: &mut BTreeSet<Vec<u8>>, key: Vec<u8>) -> Result<bool, Unsound>
    ensures new { IfOk result (λ new. new ≡ not (has keys.old key.items)) }
    ensures noted { OnOk result ((bytes : List ℕ) → has keys.new bytes ≡ (bytes_eq bytes key.items || has keys.old bytes)) }
    ensures err { IfErr result (λ e. e ≡ Memory) }
{
    match keys.insert(key) {
        Ok(new) => Ok(new),
        Err(_) => Err(Unsound::Memory),
    }
}
