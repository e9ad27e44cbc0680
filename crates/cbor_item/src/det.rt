//! The deterministic bytes of a key (RFC 8949 section 4.2.1), which tell it from other keys, and its first repeated key,
//! which shows while they are laid out. An item that is known to be valid is laid out by `deterministic`, with less work.

ghost use Rattle.std.specs.Prelude.{◌≡◌, ◌+◌, ◌<◌, ◌^◌, ◌++◌, ℕ, length, OnOk, IfOk, IfErr};
ghost use Rattle.std.specs.BTreeMap.{insert_entry};
ghost use Rattle.std.specs.Cmp.Lexicographic.{slice_cmp};
ghost use Rattle.std.specs.Ordering.{nat_cmp};
ghost use Rattle.cbor_data.specs.Deterministic.{deterministic};
ghost use Rattle.cbor_data.specs.Preferred.{shortest_head, simple_bytes, float_bytes};
ghost use Rattle.cbor_item.specs.Laying.{Lays, LaysAmong, LaysPairs, has_key, joined, seen};
ghost use Rattle.item_nodes.specs.View.{view, values_view, pairs_view};
ghost use Rattle.cbor_item.specs.Walk.{IsPlain, ArePlain, ArePairsPlain};
ghost use Rattle.cbor_item.specs.declared.sound.Unsound.TheVariants.{Memory};
ghost use Rattle.cbor_data.specs.Value.{FitsWidth, place_count, values_place_count, pairs_place_count};

use crate::sound::Unsound;
use cbor_data::Width;
use item_nodes::Item;
use item_nodes::head::Head;
use std::alloc::{AllocError, Global};
use std::collections::BTreeMap;

// Adds the deterministic bytes of an item at `place`, and answers the place after it; or else the place of its first
// repeated key.
#[cycle(det)]
pub fn append_det(
    alloc: Global,
    item: &Item,
    place: usize,
    out: &mut Vec<u8>,
) -> Result<usize, Unsound>
    requires plain { IsPlain (view item.now) }
    requires room { place + place_count (view item.now) < 2 ^ 64 }
    ensures { Lays (view item.now) place out.old.items out.new.items result }
{
    match item {
        Item::Uint(n) => append_number(0, *n, place, out),
        Item::Nint(n) => append_number(1, *n, place, out),
        Item::Bytes(bytes) => append_string(2, bytes.as_slice(), place, out),
        Item::Text(text) => append_string(3, text.as_str().as_bytes(), place, out),
        Item::Array(items) => append_members(alloc, items, place + 1, out),
        Item::Map(pairs) => append_pairs(alloc, pairs, place + 1, out),
        Item::Tag(number, content) => append_content(alloc, *number, content, place + 1, out),
        Item::Simple(n) => append_simple(*n, place, out),
        Item::Float(width, bits) => append_float(*width, *bits, place, out),
    }
}

// What is in a tag, after the head of the tag.
#[cycle(det)]
#[inline(never)]
fn append_content(
    alloc: Global,
    number: u64,
    content: &Item,
    place: usize,
    out: &mut Vec<u8>,
) -> Result<usize, Unsound>
    requires plain { IsPlain (view content.now) }
    requires room { place + place_count (view content.now) < 2 ^ 64 }
    ensures { Lays (view content.now) place (out.old.items ++ shortest_head 6 number) out.new.items result }
{
    append_head(6, number, out)?;
    append_det(alloc, content, place, out)
}

// The members of an array, after its head.
#[cycle(det)]
#[inline(never)]
fn append_members(
    alloc: Global,
    items: &Vec<Item>,
    place: usize,
    out: &mut Vec<u8>,
) -> Result<usize, Unsound>
    requires plain { ArePlain (values_view items.now.items) }
    requires room { place + values_place_count (values_view items.now.items) < 2 ^ 64 }
    ensures { LaysAmong (values_view items.now.items) place (out.old.items ++ shortest_head 4 (length items.now.items)) out.new.items result }
{
    append_head(4, items.len() as u64, out)?;
    let mut next = place;
    for item in items {
        next = append_det(alloc, item, next, out)?;
    }
    Ok(next)
}

// The pairs of a map, after its head. No two keys may be the same.
#[cycle(det)]
#[inline(never)]
fn append_pairs(
    alloc: Global,
    pairs: &Vec<(Item, Item)>,
    place: usize,
    out: &mut Vec<u8>,
) -> Result<usize, Unsound>
    requires plain { ArePairsPlain (pairs_view pairs.now.items) }
    requires room { place + pairs_place_count (pairs_view pairs.now.items) < 2 ^ 64 }
    ensures { LaysPairs (pairs_view pairs.now.items) place (out.old.items ++ shortest_head 5 (length pairs.now.items)) out.new.items result }
{
    let mut noted = BTreeMap::new(alloc);
    let mut next = place;
    for (key, value) in pairs {
        let mut key_bytes = Vec::new(alloc);
        let after = append_det(alloc, key, next, &mut key_bytes)?;
        if is_noted(&noted, &key_bytes) {
            return Err(Unsound::Duplicate(next));
        }
        let mut value_bytes = Vec::new(alloc);
        next = append_det(alloc, value, after, &mut value_bytes)?;
        note(&mut noted, key_bytes, value_bytes)?;
    }
    append_map(pairs.len() as u64, &noted, out)?;
    Ok(next)
}

// Whether a key with these bytes is there.
#[inline(never)]
fn is_noted(noted: &BTreeMap<Vec<u8>, Vec<u8>>, key: &Vec<u8>) -> bool
    ensures { result ≡ has_key key.now.items (seen noted.now) }
{
    noted.contains_key(key)
}

// Puts a pair in its place among those in order. `insert` answers in a register: a map in a key has no room for its answer.
#[inline(always)]
fn note(noted: &mut BTreeMap<Vec<u8>, Vec<u8>>, key: Vec<u8>, value: Vec<u8>) -> Result<(), Unsound>
    ensures ok { OnOk result (seen noted.new ≡ insert_entry (slice_cmp nat_cmp) (seen noted.old) key.items value.items) }
    ensures err { IfErr result (λ e. e ≡ Memory) }
{
    match insert(noted, key, value) {
        Ok(()) => Ok(()),
        Err(_) => Err(Unsound::Memory),
    }
}

// The same, which says no more than whether there was memory.
#[inline(never)]
fn insert(
    noted: &mut BTreeMap<Vec<u8>, Vec<u8>>,
    key: Vec<u8>,
    value: Vec<u8>,
) -> Result<(), AllocError>
    ensures { OnOk result (seen noted.new ≡ insert_entry (slice_cmp nat_cmp) (seen noted.old) key.items value.items) }
{
    match noted.insert(key, value) {
        Ok(_) => Ok(()),
        Err(_) => Err(AllocError),
    }
}

// Adds the head of a map with so many pairs, and then these pairs in order.
#[inline(always)]
fn append_map(
    count: u64,
    noted: &BTreeMap<Vec<u8>, Vec<u8>>,
    out: &mut Vec<u8>,
) -> Result<(), Unsound>
    ensures ok { OnOk result (out.new.items ≡ (out.old.items ++ shortest_head 5 count) ++ joined (seen noted.now)) }
    ensures err { IfErr result (λ e. e ≡ Memory) }
{
    match append_noted(count, noted, out) {
        Ok(()) => Ok(()),
        Err(_) => Err(Unsound::Memory),
    }
}

// The same, which says no more than whether there was memory.
#[inline(never)]
fn append_noted(
    count: u64,
    noted: &BTreeMap<Vec<u8>, Vec<u8>>,
    out: &mut Vec<u8>,
) -> Result<(), AllocError>
    ensures { OnOk result (out.new.items ≡ (out.old.items ++ shortest_head 5 count) ++ joined (seen noted.now)) }
{
    out.extend_from_slice(Head::shortest(5, count).as_slice())?;
    for (key, value) in noted {
        out.extend_from_slice(key)?;
        out.extend_from_slice(value)?;
    }
    Ok(())
}

// Adds bytes.
fn append(bytes: &[u8], out: &mut Vec<u8>) -> Result<(), Unsound>
    ensures ok { OnOk result (out.new.items ≡ out.old.items ++ bytes.now) }
    ensures err { IfErr result (λ e. e ≡ Memory) }
{
    match out.extend_from_slice(bytes) {
        Ok(()) => Ok(()),
        Err(_) => Err(Unsound::Memory),
    }
}

// Adds a head.
#[inline(never)]
fn append_head(major: u8, argument: u64, out: &mut Vec<u8>) -> Result<(), Unsound>
    requires { major < 8 }
    ensures ok { OnOk result (out.new.items ≡ out.old.items ++ shortest_head major argument) }
    ensures err { IfErr result (λ e. e ≡ Memory) }
{
    append(Head::shortest(major, argument).as_slice(), out)
}

// The bytes of an integer at `place`.
#[inline(never)]
fn append_number(
    major: u8,
    argument: u64,
    place: usize,
    out: &mut Vec<u8>,
) -> Result<usize, Unsound>
    requires major { major < 8 }
    requires room { place + 1 < 2 ^ 64 }
    ensures ok { IfOk result (λ next. next ≡ place + 1) }
    ensures bytes { OnOk result (out.new.items ≡ out.old.items ++ shortest_head major argument) }
    ensures err { IfErr result (λ e. e ≡ Memory) }
{
    append_part(Head::shortest(major, argument).as_slice(), place, out)
}

// The bytes of a simple value at `place`.
#[inline(never)]
fn append_simple(n: u8, place: usize, out: &mut Vec<u8>) -> Result<usize, Unsound>
    requires { place + 1 < 2 ^ 64 }
    ensures ok { IfOk result (λ next. next ≡ place + 1) }
    ensures bytes { OnOk result (out.new.items ≡ out.old.items ++ simple_bytes n) }
    ensures err { IfErr result (λ e. e ≡ Memory) }
{
    append_part(Head::simple(n).as_slice(), place, out)
}

// The bytes of a float at `place`.
#[inline(never)]
fn append_float(width: Width, bits: u64, place: usize, out: &mut Vec<u8>) -> Result<usize, Unsound>
    requires fits { FitsWidth width bits }
    requires room { place + 1 < 2 ^ 64 }
    ensures ok { IfOk result (λ next. next ≡ place + 1) }
    ensures bytes { OnOk result (out.new.items ≡ out.old.items ++ float_bytes width bits) }
    ensures err { IfErr result (λ e. e ≡ Memory) }
{
    append_part(Head::float(width, bits).as_slice(), place, out)
}

// The bytes of an item without parts at `place`.
fn append_part(bytes: &[u8], place: usize, out: &mut Vec<u8>) -> Result<usize, Unsound>
    requires { place + 1 < 2 ^ 64 }
    ensures ok { IfOk result (λ next. next ≡ place + 1) }
    ensures bytes { OnOk result (out.new.items ≡ out.old.items ++ bytes.now) }
    ensures err { IfErr result (λ e. e ≡ Memory) }
{
    append(bytes, out)?;
    Ok(place + 1)
}

// A string at `place`: its head, and then its bytes.
#[inline(never)]
fn append_string(major: u8, bytes: &[u8], place: usize, out: &mut Vec<u8>) -> Result<usize, Unsound>
    requires major { major < 8 }
    requires room { place + 1 < 2 ^ 64 }
    ensures ok { IfOk result (λ next. next ≡ place + 1) }
    ensures bytes { OnOk result (out.new.items ≡ out.old.items ++ (shortest_head major (length bytes.now) ++ bytes.now)) }
    ensures err { IfErr result (λ e. e ≡ Memory) }
{
    append_head(major, bytes.len() as u64, out)?;
    append_part(bytes, place, out)
}
