//! Writes items to a device in deterministic encoding (RFC 8949 section 4.2.1).

ghost use Rattle.std.specs.Prelude.{◌≡◌, ◌<◌, ◌≤◌, ◌++◌, length, take, OnOk, IfOk};
ghost use Rattle.std.specs.Io.KnownBytes.{Appends};
ghost use Rattle.cbor_data.specs.Deterministic.{deterministic, values_ordered, pairs_ordered};
ghost use Rattle.cbor_data.specs.Preferred.{shortest_head, simple_bytes, float_bytes, values_preferred, pairs_preferred};
ghost use Rattle.cbor_data.specs.Validity.{IsValid};
ghost use Rattle.cbor_data.specs.Value.{FitsWidth, Pairs, array, pairs as pairs_value};
ghost use Rattle.item_nodes.specs.Counted.{device_of, failures_of, HasRisen};
ghost use Rattle.item_nodes.specs.InOrder.{laid, lengths_of, total, cut, seen_slices};
ghost use Rattle.cbor_item.specs.Laying.{joined};
ghost use Rattle.item_nodes.specs.View.{view, values_view, pairs_view};
ghost use Rattle.cbor_item.specs.Walk.{IsPlain, ArePlain, ArePairsPlain};

use crate::sound::Sound;
use crate::write::{WriteFault, write_bytes};
use cbor_data::Width;
use item_nodes::head::Head;
use item_nodes::rising::are_keys_rising;
use item_nodes::{Counted, Item};
use std::alloc::{AllocError, Global};
use std::io::Write;
use thiserror::Error;

/// Why not all of an item went out in deterministic encoding.
#[derive(Clone, Copy, Debug, PartialEq, Eq, Error)]
pub enum DetFault {
    /// There was no memory to lay its bytes out. Nothing went out.
    #[error("out of memory")]
    Memory,
    /// The device failed while the bytes were written to it.
    #[error("{0}")]
    Write(WriteFault),
}

/// Writes the item in deterministic encoding (RFC 8949 section 4.2.1): its preferred bytes, but the pairs of each map in the
/// bytewise order of the deterministic bytes of their keys. So two items that are the same up to the order of pairs go out
/// as the same bytes. All memory is taken before the first write.
///
/// # Errors
///
/// `Memory` where there is none to lay the bytes out, with nothing written; or `Write` where the device failed in this call,
/// and exactly the first `written` of these bytes went out.
pub fn write_det<W: Write>(
    alloc: Global,
    sound: &Sound,
    out: &mut Counted<W>,
) -> Result<(), DetFault>
    ensures all { OnOk result (Appends (W.contents (device_of out.old)) (W.contents (device_of out.new)) (deterministic sound.now)) }
    ensures count { OnOk result (failures_of out.new ≡ failures_of out.old) }
    ensures memory { result ≡ Err DetFault.Memory → out.new ≡ out.old }
    ensures short { (f : _) → result ≡ Err (DetFault.Write f) → f.written < length (deterministic sound.now) }
    ensures part { (f : _) → result ≡ Err (DetFault.Write f) → Appends (W.contents (device_of out.old)) (W.contents (device_of out.new)) (take f.written (deterministic sound.now)) }
    ensures failed { (f : _) → result ≡ Err (DetFault.Write f) → HasRisen (failures_of out.old) (failures_of out.new) }
{
    let mut bytes = Vec::new(alloc);
    if add_det(alloc, sound.item(), &mut bytes).is_err() {
        return Err(DetFault::Memory);
    }
    match write_bytes(bytes.as_slice(), out) {
        Ok(()) => Ok(()),
        Err(fault) => Err(DetFault::Write(fault)),
    }
}

// Adds the deterministic bytes of a valid item. Pairs that come in their order are added at once; others are laid out
// apart, so a byte is copied once for each map round it whose pairs do not.
#[cycle(add)]
fn add_det(alloc: Global, item: &Item, out: &mut Vec<u8>) -> Result<(), AllocError>
    requires plain { IsPlain (view item.now) }
    requires valid { IsValid (view item.now) }
    ensures { OnOk result (out.new.items ≡ out.old.items ++ deterministic (view item.now)) }
{
    match item {
        Item::Uint(n) => add_head(0, *n, out),
        Item::Nint(n) => add_head(1, *n, out),
        Item::Bytes(bytes) => add_string(2, bytes.as_slice(), out),
        Item::Text(text) => add_string(3, text.as_str().as_bytes(), out),
        Item::Array(items) => {
            add_head(4, items.len() as u64, out)?;
            add_members(alloc, items, out)
        }
        Item::Map(pairs) => {
            add_head(5, pairs.len() as u64, out)?;
            if are_keys_rising(pairs.as_slice()) {
                return add_pairs(alloc, pairs, out);
            }
            let mut bytes = Vec::new(alloc);
            let lengths = lay_out(alloc, pairs, &mut bytes)?;
            add_sorted(alloc, bytes.as_slice(), &lengths, out)
        }
        Item::Tag(number, content) => {
            add_head(6, *number, out)?;
            add_det(alloc, content, out)
        }
        Item::Simple(n) => add_simple(*n, out),
        Item::Float(width, bits) => add_float(*width, *bits, out),
    }
}

#[cycle(add)]
fn add_members(alloc: Global, items: &Vec<Item>, out: &mut Vec<u8>) -> Result<(), AllocError>
    requires plain { ArePlain (values_view items.now.items) }
    requires valid { IsValid (array (values_view items.now.items)) }
    ensures { OnOk result (out.new.items ≡ out.old.items ++ values_preferred (values_ordered (values_view items.now.items))) }
{
    for item in items {
        add_det(alloc, item, out)?;
    }
    Ok(())
}

// Adds the pairs of a map as they come.
#[cycle(add)]
fn add_pairs(alloc: Global, pairs: &Vec<(Item, Item)>, out: &mut Vec<u8>) -> Result<(), AllocError>
    requires plain { ArePairsPlain (pairs_view pairs.now.items) }
    requires valid { IsValid (pairs_value (pairs_view pairs.now.items)) }
    ensures { OnOk result (out.new.items ≡ out.old.items ++ joined (laid (pairs_view pairs.now.items))) }
{
    for (key, value) in pairs {
        add_det(alloc, key, out)?;
        add_det(alloc, value, out)?;
    }
    Ok(())
}

// Adds the pairs of a map as they come, and answers how many bytes each key and each value has.
#[cycle(add)]
#[inline(never)]
fn lay_out(
    alloc: Global,
    pairs: &Vec<(Item, Item)>,
    bytes: &mut Vec<u8>,
) -> Result<Vec<(usize, usize)>, AllocError>
    requires plain { ArePairsPlain (pairs_view pairs.now.items) }
    requires valid { IsValid (pairs_value (pairs_view pairs.now.items)) }
    ensures lengths { IfOk result (λ lengths. lengths.items ≡ lengths_of (laid (pairs_view pairs.now.items))) }
    ensures bytes { OnOk result (bytes.new.items ≡ bytes.old.items ++ joined (laid (pairs_view pairs.now.items))) }
{
    let mut lengths = Vec::with_capacity(alloc, pairs.len())?;
    for (key, value) in pairs {
        let start = bytes.len();
        add_det(alloc, key, bytes)?;
        let middle = bytes.len();
        add_det(alloc, value, bytes)?;
        lengths.push((middle - start, bytes.len() - middle))?;
    }
    Ok(lengths)
}

// Adds the pairs whose keys and values have these lengths in the bytes, sorted. No two keys have the same bytes, so the values
// decide nothing.
#[inline(never)]
fn add_sorted(
    alloc: Global,
    bytes: &[u8],
    lengths: &Vec<(usize, usize)>,
    out: &mut Vec<u8>,
) -> Result<(), AllocError>
    requires { total lengths.now.items ≤ length bytes.now }
    ensures { OnOk result ((ps : Pairs) → IsPlain (pairs_value ps) → IsValid (pairs_value ps) → cut lengths.now.items bytes.now ≡ laid ps → out.new.items ≡ out.old.items ++ pairs_preferred (pairs_ordered ps)) }
{
    let mut entries = entries_in(alloc, bytes, lengths)?;
    entries.sort_unstable();
    add_entries(&entries, out)
}

// The keys and the values of these lengths that are in the bytes, one after the other.
fn entries_in<'a>(
    alloc: Global,
    bytes: &'a [u8],
    lengths: &Vec<(usize, usize)>,
) -> Result<Vec<(&'a [u8], &'a [u8])>, AllocError>
    requires { total lengths.now.items ≤ length bytes.now }
    ensures { IfOk result (λ entries. seen_slices entries.items ≡ cut lengths.now.items bytes.now) }
{
    let mut entries = Vec::with_capacity(alloc, lengths.len())?;
    let mut rest = bytes;
    for (key, value) in lengths {
        let (key_bytes, after_key) = rest.split_at(*key);
        let (value_bytes, after) = after_key.split_at(*value);
        entries.push((key_bytes, value_bytes))?;
        rest = after;
    }
    Ok(entries)
}

// Adds pairs, each key and then its value.
fn add_entries(entries: &Vec<(&[u8], &[u8])>, out: &mut Vec<u8>) -> Result<(), AllocError>
    ensures { OnOk result (out.new.items ≡ out.old.items ++ joined (seen_slices entries.now.items)) }
{
    for (key, value) in entries {
        out.extend_from_slice(key)?;
        out.extend_from_slice(value)?;
    }
    Ok(())
}

// A head.
#[inline(never)]
fn add_head(major: u8, argument: u64, out: &mut Vec<u8>) -> Result<(), AllocError>
    requires { major < 8 }
    ensures { OnOk result (out.new.items ≡ out.old.items ++ shortest_head major argument) }
{
    out.extend_from_slice(Head::shortest(major, argument).as_slice())
}

// A simple value.
#[inline(never)]
fn add_simple(n: u8, out: &mut Vec<u8>) -> Result<(), AllocError>
    ensures { OnOk result (out.new.items ≡ out.old.items ++ simple_bytes n) }
{
    out.extend_from_slice(Head::simple(n).as_slice())
}

// A float.
#[inline(never)]
fn add_float(width: Width, bits: u64, out: &mut Vec<u8>) -> Result<(), AllocError>
    requires { FitsWidth width bits }
    ensures { OnOk result (out.new.items ≡ out.old.items ++ float_bytes width bits) }
{
    out.extend_from_slice(Head::float(width, bits).as_slice())
}

// A string: its head, and then its bytes.
#[inline(never)]
fn add_string(major: u8, bytes: &[u8], out: &mut Vec<u8>) -> Result<(), AllocError>
    requires { major < 8 }
    ensures { OnOk result (out.new.items ≡ out.old.items ++ (shortest_head major (length bytes.now) ++ bytes.now)) }
{
    add_head(major, bytes.len() as u64, out)?;
    out.extend_from_slice(bytes)
}
