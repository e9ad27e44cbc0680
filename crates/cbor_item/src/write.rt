//! Writes items to a device, without taking memory.

ghost use Rattle.std.specs.Prelude.{◌≡◌, ◌+◌, ◌<◌, ◌^◌, ◌++◌, length, take, OnOk, OnErr, IfErr};
ghost use Rattle.std.specs.Io.KnownBytes.{Appends};
ghost use Rattle.cbor_data.specs.Preferred.{preferred, shortest_head, simple_bytes, float_bytes};
ghost use Rattle.cbor_data.specs.Value.{array, pairs as pairs_value, AreBitsFitting, FitsWidth};
ghost use Rattle.item_nodes.specs.Counted.{device_of, failures_of, HasRisen};
ghost use Rattle.cbor_item.specs.Gone.{Goes, state_of};
ghost use Rattle.item_nodes.specs.View.{view, values_view, pairs_view};

use crate::sound::Sound;
use cbor_data::Width;
use item_nodes::head::Head;
use item_nodes::{Counted, Item};
use std::io::Write;
use thiserror::Error;

/// The device failed while bytes were written to it: a write answered an error, or took 0 bytes.
#[derive(Clone, Copy, Debug, PartialEq, Eq, Error)]
#[error("the device failed after {written} bytes")]
pub struct WriteFault {
    /// How many of the call's bytes went out. They are the first ones.
    pub written: u128,
}

/// Writes all the bytes, in as many writes as the device wants.
///
/// # Errors
///
/// Only where the device failed in this call. Exactly the first `written` of the bytes went out then.
pub fn write_bytes<W: Write>(bytes: &[u8], out: &mut Counted<W>) -> Result<(), WriteFault>
    ensures all { OnOk result (Appends (W.contents (device_of out.old)) (W.contents (device_of out.new)) bytes.now) }
    ensures count { OnOk result (failures_of out.new ≡ failures_of out.old) }
    ensures short { IfErr result (λ f. f.written < length bytes.now) }
    ensures part { IfErr result (λ f. Appends (W.contents (device_of out.old)) (W.contents (device_of out.new)) (take f.written bytes.now)) }
    ensures failed { OnErr result (HasRisen (failures_of out.old) (failures_of out.new)) }
{
    let mut at = 0;
    while at < bytes.len() {
        match out.write(&bytes[at..]) {
            Ok(taken) if taken > 0 => at += taken,
            _ => {
                return Err(WriteFault {
                    written: at as u128,
                });
            }
        }
    }
    Ok(())
}

/// Writes the item's preferred bytes (RFC 8949 section 4.1): shortest heads and definite lengths.
///
/// # Errors
///
/// Only where the device failed in this call. Exactly the first `written` of these bytes went out then.
pub fn write_item<W: Write>(sound: &Sound, out: &mut Counted<W>) -> Result<(), WriteFault>
    ensures all { OnOk result (Appends (W.contents (device_of out.old)) (W.contents (device_of out.new)) (preferred sound.now)) }
    ensures count { OnOk result (failures_of out.new ≡ failures_of out.old) }
    ensures short { IfErr result (λ f. f.written < length (preferred sound.now)) }
    ensures part { IfErr result (λ f. Appends (W.contents (device_of out.old)) (W.contents (device_of out.new)) (take f.written (preferred sound.now))) }
    ensures failed { OnErr result (HasRisen (failures_of out.old) (failures_of out.new)) }
{
    write_value(sound.item(), 0, out)?;
    Ok(())
}

// Writes the preferred bytes of an item, where `before` bytes of the call went out already. Answers how many did then.
#[cycle(write)]
pub fn write_value<W: Write>(
    item: &Item,
    before: u128,
    out: &mut Counted<W>,
) -> Result<u128, WriteFault>
    requires fitting { AreBitsFitting (view item.now) }
    requires room { before + length (preferred (view item.now)) < 2 ^ 128 }
    ensures { Goes (state_of W.contents out.old) (state_of W.contents out.new) before (preferred (view item.now)) result }
{
    match item {
        Item::Uint(n) => write_shortest(0, *n, before, out),
        Item::Nint(n) => write_shortest(1, *n, before, out),
        Item::Bytes(bytes) => write_string(2, bytes.as_slice(), before, out),
        Item::Text(text) => write_string(3, text.as_str().as_bytes(), before, out),
        Item::Array(items) => write_members(items, before, out),
        Item::Map(pairs) => write_pairs(pairs, before, out),
        Item::Tag(number, content) => {
            let after = write_shortest(6, *number, before, out)?;
            write_value(content, after, out)
        }
        Item::Simple(n) => write_simple(*n, before, out),
        Item::Float(width, bits) => write_float(*width, *bits, before, out),
    }
}

// The shortest head of a major type with an argument.
#[inline(never)]
fn write_shortest<W: Write>(
    major: u8,
    argument: u64,
    before: u128,
    out: &mut Counted<W>,
) -> Result<u128, WriteFault>
    requires major { major < 8 }
    requires room { before + length (shortest_head major argument) < 2 ^ 128 }
    ensures { Goes (state_of W.contents out.old) (state_of W.contents out.new) before (shortest_head major argument) result }
{
    write_head(&Head::shortest(major, argument), before, out)
}

#[inline(never)]
fn write_simple<W: Write>(n: u8, before: u128, out: &mut Counted<W>) -> Result<u128, WriteFault>
    requires { before + length (simple_bytes n) < 2 ^ 128 }
    ensures { Goes (state_of W.contents out.old) (state_of W.contents out.new) before (simple_bytes n) result }
{
    write_head(&Head::simple(n), before, out)
}

#[inline(never)]
fn write_float<W: Write>(
    width: Width,
    bits: u64,
    before: u128,
    out: &mut Counted<W>,
) -> Result<u128, WriteFault>
    requires fits { FitsWidth width bits }
    requires room { before + length (float_bytes width bits) < 2 ^ 128 }
    ensures { Goes (state_of W.contents out.old) (state_of W.contents out.new) before (float_bytes width bits) result }
{
    write_head(&Head::float(width, bits), before, out)
}

fn write_head<W: Write>(head: &Head, before: u128, out: &mut Counted<W>) -> Result<u128, WriteFault>
    requires { before + length head.now < 2 ^ 128 }
    ensures { Goes (state_of W.contents out.old) (state_of W.contents out.new) before head.now result }
{
    write_part(head.as_slice(), before, out)
}

fn write_part<W: Write>(
    bytes: &[u8],
    before: u128,
    out: &mut Counted<W>,
) -> Result<u128, WriteFault>
    requires { before + length bytes.now < 2 ^ 128 }
    ensures { Goes (state_of W.contents out.old) (state_of W.contents out.new) before bytes.now result }
{
    match write_bytes(bytes, out) {
        Ok(()) => Ok(before + bytes.len() as u128),
        Err(fault) => Err(WriteFault {
            written: before + fault.written,
        }),
    }
}

// A string: its head, and then its bytes.
#[inline(never)]
fn write_string<W: Write>(
    major: u8,
    bytes: &[u8],
    before: u128,
    out: &mut Counted<W>,
) -> Result<u128, WriteFault>
    requires major { major < 8 }
    requires room { before + length (shortest_head major (length bytes.now) ++ bytes.now) < 2 ^ 128 }
    ensures { Goes (state_of W.contents out.old) (state_of W.contents out.new) before (shortest_head major (length bytes.now) ++ bytes.now) result }
{
    let after = write_shortest(major, bytes.len() as u64, before, out)?;
    write_part(bytes, after, out)
}

#[cycle(write)]
fn write_members<W: Write>(
    items: &Vec<Item>,
    before: u128,
    out: &mut Counted<W>,
) -> Result<u128, WriteFault>
    requires fitting { AreBitsFitting (array (values_view items.now.items)) }
    requires room { before + length (preferred (array (values_view items.now.items))) < 2 ^ 128 }
    ensures { Goes (state_of W.contents out.old) (state_of W.contents out.new) before (preferred (array (values_view items.now.items))) result }
{
    let mut after = write_shortest(4, items.len() as u64, before, out)?;
    for item in items {
        after = write_value(item, after, out)?;
    }
    Ok(after)
}

#[cycle(write)]
fn write_pairs<W: Write>(
    pairs: &Vec<(Item, Item)>,
    before: u128,
    out: &mut Counted<W>,
) -> Result<u128, WriteFault>
    requires fitting { AreBitsFitting (pairs_value (pairs_view pairs.now.items)) }
    requires room { before + length (preferred (pairs_value (pairs_view pairs.now.items))) < 2 ^ 128 }
    ensures { Goes (state_of W.contents out.old) (state_of W.contents out.new) before (preferred (pairs_value (pairs_view pairs.now.items))) result }
{
    let mut after = write_shortest(5, pairs.len() as u64, before, out)?;
    for (key, value) in pairs {
        after = write_value(key, after, out)?;
        after = write_value(value, after, out)?;
    }
    Ok(after)
}
