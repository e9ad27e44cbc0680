//! What bytes hold that are to be items again.
ghost use Rattle.std.specs.Prelude.{IfOk, IfSome, IfNone, MatchOption};
ghost use Rattle.cbor_data.specs.Value.{Value, Values, values_of};
ghost use Rattle.cbor_data.specs.Embedded.{Embeds, EmbedsAll};
ghost use Rattle.cbor_read.specs.Firsts.{IsFirst};

use crate::limits::MOST_DEPTH;
use crate::value::{Outcome, front_item, sound_of};
use cbor_item::Sound;
use read_building::{Step, Work};
use std::alloc::{AllocError, Global};

/// The items of which `bytes` are spellings, one after the other (RFC 8949 section 3, RFC 8742), as those that the
/// controls `.cbor` and `.cborseq` see in a byte string (RFC 8610 section 3.8.4).
///
/// `None` where the bytes are of no such list: each item is valid, with no map that has two keys that are the same up to the
/// order of pairs in them (RFC 8949 sections 5.3.1 and 5.6), and has a depth of at most [`MOST_DEPTH`]. No bytes are the
/// empty list. There is no limit on the number of bytes. It takes memory within a constant for each byte, and a time in
/// proportion to them; but keys that are told apart by a sort take `n log n`, and a byte of a key in keys of keys counts once
/// for each map that it is a key of.
///
/// # Errors
///
/// [`AllocError`] where an allocation was refused.
pub fn embedded(alloc: Global, bytes: &[u8]) -> Result<Option<Vec<Sound>>, AllocError>
    ensures some { IfOk result (λ held. IfSome held (λ items. EmbedsAll bytes.now (values_of items.items))) }
    ensures none { IfOk result (λ held. IfNone held ((xs : Values) → EmbedsAll bytes.now xs → ⊥)) }
{
    let mut items = Vec::new(alloc);
    let mut start = 0;
    while start < bytes.len() {
        let Some((length, item)) = first_item(alloc, &bytes[start..])? else {
            return Ok(None);
        };
        items.push(item)?;
        start += length;
    }
    Ok(Some(items))
}

/// The one item of which `bytes` are a spelling, as the control `.cbor` sees it in a byte string. What [`embedded`] says of
/// its items holds for it.
///
/// `None` where the bytes are of no such item: they may be of none, of several, or of one that is not valid or too deep.
///
/// # Errors
///
/// [`AllocError`] where an allocation was refused.
pub fn embedded_item(alloc: Global, bytes: &[u8]) -> Result<Option<Sound>, AllocError>
    ensures { IfOk result (λ held. MatchOption held ((x : Value) → Embeds bytes.now x → ⊥) (λ item. Embeds bytes.now item)) }
{
    let Some((length, item)) = first_item(alloc, bytes)? else {
        return Ok(None);
    };
    if length < bytes.len() {
        return Ok(None);
    }
    Ok(Some(item))
}

// The item at the front of the bytes, and how many bytes it has.
fn first_item(alloc: Global, bytes: &[u8]) -> Result<Option<(usize, Sound)>, AllocError>
    ensures { IfOk result (λ first. IsFirst bytes.now first) }
{
    match front_item(alloc, MOST_DEPTH, bytes)? {
        Some(first) => Ok(Some(first)),
        None => built_item(alloc, bytes),
    }
}

// The same, where one pass says nothing.
fn built_item(alloc: Global, bytes: &[u8]) -> Result<Option<(usize, Sound)>, AllocError>
    ensures { IfOk result (λ first. IsFirst bytes.now first) }
{
    let mut work = Work::new(alloc);
    let Step::Item { used, item } = work.take(MOST_DEPTH, 0, bytes)? else {
        return Ok(None);
    };
    match sound_of(alloc, item)? {
        Outcome::Item(item) => Ok(Some((used, item))),
        Outcome::Fault(_) => Ok(None),
    }
}
