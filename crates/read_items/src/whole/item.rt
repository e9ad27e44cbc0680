//! Items of every kind.
ghost use Rattle.std.specs.Prelude.{◌<◌, ◌≤◌, length, IfOk, IfSome};
ghost use Rattle.item_nodes.specs.View.{view};
ghost use Rattle.read_items.specs.Whole.Parts.{IsItemAt, IsArrayAt, IsMapAt, IsMemberAt, IsTagAt};
ghost use Rattle.read_items.specs.Whole.Whole.{IsWholeItem};

use crate::whole::argument::argument_at;
use crate::whole::chunks::{byte_chunks, text_chunks};
use crate::whole::integer::{INTEGERS_BELOW, push_integer};
use crate::whole::leaf::{byte_string, simple_or_float, text_string};
use crate::whole::list::{end_len, is_end, may_be_there, push_part, trimmed};
use item_nodes::Item;
use std::alloc::{AllocError, Global};

// An item with more containers round a place of it is left to a reader that keeps what is open in a list: each call of this one
// takes a level of the program's stack, of 1.2 KiB where maps are keys of maps.
const DEEPEST: u32 = 32;

/// The item at the front of `bytes`, and how many bytes it has (RFC 8949 section 3). It has at most `depth` containers
/// round or at some place; whether it repeats a key is not asked.
///
/// `None` says nothing: no item may be there, or none that is all there, or one with a text that is not UTF-8, or too
/// deep, or more than 32 containers deep. Bytes are looked at once, calls are 32 deep at most, and a declared length takes
/// memory for 32 members at most before they are read. In the end a list has room for twice its members at most.
///
/// # Errors
///
/// [`AllocError`] where an allocation was refused.
pub fn whole_item(
    alloc: Global,
    bytes: &[u8],
    depth: u32,
) -> Result<Option<(Item, usize)>, AllocError>
    ensures { IfOk result (λ found. IfSome found (λ r. IsWholeItem depth bytes.now (view r.0) r.1)) }
{
    item_at(alloc, bytes, 0, depth.min(DEEPEST))
}

// The item at `at`, and where it ends.
#[cycle(whole)]
fn item_at(
    alloc: Global,
    bytes: &[u8],
    at: usize,
    depth: u32,
) -> Result<Option<(Item, usize)>, AllocError>
    ensures { IfOk result (λ found. IfSome found (λ r. IsItemAt depth bytes.now at (view r.0) r.1)) }
{
    if at >= bytes.len() {
        return Ok(None);
    }
    let (argument, start) = argument_at(bytes, at);
    if start == 0 {
        return item_to_break(alloc, bytes, at, depth);
    }
    match bytes[at] / 32 {
        0 => Ok(Some((Item::Uint(argument), start))),
        1 => Ok(Some((Item::Nint(argument), start))),
        2 => byte_string(alloc, bytes, start, argument),
        3 => text_string(alloc, bytes, start, argument),
        4 => array(alloc, bytes, start, depth, Some(argument)),
        5 => map(alloc, bytes, start, depth, Some(argument)),
        6 => tag(alloc, bytes, start, depth, argument),
        _ => match simple_or_float(bytes[at] % 32, argument) {
            Some(item) => Ok(Some((item, start))),
            None => Ok(None),
        },
    }
}

// The item at `at` whose parts go up to a break, and where it ends.
#[cycle(whole)]
fn item_to_break(
    alloc: Global,
    bytes: &[u8],
    at: usize,
    depth: u32,
) -> Result<Option<(Item, usize)>, AllocError>
    requires { at < length bytes.now }
    ensures { IfOk result (λ found. IfSome found (λ r. IsItemAt depth bytes.now at (view r.0) r.1)) }
{
    match bytes[at] {
        0x5f => byte_chunks(alloc, bytes, at + 1),
        0x7f => text_chunks(alloc, bytes, at + 1),
        0x9f => array(alloc, bytes, at + 1, depth, None),
        0xbf => map(alloc, bytes, at + 1, depth, None),
        _ => Ok(None),
    }
}

// The array of so many members from `start` on, or of those up to a break, and where it ends.
#[cycle(whole)]
#[inline(always)]
fn array(
    alloc: Global,
    bytes: &[u8],
    start: usize,
    depth: u32,
    count: Option<u64>,
) -> Result<Option<(Item, usize)>, AllocError>
    requires { start ≤ length bytes.now }
    ensures { IfOk result (λ found. IfSome found (λ r. IsArrayAt depth count bytes.now start (view r.0) r.1)) }
{
    if depth == 0 || !may_be_there(bytes, start, count) {
        return Ok(None);
    }
    let mut items = Vec::new(alloc);
    let mut at = start;
    while !is_end(bytes, at, count, items.len()) {
        let Some(end) = push_member(alloc, bytes, at, depth - 1, count, &mut items)? else {
            return Ok(None);
        };
        at = end;
    }
    let items = trimmed(items);
    Ok(Some((Item::Array(items), at + end_len(count))))
}

// Adds the member at `at` to the others of an array, and answers where it ends.
#[cycle(whole)]
#[inline(always)]
fn push_member(
    alloc: Global,
    bytes: &[u8],
    at: usize,
    depth: u32,
    count: Option<u64>,
    items: &mut Vec<Item>,
) -> Result<Option<usize>, AllocError>
    ensures { IfOk result (λ found. IfSome found (λ end. IsMemberAt depth bytes.now at items.old.items items.new.items end)) }
{
    if at < bytes.len() && bytes[at] < INTEGERS_BELOW {
        return push_integer(bytes, at, count, items);
    }
    let Some((item, end)) = item_at(alloc, bytes, at, depth)? else {
        return Ok(None);
    };
    push_part(items, item, count)?;
    Ok(Some(end))
}

// The map of so many pairs from `start` on, or of those up to a break, and where it ends.
#[cycle(whole)]
#[inline(always)]
fn map(
    alloc: Global,
    bytes: &[u8],
    start: usize,
    depth: u32,
    count: Option<u64>,
) -> Result<Option<(Item, usize)>, AllocError>
    requires { start ≤ length bytes.now }
    ensures { IfOk result (λ found. IfSome found (λ r. IsMapAt depth count bytes.now start (view r.0) r.1)) }
{
    if depth == 0 || !may_be_there(bytes, start, count) {
        return Ok(None);
    }
    let mut pairs = Vec::new(alloc);
    let mut at = start;
    while !is_end(bytes, at, count, pairs.len()) {
        let Some((key, after_key)) = item_at(alloc, bytes, at, depth - 1)? else {
            return Ok(None);
        };
        let Some((value, end)) = item_at(alloc, bytes, after_key, depth - 1)? else {
            return Ok(None);
        };
        push_part(&mut pairs, (key, value), count)?;
        at = end;
    }
    let pairs = trimmed(pairs);
    Ok(Some((Item::Map(pairs), at + end_len(count))))
}

// The tag of this number whose content is at `start`, and where it ends.
#[cycle(whole)]
fn tag(
    alloc: Global,
    bytes: &[u8],
    start: usize,
    depth: u32,
    number: u64,
) -> Result<Option<(Item, usize)>, AllocError>
    ensures { IfOk result (λ found. IfSome found (λ r. IsTagAt depth number bytes.now start (view r.0) r.1)) }
{
    if depth == 0 {
        return Ok(None);
    }
    let Some((content, end)) = item_at(alloc, bytes, start, depth - 1)? else {
        return Ok(None);
    };
    Ok(Some((Item::Tag(number, Box::new(alloc, content)?), end)))
}
