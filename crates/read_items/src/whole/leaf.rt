//! Items with no items in them (RFC 8949 sections 3.1 and 3.3).
ghost use Rattle.std.specs.Prelude.{◌≡◌, ◌↔◌, ◌+◌, ◌<◌, ◌≤◌, length, IsTrue, IfOk, IfSome};
ghost use Rattle.item_nodes.specs.View.{view};
ghost use Rattle.read_items.specs.Whole.Parts.{IsBytesAt, IsTextAt, IsInfo, IsSimpleOrFloat};

use item_nodes::{Item, Width};
use std::alloc::{AllocError, Global};

/// Whether so many bytes are there from `start` on.
#[inline]
pub fn are_there(bytes: &[u8], start: usize, len: u64) -> bool
    requires { start ≤ length bytes.now }
    ensures { IsTrue result ↔ (start + len ≤ length bytes.now) }
{
    len <= (bytes.len() - start) as u64
}

/// The byte string whose content is so many bytes from `start` on, and where it ends.
pub fn byte_string(
    alloc: Global,
    bytes: &[u8],
    start: usize,
    len: u64,
) -> Result<Option<(Item, usize)>, AllocError>
    requires { start ≤ length bytes.now }
    ensures { IfOk result (λ found. IfSome found (λ r. IsBytesAt bytes.now start len (view r.0) r.1)) }
{
    if !are_there(bytes, start, len) {
        return Ok(None);
    }
    let end = start + len as usize;
    let content = Vec::from_slice(alloc, &bytes[start..end])?;
    Ok(Some((Item::Bytes(content), end)))
}

/// The text string whose content is so many bytes from `start` on, and where it ends. `None` also where it is no text.
pub fn text_string(
    alloc: Global,
    bytes: &[u8],
    start: usize,
    len: u64,
) -> Result<Option<(Item, usize)>, AllocError>
    requires { start ≤ length bytes.now }
    ensures { IfOk result (λ found. IfSome found (λ r. IsTextAt bytes.now start len (view r.0) r.1)) }
{
    if !are_there(bytes, start, len) {
        return Ok(None);
    }
    let end = start + len as usize;
    match simdutf8::compat::from_utf8(&bytes[start..end]) {
        Ok(text) => Ok(Some((Item::Text(String::from_str(alloc, text)?), end))),
        Err(_) => Ok(None),
    }
}

/// The simple value or the float of a head of major type 7, from its additional information and its argument. `None` for
/// a simple value that has to be written without an argument of its own.
#[inline]
pub fn simple_or_float(info: u8, argument: u64) -> Option<Item>
    requires { IsInfo info argument }
    ensures { IfSome result (λ x. IsSimpleOrFloat info argument (view x)) }
{
    match info {
        25 => Some(Item::Float(Width::W16, argument)),
        26 => Some(Item::Float(Width::W32, argument)),
        27 => Some(Item::Float(Width::W64, argument)),
        24 if argument < 32 => None,
        _ => Some(Item::Simple(argument as u8)),
    }
}
