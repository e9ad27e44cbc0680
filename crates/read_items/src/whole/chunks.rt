//! Strings in chunks up to a break (RFC 8949 section 3.2.3).
ghost use Rattle.std.specs.Prelude.{◌<◌, ◌≤◌, length, IfOk, IfSome};
ghost use Rattle.cbor_data.specs.Value.{bytes as bytes_value, text as text_value};
ghost use Rattle.item_nodes.specs.View.{view};
ghost use Rattle.read_items.specs.Whole.Parts.{IsChunkAt, AreJoinedAt, IsJoinedAt};

use crate::whole::argument::argument_at;
use crate::whole::leaf::are_there;
use crate::whole::list::is_break;
use item_nodes::Item;
use simdutf8::is_utf8;
use std::alloc::{AllocError, Global};

// The major types of strings.
const BYTES: u8 = 2;

const TEXT: u8 = 3;

/// The byte string whose chunks are from `start` on, and where it ends.
pub fn byte_chunks(
    alloc: Global,
    bytes: &[u8],
    start: usize,
) -> Result<Option<(Item, usize)>, AllocError>
    requires { start ≤ length bytes.now }
    ensures { IfOk result (λ found. IfSome found (λ r. IsJoinedAt 2 bytes_value bytes.now start (view r.0) r.1)) }
{
    let Some((joined, end)) = joined_chunks(alloc, bytes, start, BYTES)? else {
        return Ok(None);
    };
    Ok(Some((Item::Bytes(joined), end)))
}

/// The text string whose chunks are from `start` on, and where it ends. `None` also where a chunk is no text by itself.
pub fn text_chunks(
    alloc: Global,
    bytes: &[u8],
    start: usize,
) -> Result<Option<(Item, usize)>, AllocError>
    requires { start ≤ length bytes.now }
    ensures { IfOk result (λ found. IfSome found (λ r. IsJoinedAt 3 text_value bytes.now start (view r.0) r.1)) }
{
    let Some((joined, end)) = joined_chunks(alloc, bytes, start, TEXT)? else {
        return Ok(None);
    };
    match String::from_utf8(joined) {
        Ok(text) => Ok(Some((Item::Text(text), end))),
        Err(_) => Ok(None),
    }
}

// What the chunks of this major type hold from `start` on, up to a break, and where that ends.
fn joined_chunks(
    alloc: Global,
    bytes: &[u8],
    start: usize,
    major: u8,
) -> Result<Option<(Vec<u8>, usize)>, AllocError>
    requires { start ≤ length bytes.now }
    ensures { IfOk result (λ found. IfSome found (λ r. AreJoinedAt major bytes.now start r.0.items r.1)) }
{
    let mut joined = Vec::new(alloc);
    let mut at = start;
    while !is_break(bytes, at) {
        let Some((chunk, end)) = chunk_at(bytes, at, major) else {
            return Ok(None);
        };
        joined.extend_from_slice(chunk)?;
        at = end;
    }
    Ok(Some((joined, at + 1)))
}

/// What the chunk of this major type at `at` holds, and where it ends. `None` also for a text that is not UTF-8.
pub fn chunk_at(bytes: &[u8], at: usize, major: u8) -> Option<(&[u8], usize)>
    ensures { IfSome result (λ r. IsChunkAt major bytes.now at r.0.now r.1) }
{
    if at >= bytes.len() || bytes[at] / 32 != major {
        return None;
    }
    let (len, start) = argument_at(bytes, at);
    if start == 0 || !are_there(bytes, start, len) {
        return None;
    }
    let end = start + len as usize;
    let content = &bytes[start..end];
    if major == TEXT && !is_utf8(content) {
        return None;
    }
    Some((content, end))
}
