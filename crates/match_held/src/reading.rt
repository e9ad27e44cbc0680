//! What byte strings hold.

ghost use Rattle.std.specs.Prelude.{◌≡◌, IfOk, IfSome, map, MatchOption};
ghost use Rattle.cbor_data.specs.Value.{Value, bytes as bytes_value};
ghost use Rattle.item_nodes.specs.View.{view};
ghost use Rattle.cddl_meaning.specs.Held.{Holds};
ghost use Rattle.table_nodes.specs.Nodes.{content_view};

use cbor_item::{Item, Sound};
use cbor_read::{embedded, embedded_item};
use read_items::whole::argument_at;
use std::alloc::{AllocError, Global};
use table_nodes::Content;

// The major type of byte strings (RFC 8949 section 3.1).
const BYTES: u8 = 2;

// The same items.
fn plain_items(alloc: Global, items: Vec<Sound>) -> Result<Vec<Item>, AllocError>
    ensures { IfOk result (λ plain. map view plain.items ≡ items.items) }
{
    let mut plain = Vec::new(alloc);
    for item in items {
        plain.push(item.into_item())?;
    }
    Ok(plain)
}

/// What a byte string of these bytes holds, if it holds something: one item, or the array of the items of a sequence (RFC 8610
/// section 3.8.4). No limit on bytes or on depth applies to it.
///
/// # Errors
///
/// `AllocError` where memory was refused.
pub fn held_in(alloc: Global, content: Content, bytes: &[u8]) -> Result<Option<Item>, AllocError>
    ensures { IfOk result (λ held. MatchOption held ((y : Value) → Holds (content_view content) bytes.now y → ⊥) (λ item. Holds (content_view content) bytes.now (view item))) }
{
    match content {
        Content::OneItem => {
            let Some(item) = embedded_item(alloc, bytes)? else {
                return Ok(None);
            };
            Ok(Some(item.into_item()))
        }
        Content::Sequence => {
            let Some(items) = embedded(alloc, bytes)? else {
                return Ok(None);
            };
            Ok(Some(Item::Array(plain_items(alloc, items)?)))
        }
    }
}

// The bytes of the byte string that is all that a byte string of these bytes holds, if its length stands in its head. They
// are there already, and take no memory.
pub(crate) fn string_in(content: Content, bytes: &[u8]) -> Option<&[u8]>
    ensures { IfSome result (λ string. Holds (content_view content) bytes.now (bytes_value string.now)) }
{
    let Content::OneItem = content else {
        return None;
    };
    if bytes.is_empty() || bytes[0] / 32 != BYTES {
        return None;
    }
    let (length, start) = argument_at(bytes, 0);
    if start == 0 || length != (bytes.len() - start) as u64 {
        return None;
    }
    Some(&bytes[start..])
}
