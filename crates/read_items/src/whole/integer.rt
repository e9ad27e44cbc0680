//! Integers as members of arrays, with no answer for each that has room for an item (RFC 8949 section 3.1).
ghost use Rattle.std.specs.Prelude.{◌≡◌, ◌/◌, ◌<◌, ℕ, length, slice_index, IfOk, IfSome};
ghost use Rattle.cbor_data.specs.Value.{uint, nint};
ghost use Rattle.item_nodes.specs.View.{view};
ghost use Rattle.read_items.specs.Whole.Parts.{IsMemberAt};

use crate::whole::argument::argument_at;
use crate::whole::list::push_part;
use item_nodes::Item;
use std::alloc::AllocError;

/// The initial bytes of integers are below this.
pub const INTEGERS_BELOW: u8 = 0x40;

/// Adds the integer at `at` to the other members of an array, and answers where it ends.
#[inline(always)]
pub fn push_integer(
    bytes: &[u8],
    at: usize,
    count: Option<u64>,
    items: &mut Vec<Item>,
) -> Result<Option<usize>, AllocError>
    requires within { at < length bytes.now }
    requires integer { slice_index bytes.now at < 64 }
    ensures { IfOk result (λ found. IfSome found (λ end. (depth : ℕ) → IsMemberAt depth bytes.now at items.old.items items.new.items end)) }
{
    let (number, end) = argument_at(bytes, at);
    if end == 0 {
        return Ok(None);
    }
    push_part(items, integer_of(bytes[at], number), count)?;
    Ok(Some(end))
}

/// The integer of this initial byte and this argument.
#[inline(always)]
pub fn integer_of(byte: u8, number: u64) -> Item
    requires { byte < 64 }
    ensures unsigned { byte / 32 ≡ 0 → view result ≡ uint number }
    ensures negative { byte / 32 ≡ 1 → view result ≡ nint number }
{
    if byte < 0x20 {
        Item::Uint(number)
    } else {
        Item::Nint(number)
    }
}
