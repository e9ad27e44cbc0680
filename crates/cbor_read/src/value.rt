//! The value of a whole item.
ghost use Rattle.std.specs.Prelude.{◌≤◌, IfOk, IfSome};
ghost use Rattle.item_nodes.specs.View.{view};
ghost use Rattle.cbor_read.specs.Outcomes.{IsFrontItem, IsSettled, IsSoundButKeys};

use crate::fault::Fault;
use cbor_data::FaultKind;
use cbor_item::{Item, Sound, Unsound};
use read_items::whole::whole_item;
use std::alloc::{AllocError, Global};

/// What the bytes of a whole item come to.
#[derive(Drop)]
pub enum Outcome {
    Item(Sound),
    Fault(Fault),
}

/// The item at the front of `bytes`, after how many bytes it has, in one pass. `None` says nothing, and is also the answer
/// where a key is repeated: then the item has to be built.
#[inline]
pub fn front_item(
    alloc: Global,
    depth: u32,
    bytes: &[u8],
) -> Result<Option<(usize, Sound)>, AllocError>
    requires { depth ≤ 256 }
    ensures { IfOk result (λ found. IfSome found (λ front. IsFrontItem depth bytes.now front.0 front.1)) }
{
    let Some((item, length)) = whole_item(alloc, bytes, depth)? else {
        return Ok(None);
    };
    match Sound::try_spelled(alloc, item) {
        Ok(sound) => Ok(Some((length, sound))),
        Err(Unsound::Memory) => Err(AllocError),
        Err(_) => Ok(None),
    }
}

/// The item as a sound one, if it repeats no key.
pub fn sound_of(alloc: Global, item: Item) -> Result<Outcome, AllocError>
    requires { IsSoundButKeys (view item) }
    ensures { IfOk result (IsSettled (view item)) }
{
    match Sound::try_spelled(alloc, item) {
        Ok(sound) => Ok(Outcome::Item(sound)),
        Err(Unsound::Duplicate(place)) => Ok(Outcome::Fault(Fault {
            at: place as u64,
            kind: FaultKind::DuplicateKey,
        })),
        Err(Unsound::Memory) => Err(AllocError),
        Err(Unsound::TooDeep | Unsound::BadSimple | Unsound::BadBits | Unsound::TooBig) => {
            unreachable!()
        }
    }
}
