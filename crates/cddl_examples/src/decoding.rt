//! Decodes an item from bytes.

ghost use Rattle.std.specs.Prelude.{◌≡◌, IfErr, IfOk};
ghost use Rattle.cbor_data.specs.Faults.{IsItem};
ghost use Rattle.cddl_examples.specs.Decoding.{IsUndecoded};
ghost use Rattle.cddl_examples.specs.declared.decoding.Undecoded.TheVariants as Why;

use cddl::{Fault, Front, Limits, Sound, read_front};
use std::alloc::{AllocError, Global};
use thiserror::Error;

/// Why bytes are not one item.
#[derive(Clone, Copy, Debug, PartialEq, Eq, Error)]
pub enum Undecoded {
    /// There are none.
    #[error("no bytes")]
    Empty,
    /// No item is at their front: the fault, and where it shows.
    #[error("no item: {0:?}")]
    Fault(Fault),
    /// An item is at their front, and they go on after so many.
    #[error("more bytes after {0}")]
    Longer(usize),
    /// An allocation was refused.
    #[error("out of memory")]
    Memory,
}

impl From<AllocError> for Undecoded {
    ghost from_gives = { λ _ e. e ≡ Why.Memory };

    fn from(_e: AllocError) -> Undecoded {
        Undecoded::Memory
    }
}

/// The item whose spelling the bytes are (RFC 8949), valid and within the limits; or why they are that of none.
pub fn decode(alloc: Global, limits: Limits, bytes: &[u8]) -> Result<Sound, Undecoded>
    ensures item { IfOk result (λ item. IsItem limits 0 item bytes.now) }
    ensures why { IfErr result (IsUndecoded limits bytes.now) }
{
    match read_front(alloc, limits, 0, bytes)? {
        Front::Item { length, item } if length == bytes.len() => Ok(item),
        Front::Item { length, .. } => Err(Undecoded::Longer(length)),
        Front::Fault(fault) => Err(Undecoded::Fault(fault)),
        Front::Nothing => Err(Undecoded::Empty),
    }
}
