//! The plain reader over a whole list of bytes.
ghost use Rattle.std.specs.Prelude.{IfOk};
ghost use Rattle.cbor_read.specs.Fronts.{IsFront};

use crate::fault::Fault;
use crate::follow::{Advance, fault_at_end, follow};
use crate::limits::Limits;
use crate::value::{Outcome, sound_of};
use cbor_item::Sound;
use history::History;
use read_building::Work;
use std::alloc::{AllocError, Global};

/// What is at the front of the rest of a stream.
#[derive(Drop)]
pub enum Front {
    /// The rest is empty.
    Nothing,
    /// An item of so many bytes.
    Item { length: usize, item: Sound },
    /// The fault of the rest.
    Fault(Fault),
}

/// What is at the front of `bytes`, which are all that is left of a stream from this offset on: the plain way, for
/// comparison with [`ItemReader::feed`](crate::ItemReader::feed).
///
/// # Errors
///
/// [`AllocError`] where an allocation was refused.
pub fn read_front(
    alloc: Global,
    limits: Limits,
    offset: u64,
    bytes: &[u8],
) -> Result<Front, AllocError>
    ensures { IfOk result (λ front. IsFront limits offset bytes.now front) }
{
    if bytes.is_empty() {
        return Ok(Front::Nothing);
    }
    let mut work = Work::new(alloc);
    match follow(limits, offset, &History::new(), 0, &mut work, bytes)? {
        Advance::Open => Ok(Front::Fault(fault_at_end(limits, offset, bytes.len() as u64))),
        Advance::Whole { used, item } => match sound_of(alloc, item)? {
            Outcome::Item(item) => Ok(Front::Item { length: used, item }),
            Outcome::Fault(fault) => Ok(Front::Fault(fault)),
        },
        Advance::Fault { fault, .. } => Ok(Front::Fault(fault)),
    }
}
