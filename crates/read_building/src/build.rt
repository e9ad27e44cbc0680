//! Builds items.
ghost use Rattle.std.specs.Prelude.{◌≡◌, ◌+◌, ◌<◌, ◌≤◌, ◌^◌, [], length, IfOk};
ghost use Rattle.read_building.specs.Building.{item};
ghost use Rattle.read_building.specs.Progress.{IsProgress, IsLive, state_in};
ghost use Rattle.read_building.specs.Stages.{stack_of, state_of};
ghost use Rattle.read_building.specs.Turns.{IsHeld};

use crate::builder::Builder;
use crate::frame::Frame;
use crate::noted::form_after;
use crate::stage::{Next, Stage};
use crate::turn::{Turn, next_turn};
use cbor_data::FaultKind;
use item_nodes::Item;
use read_items::form::FormReader;
use std::alloc::{AllocError, Global};

/// What a piece leads to. `used` counts bytes of the piece.
#[derive(Drop)]
pub enum Progress {
    /// The whole piece was used, and the item goes on.
    More,
    /// The item ended with byte `used` of the piece. What is after it is for the next call.
    Whole {
        used: usize,
        item: Item,
    },
    /// With byte `used` a text chunk ended that is not UTF-8, whose head is at this offset. The form goes on so, if the
    /// item does not end there.
    BadText {
        used: usize,
        place: u64,
        form: Option<FormReader>,
    },
    /// The byte after so many cannot be there.
    Refused {
        used: usize,
        kind: FaultKind,
    },
    /// The byte after so many opens a container inside as many as may be open.
    TooDeep {
        used: usize,
    },
}

impl Builder {
    /// A builder that awaits an item. Takes no memory.
    pub fn new(alloc: Global) -> Builder
        ensures { state_in result ≡ item [] }
    {
        Builder {
            alloc,
            stage: Stage::Item,
            frames: Vec::new(alloc),
            held: Vec::new(alloc),
        }
    }

    /// Takes the next piece, whose first byte is at this offset, up to the end of the item, to a text chunk that is not
    /// UTF-8, or to a byte that cannot be where it is, with at most `depth` containers open at a time. After a whole item
    /// the next one is awaited; a byte that was refused leaves the builder before that byte.
    ///
    /// # Errors
    ///
    /// [`AllocError`] where an allocation was refused. Of what the builder then awaits nothing is known.
    pub fn build(&mut self, depth: u32, at: u64, piece: &[u8]) -> Result<Progress, AllocError>
        requires { at + length piece.now ≤ 2 ^ 64 }
        ensures live { IsLive (state_in self.old) }
        ensures next { IsLive (state_in self.new) }
        ensures answer { IfOk result (λ progress. IsProgress depth at (state_in self.old) piece.now progress (state_in self.new)) }
    {
        build_on(
            self.alloc,
            &mut self.stage,
            &mut self.frames,
            &mut self.held,
            depth,
            at,
            piece,
        )
    }
}

#[inline(always)]
fn build_on(
    alloc: Global,
    stage: &mut Stage,
    frames: &mut Vec<Frame>,
    held: &mut Vec<u8>,
    depth: u32,
    at: u64,
    piece: &[u8],
) -> Result<Progress, AllocError>
    requires placed { at + length piece.now ≤ 2 ^ 64 }
    requires held { IsHeld stage.old held.old.items }
    ensures held { IsHeld stage.new held.new.items }
    ensures answer { IfOk result (λ progress. IsProgress depth at (state_of stage.old held.old.items (stack_of frames.old.items)) piece.now progress (state_of stage.new held.new.items (stack_of frames.new.items))) }
{
    let before = *stage;
    *stage = Stage::Item;
    let mut here = before;
    let mut used = 0;
    let mut is_in_vain = false;
    while used < piece.len() {
        match next_turn(
            alloc,
            here,
            frames,
            held,
            at + used as u64,
            depth,
            &mut is_in_vain,
            &piece[used..],
        )? {
            Turn::On(count, next) => {
                used += count;
                match next {
                    Next::Await(stage) => here = stage,
                    Next::Whole(item) => {
                        frames.clear();
                        return Ok(Progress::Whole { used, item });
                    }
                }
            }
            Turn::BadText(count, place, in_chunks) => {
                used += count;
                let form = form_after(alloc, frames, in_chunks)?;
                frames.clear();
                return Ok(Progress::BadText { used, place, form });
            }
            Turn::Refused(kind) => {
                *stage = here;
                return Ok(Progress::Refused { used, kind });
            }
            Turn::TooDeep => {
                *stage = here;
                return Ok(Progress::TooDeep { used });
            }
        }
    }
    *stage = here;
    Ok(Progress::More)
}
