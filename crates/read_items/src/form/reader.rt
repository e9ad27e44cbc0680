//! Reads the form of items.
ghost use Rattle.std.specs.Prelude.{◌≡◌, ◌≢◌, List, [], ◌∷◌, IfOk, OnOk};
ghost use Rattle.cbor_data.specs.Machine.Machine as machine;
ghost use Rattle.cbor_data.specs.Machine.Machine.{item, done};
ghost use Rattle.read_items.specs.Form.Progress.{IsProgress};
ghost use Rattle.read_items.specs.Form.Stages.{frame_of, stack_of, state_of, IsAwaiting, IsGiven};

use crate::form::frame::{Frame, end_item};
use crate::form::stage::Stage;
use crate::form::turn::{Turn, next_turn};
use cbor_data::FaultKind;
use std::alloc::{AllocError, Global};
use std::marker::Model;

/// What a piece leads to. `used` counts bytes of the piece.
#[derive(Clone, Copy, Debug, PartialEq, Eq)]
pub enum Progress {
    /// The whole piece was used, and the item goes on.
    More,
    /// The item ended with byte `used` of the piece. What is after it is for the next call.
    Whole { used: usize },
    /// The byte after so many cannot be there.
    Refused { used: usize, kind: FaultKind },
    /// The byte after so many opens a container inside as many as may be open.
    TooDeep { used: usize },
}

/// Reads the form of one item after the other (RFC 8949 section 3), from pieces of any size.
///
/// Contracts see it as the state of the machine of `cbor_data::machine`. It keeps a frame for each container that is open, and
/// none of the bytes.
#[derive(Drop)]
pub struct FormReader {
    stage: Stage,
    frames: Vec<Frame>,
}

impl Model for FormReader {
    ghost use Rattle.cbor_data.specs.Machine.Machine.{State};
    ghost use Rattle.read_items.specs.Form.Stages.{stack_of, state_of, IsAwaiting};

    ghost Value = { State };

    ghost view = { λ r. state_of r.stage (stack_of r.frames.items) };

    ghost invariant = { λ r. IsAwaiting r.stage };
}

impl FormReader {
    /// A reader that awaits an item. Takes no memory.
    pub fn new(alloc: Global) -> FormReader
        ensures { result ≡ item [] }
    {
        FormReader {
            stage: Stage::Item,
            frames: Vec::new(alloc),
        }
    }

    /// Opens a container round the awaited item.
    ///
    /// # Errors
    ///
    /// [`AllocError`] where an allocation was refused.
    pub fn open(&mut self, frame: Frame) -> Result<(), AllocError>
        ensures live { self.old ≢ done }
        ensures next { self.new ≢ done }
        ensures opened { OnOk result ((around : List machine.Frame) → self.old ≡ item around → self.new ≡ item (frame_of frame ∷ around)) }
    {
        self.frames.push(frame)?;
        self.stage = Stage::Item;
        Ok(())
    }

    /// The awaited item is whole. Answers whether it was the last one.
    pub fn end_item(&mut self) -> bool
        ensures live { self.old ≢ done }
        ensures next { self.new ≢ done }
        ensures given { (around : List machine.Frame) → self.old ≡ item around → IsGiven result (machine.give around) self.new }
    {
        match end_item(&mut self.frames) {
            Stage::Done => {
                self.stage = Stage::Item;
                true
            }
            stage => {
                self.stage = stage;
                false
            }
        }
    }

    /// The awaited item is a string of this major type in chunks, of which the next one is awaited.
    pub fn await_chunk(&mut self, major: u8)
        ensures live { self.old ≢ done }
        ensures next { self.new ≢ done }
        ensures chunk { (around : List machine.Frame) → self.old ≡ item around → self.new ≡ machine.chunk major around }
    {
        self.stage = Stage::Chunk(major);
    }

    /// Takes the next piece, up to the end of the item or to a byte that cannot be where it is, with at most `depth`
    /// containers open at a time. After a whole item the next one is awaited; a byte that was refused leaves the reader
    /// before that byte.
    ///
    /// # Errors
    ///
    /// [`AllocError`] where an allocation was refused. Of what the reader then awaits nothing is known.
    pub fn read(&mut self, depth: u32, piece: &[u8]) -> Result<Progress, AllocError>
        ensures live { self.old ≢ done }
        ensures next { self.new ≢ done }
        ensures answer { IfOk result (λ progress. IsProgress depth self.old piece.now progress self.new) }
    {
        read_on(&mut self.stage, &mut self.frames, depth, piece)
    }
}

fn read_on(
    stage: &mut Stage,
    frames: &mut Vec<Frame>,
    depth: u32,
    piece: &[u8],
) -> Result<Progress, AllocError>
    requires { IsAwaiting stage.old }
    ensures awaiting { IsAwaiting stage.new }
    ensures answer { IfOk result (λ progress. IsProgress depth (state_of stage.old (stack_of frames.old.items)) piece.now progress (state_of stage.new (stack_of frames.new.items))) }
{
    let mut used = 0;
    while used < piece.len() {
        match next_turn(*stage, frames, depth, &piece[used..])? {
            Turn::On(count, next) => {
                used += count;
                if let Stage::Done = next {
                    *stage = Stage::Item;
                    frames.clear();
                    return Ok(Progress::Whole { used });
                }
                *stage = next;
            }
            Turn::Refused(kind) => return Ok(Progress::Refused { used, kind }),
            Turn::TooDeep => return Ok(Progress::TooDeep { used }),
        }
    }
    Ok(Progress::More)
}
