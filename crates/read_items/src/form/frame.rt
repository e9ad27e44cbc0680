//! The stack of what is open.
ghost use Rattle.std.specs.Prelude.{◌≡◌, ◌<◌, List, ◌∷◌, IfOk};
ghost use Rattle.cbor_data.specs.Machine.Machine as machine;
ghost use Rattle.read_items.specs.Form.Stages.{frame_of, stack_of, state_of, after_frame, IsNext};

use crate::form::stage::Stage;
use std::alloc::AllocError;

/// What the awaited item is in the innermost open container.
#[derive(Clone, Copy)]
pub enum Frame {
    /// One of a known number, with so many to come after it.
    Rest(u128),
    /// One of an indefinite array.
    Until,
    /// A key of an indefinite map.
    UntilKey,
    /// A value of an indefinite map.
    UntilValue,
}

// The frame after a whole item, or none where the item was the last one.
fn after_item(frame: Frame) -> Option<Frame>
    ensures { (around : List machine.Frame) → after_frame result around ≡ machine.give (frame_of frame ∷ around) }
{
    match frame {
        Frame::Rest(0) => None,
        Frame::Rest(left) => Some(Frame::Rest(left - 1)),
        Frame::Until => Some(Frame::Until),
        Frame::UntilKey => Some(Frame::UntilValue),
        Frame::UntilValue => Some(Frame::UntilKey),
    }
}

// Ends an item, and each container that ends with it.
pub(crate) fn end_item(frames: &mut Vec<Frame>) -> Stage
    ensures { state_of result (stack_of frames.new.items) ≡ machine.give (stack_of frames.old.items) }
{
    while !frames.is_empty() {
        let top = frames.len() - 1;
        match after_item(frames[top]) {
            Some(frame) => {
                frames[top] = frame;
                return Stage::Item;
            }
            None => frames.truncate(top),
        }
    }
    Stage::Done
}

// Awaits so many items in one container.
pub(crate) fn await_items(frames: &mut Vec<Frame>, count: u128) -> Result<Stage, AllocError>
    ensures { IfOk result (λ stage. state_of stage (stack_of frames.new.items) ≡ machine.ask count (stack_of frames.old.items)) }
{
    if count == 0 {
        return Ok(end_item(frames));
    }
    frames.push(Frame::Rest(count - 1))?;
    Ok(Stage::Item)
}

// Opens a container or a string of indefinite length, or ends what is open, by the initial byte of this major type.
pub(crate) fn open_indefinite(
    frames: &mut Vec<Frame>,
    major: u8,
) -> Result<Option<Stage>, AllocError>
    requires { major < 8 }
    ensures { IfOk result (λ next. IsNext (machine.open_indefinite major (stack_of frames.old.items)) next (stack_of frames.old.items) (stack_of frames.new.items)) }
{
    match major {
        2 | 3 => Ok(Some(Stage::Chunk(major))),
        4 => {
            frames.push(Frame::Until)?;
            Ok(Some(Stage::Item))
        }
        5 => {
            frames.push(Frame::UntilKey)?;
            Ok(Some(Stage::Item))
        }
        7 => Ok(end_indefinite(frames)),
        _ => Ok(None),
    }
}

// The break: ends the innermost container, if it is of indefinite length and awaits no value.
fn end_indefinite(frames: &mut Vec<Frame>) -> Option<Stage>
    ensures { IsNext (machine.break (stack_of frames.old.items)) result (stack_of frames.old.items) (stack_of frames.new.items) }
{
    if frames.is_empty() {
        return None;
    }
    let top = frames.len() - 1;
    match frames[top] {
        Frame::Until | Frame::UntilKey => {
            frames.truncate(top);
            Some(end_item(frames))
        }
        Frame::Rest(_) | Frame::UntilValue => None,
    }
}
