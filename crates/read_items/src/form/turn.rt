//! What the next bytes of a piece lead to.
ghost use Rattle.std.specs.Prelude.{◌≡◌, ◌<◌, ℕ, List, length, true, IfOk};
ghost use Rattle.cbor_data.specs.Machine.Machine as machine;
ghost use Rattle.read_items.specs.Form.Stages.{stack_of, state_of, IsAwaiting};
ghost use Rattle.read_items.specs.Form.Turns.{IsLength, IsDeepIf, IsTurn};

use crate::argument::info_of_byte;
use crate::form::frame::{Frame, end_item};
use crate::form::stage::{Stage, begin_chunk, begin_item, go_on_argument, go_on_chunk_argument};
use crate::malformed::{chunk_fault, item_fault};
use cbor_data::FaultKind;
use std::alloc::AllocError;

/// What the next bytes lead to.
#[derive(Clone, Copy)]
pub enum Turn {
    /// So many bytes were used, and this is awaited.
    On(usize, Stage),
    /// The first byte cannot be there.
    Refused(FaultKind),
    /// The first byte opens a container inside as many as may be open.
    TooDeep,
}

// Whether this initial byte opens a container.
fn opens_container(byte: u8) -> bool
    ensures { result ≡ machine.opens_container byte }
{
    let major = byte / 32;
    3 < major && major < 7
}

// Whether a byte that opens a container has additional information that its major type can have.
fn has_length(byte: u8) -> bool
    requires { machine.opens_container byte ≡ true }
    ensures { (around : List machine.Frame) → IsLength result (machine.step (machine.item around) byte) }
{
    let info = byte % 32;
    info < 28 || (info == 31 && byte / 32 != 6)
}

// Whether this initial byte would open one container more than `depth`, with so many open.
fn is_too_deep(count: usize, depth: u32, byte: u8) -> bool
    ensures { (stack : List machine.Frame) → length stack ≡ count → IsDeepIf result depth stack byte }
{
    count >= depth as usize && opens_container(byte) && has_length(byte)
}

fn turn_item(frames: &mut Vec<Frame>, depth: u32, rest: &[u8]) -> Result<Turn, AllocError>
    requires { 0 < length rest.now }
    ensures { IfOk result (λ turn. IsTurn depth (machine.item (stack_of frames.old.items)) rest.now turn (stack_of frames.old.items) (stack_of frames.new.items)) }
{
    let byte = rest[0];
    if is_too_deep(frames.len(), depth, byte) {
        return Ok(Turn::TooDeep);
    }
    match begin_item(frames, byte / 32, info_of_byte(byte))? {
        Some(stage) => Ok(Turn::On(1, stage)),
        None => Ok(Turn::Refused(item_fault(byte))),
    }
}

// The content of a string or a float, as much of it as there is.
fn skip_body(frames: &mut Vec<Frame>, left: u64, rest: &[u8]) -> Turn
    requires { 0 < length rest.now }
    ensures { (depth : ℕ) → IsTurn depth (machine.body left (stack_of frames.old.items)) rest.now result (stack_of frames.old.items) (stack_of frames.new.items) }
{
    match left.checked_sub(rest.len() as u64) {
        Some(left) => Turn::On(rest.len(), Stage::Body(left)),
        None => Turn::On(left as usize + 1, end_item(frames)),
    }
}

// The content of a chunk, as much of it as there is.
fn skip_chunk_body(major: u8, left: u64, rest: &[u8]) -> Turn
    requires { 0 < length rest.now }
    ensures { (depth : ℕ) (around : List machine.Frame) → IsTurn depth (machine.chunk_body major left around) rest.now result around around }
{
    match left.checked_sub(rest.len() as u64) {
        Some(left) => Turn::On(rest.len(), Stage::ChunkBody(major, left)),
        None => Turn::On(left as usize + 1, Stage::Chunk(major)),
    }
}

// The head of a chunk, or the break.
fn turn_chunk(frames: &mut Vec<Frame>, major: u8, rest: &[u8]) -> Turn
    requires { 0 < length rest.now }
    ensures { (depth : ℕ) → IsTurn depth (machine.chunk major (stack_of frames.old.items)) rest.now result (stack_of frames.old.items) (stack_of frames.new.items) }
{
    let byte = rest[0];
    if byte == 0xff {
        return Turn::On(1, end_item(frames));
    }
    if byte / 32 != major {
        return Turn::Refused(chunk_fault(major, byte));
    }
    match begin_chunk(major, info_of_byte(byte)) {
        Some(stage) => Turn::On(1, stage),
        None => Turn::Refused(chunk_fault(major, byte)),
    }
}

// The byte after `f8`.
fn turn_simple(frames: &mut Vec<Frame>, rest: &[u8]) -> Turn
    requires { 0 < length rest.now }
    ensures { (depth : ℕ) → IsTurn depth (machine.simple (stack_of frames.old.items)) rest.now result (stack_of frames.old.items) (stack_of frames.new.items) }
{
    if rest[0] < 32 {
        Turn::Refused(FaultKind::BadSimple)
    } else {
        Turn::On(1, end_item(frames))
    }
}

// Where the next bytes of the piece lead from a stage: one byte, or as many of a string's content as there are.
pub(crate) fn next_turn(
    stage: Stage,
    frames: &mut Vec<Frame>,
    depth: u32,
    rest: &[u8],
) -> Result<Turn, AllocError>
    requires some { 0 < length rest.now }
    requires awaiting { IsAwaiting stage }
    ensures { IfOk result (λ turn. IsTurn depth (state_of stage (stack_of frames.old.items)) rest.now turn (stack_of frames.old.items) (stack_of frames.new.items)) }
{
    match stage {
        Stage::Item => turn_item(frames, depth, rest),
        Stage::Argument(major, partial) => {
            let stage = go_on_argument(frames, major, partial, rest[0])?;
            Ok(Turn::On(1, stage))
        }
        Stage::Body(left) => Ok(skip_body(frames, left, rest)),
        Stage::Chunk(major) => Ok(turn_chunk(frames, major, rest)),
        Stage::ChunkArgument(major, partial) => {
            let stage = go_on_chunk_argument(major, partial, rest[0]);
            Ok(Turn::On(1, stage))
        }
        Stage::ChunkBody(major, left) => Ok(skip_chunk_body(major, left, rest)),
        Stage::Simple => Ok(turn_simple(frames, rest)),
        Stage::Done => unreachable!(),
    }
}
