//! What a reader awaits, and where heads lead.
ghost use Rattle.std.specs.Prelude.{◌≡◌, ◌<◌, List, IfOk, Some};
ghost use Rattle.cbor_data.specs.Machine.Machine as machine;
ghost use Rattle.read_items.specs.Arguments.{info_view, left_of};
ghost use Rattle.read_items.specs.Form.Stages.{stack_of, state_of, next_of, IsNext};

use crate::argument::{Argument, Info, Size};
use crate::form::frame::{Frame, await_items, end_item, open_indefinite};
use crate::partial::Partial;
use std::alloc::AllocError;

/// What the reader awaits.
#[derive(Clone, Copy)]
pub enum Stage {
    /// An item's initial byte.
    Item,
    /// A byte of the argument of a head of this major type.
    Argument(u8, Partial),
    /// A byte of a string's or a float's content, with so many after it.
    Body(u64),
    /// A chunk of this major type, or the break.
    Chunk(u8),
    /// A byte of the argument of a chunk's head.
    ChunkArgument(u8, Partial),
    /// A byte of a chunk's content, with so many after it.
    ChunkBody(u8, u64),
    /// The byte after `f8`.
    Simple,
    /// Nothing: the item is whole.
    Done,
}

// What follows the head of a string.
fn await_body(frames: &mut Vec<Frame>, length: u64) -> Stage
    ensures { state_of result (stack_of frames.new.items) ≡ machine.await_content length (stack_of frames.old.items) }
{
    if length == 0 {
        end_item(frames)
    } else {
        Stage::Body(length - 1)
    }
}

// What follows the head of a chunk.
fn await_chunk_body(major: u8, length: u64) -> Stage
    ensures { (around : List machine.Frame) → state_of result around ≡ machine.await_chunk_content major length around }
{
    if length == 0 {
        Stage::Chunk(major)
    } else {
        Stage::ChunkBody(major, length - 1)
    }
}

// What follows a whole head. A map's argument counts its pairs.
fn end_head(frames: &mut Vec<Frame>, major: u8, argument: u64) -> Result<Stage, AllocError>
    ensures { IfOk result (λ stage. state_of stage (stack_of frames.new.items) ≡ machine.after major argument (stack_of frames.old.items)) }
{
    match major {
        2 | 3 => Ok(await_body(frames, argument)),
        4 => await_items(frames, u128::from(argument)),
        5 => await_items(frames, 2 * u128::from(argument)),
        6 => await_items(frames, 1),
        _ => Ok(end_item(frames)),
    }
}

// What follows an initial byte whose argument has this width: of major type 7 it is a simple value or a float.
fn await_argument(major: u8, width: Size) -> Stage
    requires { major < 8 }
    ensures { (around : List machine.Frame) → state_of result around ≡ machine.wide major (left_of width) around }
{
    if major < 7 {
        return Stage::Argument(major, Partial::new(width));
    }
    match width {
        Size::One => Stage::Simple,
        Size::Two | Size::Four | Size::Eight => Stage::Body(u64::from(width.left())),
    }
}

// What follows an initial byte where an item is awaited, or none where it begins no item.
pub(crate) fn begin_item(
    frames: &mut Vec<Frame>,
    major: u8,
    info: Info,
) -> Result<Option<Stage>, AllocError>
    requires { major < 8 }
    ensures { IfOk result (λ next. IsNext (machine.start major (info_view info) (stack_of frames.old.items)) next (stack_of frames.old.items) (stack_of frames.new.items)) }
{
    match info {
        Info::Given(argument) => Ok(Some(end_head(frames, major, u64::from(argument))?)),
        Info::Follows(width) => Ok(Some(await_argument(major, width))),
        Info::Indefinite => open_indefinite(frames, major),
        Info::Reserved => Ok(None),
    }
}

// What follows an initial byte of this major type where a chunk of it is awaited, or none where it begins no chunk.
pub(crate) fn begin_chunk(major: u8, info: Info) -> Option<Stage>
    ensures { (around : List machine.Frame) → next_of result around ≡ machine.start_chunk major (info_view info) around }
{
    match info {
        Info::Given(length) => Some(await_chunk_body(major, u64::from(length))),
        Info::Follows(width) => Some(Stage::ChunkArgument(major, Partial::new(width))),
        Info::Indefinite | Info::Reserved => None,
    }
}

// What follows one byte more of an argument.
pub(crate) fn go_on_argument(
    frames: &mut Vec<Frame>,
    major: u8,
    partial: Partial,
    byte: u8,
) -> Result<Stage, AllocError>
    ensures { IfOk result (λ stage. machine.step (machine.argument major partial.left partial.value (stack_of frames.old.items)) byte ≡ Some (state_of stage (stack_of frames.new.items))) }
{
    match partial.with(byte) {
        Argument::Part(partial) => Ok(Stage::Argument(major, partial)),
        Argument::Whole(argument) => end_head(frames, major, argument),
    }
}

// What follows one byte more of the argument of a chunk's head.
pub(crate) fn go_on_chunk_argument(major: u8, partial: Partial, byte: u8) -> Stage
    ensures { (around : List machine.Frame) → machine.step (machine.chunk_argument major partial.left partial.value around) byte ≡ Some (state_of result around) }
{
    match partial.with(byte) {
        Argument::Part(partial) => Stage::ChunkArgument(major, partial),
        Argument::Whole(length) => await_chunk_body(major, length),
    }
}
