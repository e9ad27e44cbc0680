//! What the builder awaits, and where heads lead.
ghost use Rattle.std.specs.Prelude.{◌≡◌, ◌<◌, ℕ, List, [], IfOk, IfSome, Some};
ghost use Rattle.read_building.specs.Building as building;
ghost use Rattle.item_nodes.specs.View.{view};
ghost use Rattle.read_building.specs.declared.stage.Stage.TheVariants as stage;
ghost use Rattle.read_items.specs.Arguments.{info_view, left_of};
ghost use Rattle.read_building.specs.Turns.{IsHeld, IsKept};
ghost use Rattle.read_building.specs.Stages.{major_of, string_major, stack_of, state_of, next_state, IsNext, IsNextStage};

use crate::frame::{Frame, await_members, await_pairs, end_indefinite, end_item};
use crate::kind::{Kind, kind_of};
use cbor_data::Width;
use item_nodes::Item;
use read_items::argument::{Argument, Info, Size};
use read_items::partial::Partial;
use std::alloc::{AllocError, Global};

/// What the builder awaits. Offsets are those of heads in the stream.
#[derive(Clone, Copy)]
pub enum Stage {
    /// An item's initial byte.
    Item,
    /// A byte of the argument of a head at this offset.
    Argument(u64, Kind, Partial),
    /// A byte of a string's content, with so many after it; whether it is a text.
    Str(u64, bool, u64),
    /// A byte of a float's bits.
    Bits(Width, Partial),
    /// A chunk, or the break.
    Chunk(bool),
    /// A byte of the argument of a chunk's head.
    ChunkArgument(u64, bool, Partial),
    /// A byte of a chunk's content, with so many after it. The content so far begins in what is held after so many bytes.
    ChunkStr(u64, bool, u64, usize),
    /// The byte after `f8`.
    Simple,
}

/// What follows.
#[derive(Drop)]
pub enum Next {
    Await(Stage),
    /// The item is whole.
    Whole(Item),
}

// A string of no bytes.
#[inline(always)]
fn empty_string(alloc: Global, is_text: bool) -> Item
    ensures { view result ≡ building.string_of (string_major is_text) [] }
{
    if is_text {
        Item::Text(String::new(alloc))
    } else {
        Item::Bytes(Vec::new(alloc))
    }
}

// What follows the head of a string.
#[inline(always)]
pub(crate) fn await_string(
    alloc: Global,
    frames: &mut Vec<Frame>,
    held: &mut Vec<u8>,
    from: u64,
    is_text: bool,
    len: u64,
) -> Result<Next, AllocError>
    ensures next { IfOk result (λ next. next_state next held.new.items (stack_of frames.new.items) ≡ building.await_string from (string_major is_text) len (stack_of frames.old.items)) }
    ensures kept { IfOk result (λ next. (held : List ℕ) → IsKept next held) }
{
    held.clear();
    if len == 0 {
        return end_item(alloc, frames, empty_string(alloc, is_text));
    }
    Ok(Next::Await(Stage::Str(from, is_text, len - 1)))
}

// What follows the head of a chunk.
fn await_chunk_string(held: &Vec<u8>, from: u64, is_text: bool, len: u64) -> Stage
    requires { IsHeld (stage.Chunk is_text) held.now.items }
    ensures next { (around : List building.Frame) → state_of result held.now.items around ≡ building.await_chunk_string from (string_major is_text) len held.now.items around }
    ensures kept { IsHeld result held.now.items }
{
    if len == 0 {
        Stage::Chunk(is_text)
    } else {
        Stage::ChunkStr(from, is_text, len - 1, held.len())
    }
}

// What follows a whole head.
#[inline(always)]
pub(crate) fn end_head(
    alloc: Global,
    frames: &mut Vec<Frame>,
    held: &mut Vec<u8>,
    from: u64,
    kind: Kind,
    argument: u64,
) -> Result<Next, AllocError>
    ensures next { IfOk result (λ next. next_state next held.new.items (stack_of frames.new.items) ≡ building.after from (major_of kind) argument (stack_of frames.old.items)) }
    ensures kept { IfOk result (λ next. (held : List ℕ) → IsKept next held) }
{
    match kind {
        Kind::Uint => end_item(alloc, frames, Item::Uint(argument)),
        Kind::Nint => end_item(alloc, frames, Item::Nint(argument)),
        Kind::Bytes => await_string(alloc, frames, held, from, false, argument),
        Kind::Text => await_string(alloc, frames, held, from, true, argument),
        Kind::Array => await_members(alloc, frames, argument),
        Kind::Map => await_pairs(alloc, frames, argument),
        Kind::Tag => {
            frames.push(Frame::Tag(argument))?;
            Ok(Next::Await(Stage::Item))
        }
    }
}

// What follows an initial byte whose argument has this size: of major type 7 it is a simple value or a float.
fn await_argument(at: u64, major: u8, size: Size) -> Stage
    requires { major < 8 }
    ensures next { (held : List ℕ) (around : List building.Frame) → state_of result held around ≡ building.wide at major (left_of size) around }
    ensures kept { (held : List ℕ) → IsHeld result held }
{
    if let Some(kind) = kind_of(major) {
        return Stage::Argument(at, kind, Partial::new(size));
    }
    match size {
        Size::One => Stage::Simple,
        Size::Two => Stage::Bits(Width::W16, Partial::new(size)),
        Size::Four => Stage::Bits(Width::W32, Partial::new(size)),
        Size::Eight => Stage::Bits(Width::W64, Partial::new(size)),
    }
}

// What follows the initial byte of what has no length, or the break.
fn open_indefinite(
    alloc: Global,
    frames: &mut Vec<Frame>,
    held: &mut Vec<u8>,
    major: u8,
) -> Result<Option<Next>, AllocError>
    requires { major < 8 }
    ensures next { IfOk result (λ next. IsNext (building.open_indefinite major (stack_of frames.old.items)) next held.new.items (stack_of frames.old.items) (stack_of frames.new.items)) }
    ensures kept { IfOk result (λ next. IfSome next (λ n. IsKept n held.new.items)) }
{
    match major {
        2 => {
            held.clear();
            Ok(Some(Next::Await(Stage::Chunk(false))))
        }
        3 => {
            held.clear();
            Ok(Some(Next::Await(Stage::Chunk(true))))
        }
        4 => {
            frames.push(Frame::Array(None, Vec::new(alloc)))?;
            Ok(Some(Next::Await(Stage::Item)))
        }
        5 => {
            frames.push(Frame::Map(None, Vec::new(alloc), None))?;
            Ok(Some(Next::Await(Stage::Item)))
        }
        7 => end_indefinite(alloc, frames),
        _ => Ok(None),
    }
}

// What follows an initial byte with its argument in it.
#[inline(always)]
fn end_byte(
    alloc: Global,
    frames: &mut Vec<Frame>,
    held: &mut Vec<u8>,
    at: u64,
    major: u8,
    argument: u8,
) -> Result<Next, AllocError>
    requires { major < 8 }
    ensures next { IfOk result (λ next. next_state next held.new.items (stack_of frames.new.items) ≡ building.after at major argument (stack_of frames.old.items)) }
    ensures kept { IfOk result (λ next. (held : List ℕ) → IsKept next held) }
{
    match kind_of(major) {
        Some(kind) => end_head(alloc, frames, held, at, kind, u64::from(argument)),
        None => end_item(alloc, frames, Item::Simple(argument)),
    }
}

// What follows an initial byte where an item is awaited, or none where it begins no item.
#[inline(always)]
pub(crate) fn begin_item(
    alloc: Global,
    frames: &mut Vec<Frame>,
    held: &mut Vec<u8>,
    at: u64,
    major: u8,
    info: Info,
) -> Result<Option<Next>, AllocError>
    requires { major < 8 }
    ensures next { IfOk result (λ next. IsNext (building.start at major (info_view info) (stack_of frames.old.items)) next held.new.items (stack_of frames.old.items) (stack_of frames.new.items)) }
    ensures kept { IfOk result (λ next. IfSome next (λ n. IsKept n held.new.items)) }
{
    match info {
        Info::Given(argument) => {
            let next = end_byte(alloc, frames, held, at, major, argument)?;
            Ok(Some(next))
        }
        Info::Follows(size) => Ok(Some(Next::Await(await_argument(at, major, size)))),
        Info::Indefinite => open_indefinite(alloc, frames, held, major),
        Info::Reserved => Ok(None),
    }
}

// What follows an initial byte where a chunk is awaited, or none where it begins no chunk.
pub(crate) fn begin_chunk(held: &Vec<u8>, at: u64, is_text: bool, info: Info) -> Option<Stage>
    requires { IsHeld (stage.Chunk is_text) held.now.items }
    ensures next { (around : List building.Frame) → IsNextStage (building.start_chunk at (string_major is_text) (info_view info) held.now.items around) result held.now.items around }
    ensures kept { IfSome result (λ s. IsHeld s held.now.items) }
{
    match info {
        Info::Given(len) => Some(await_chunk_string(held, at, is_text, u64::from(len))),
        Info::Follows(size) => Some(Stage::ChunkArgument(at, is_text, Partial::new(size))),
        Info::Indefinite | Info::Reserved => None,
    }
}

// What follows one byte more of an argument.
pub(crate) fn go_on_argument(
    alloc: Global,
    frames: &mut Vec<Frame>,
    held: &mut Vec<u8>,
    from: u64,
    kind: Kind,
    partial: Partial,
    byte: u8,
) -> Result<Next, AllocError>
    ensures next { IfOk result (λ next. (at : ℕ) → building.step at (building.argument from (major_of kind) partial.left partial.value (stack_of frames.old.items)) byte ≡ Some (next_state next held.new.items (stack_of frames.new.items))) }
    ensures kept { IfOk result (λ next. (held : List ℕ) → IsKept next held) }
{
    match partial.with(byte) {
        Argument::Part(partial) => Ok(Next::Await(Stage::Argument(from, kind, partial))),
        Argument::Whole(argument) => end_head(alloc, frames, held, from, kind, argument),
    }
}

// What follows one byte more of the argument of a chunk's head.
pub(crate) fn go_on_chunk_argument(
    held: &Vec<u8>,
    from: u64,
    is_text: bool,
    partial: Partial,
    byte: u8,
) -> Stage
    requires { IsHeld (stage.Chunk is_text) held.now.items }
    ensures next { (at : ℕ) (around : List building.Frame) → building.step at (building.chunk_argument from (string_major is_text) partial.left partial.value held.now.items around) byte ≡ Some (state_of result held.now.items around) }
    ensures kept { IsHeld result held.now.items }
{
    match partial.with(byte) {
        Argument::Part(partial) => Stage::ChunkArgument(from, is_text, partial),
        Argument::Whole(len) => await_chunk_string(held, from, is_text, len),
    }
}

// What follows one byte more of a float's bits.
pub(crate) fn go_on_bits(
    alloc: Global,
    frames: &mut Vec<Frame>,
    width: Width,
    partial: Partial,
    byte: u8,
) -> Result<Next, AllocError>
    ensures next { IfOk result (λ next. (at : ℕ) (held : List ℕ) → building.step at (building.bits width partial.left partial.value (stack_of frames.old.items)) byte ≡ Some (next_state next held (stack_of frames.new.items))) }
    ensures kept { IfOk result (λ next. (held : List ℕ) → IsKept next held) }
{
    match partial.with(byte) {
        Argument::Part(partial) => Ok(Next::Await(Stage::Bits(width, partial))),
        Argument::Whole(bits) => end_item(alloc, frames, Item::Float(width, bits)),
    }
}
