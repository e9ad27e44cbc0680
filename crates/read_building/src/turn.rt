//! What the next bytes of a piece lead to.
ghost use Rattle.std.specs.Prelude.{◌≡◌, ◌/◌, ◌<◌, ℕ, List, length, slice_index, true, IfOk};
ghost use Rattle.cbor_data.specs.Machine.Machine as machine;
ghost use Rattle.read_building.specs.Building as building;
ghost use Rattle.read_building.specs.declared.stage.Stage.TheVariants as stage;
ghost use Rattle.read_items.specs.Whole.Parts.{IsArgumentAt};
ghost use Rattle.read_building.specs.Stages.{major_of, stack_of, state_of, string_major};
ghost use Rattle.read_building.specs.Turns.{HasRoom, IsHeld, IsLength, IsDeepIf, IsTurn};

use crate::frame::{Frame, end_item};
use crate::kind::{Kind, kind_of};
use crate::members::take_parts;
use crate::stage::{
    Next, Stage, await_string, begin_chunk, begin_item, end_head, go_on_argument, go_on_bits,
    go_on_chunk_argument,
};
use crate::strings::{copied_string, major_of_string, may_hold, string_item};
use cbor_data::FaultKind;
use item_nodes::Item;
use read_items::argument::info_of_byte;
use read_items::malformed::{chunk_fault, item_fault};
use read_items::whole::{argument_at, simple_or_float};
use std::alloc::{AllocError, Global};
use std::mem;

/// What the next bytes lead to.
#[derive(Drop)]
pub enum Turn {
    /// So many bytes were used, and this follows.
    On(usize, Next),
    /// So many bytes were used, and with them a text chunk ended that is not UTF-8, whose head is at this offset;
    /// whether it is one of several chunks.
    BadText(usize, u64, bool),
    /// The first byte cannot be there.
    Refused(FaultKind),
    /// The first byte opens a container inside as many as may be open.
    TooDeep,
}

// Whether this initial byte opens a container.
#[inline(always)]
fn opens_container(byte: u8) -> bool
    ensures { result ≡ machine.opens_container byte }
{
    let major = byte / 32;
    3 < major && major < 7
}

// Whether a byte that opens a container has additional information that its major type can have.
#[inline(always)]
fn has_length(byte: u8) -> bool
    requires { machine.opens_container byte ≡ true }
    ensures { (at : ℕ) (around : List building.Frame) → IsLength result (building.step at (building.item around) byte) }
{
    let info = byte % 32;
    info < 28 || (info == 31 && byte / 32 != 6)
}

// Whether this initial byte would open one container more than `depth`, with so many open.
#[inline(always)]
fn is_too_deep(count: usize, depth: u32, byte: u8) -> bool
    ensures { (at : ℕ) (stack : List building.Frame) → length stack ≡ count → IsDeepIf result depth at stack byte }
{
    count >= depth as usize && opens_container(byte) && has_length(byte)
}

// Parts of the innermost container that are whole, or what is at the front of the rest.
#[inline(always)]
fn turn_parts(
    alloc: Global,
    frames: &mut Vec<Frame>,
    held: &mut Vec<u8>,
    at: u64,
    depth: u32,
    is_in_vain: &mut bool,
    rest: &[u8],
) -> Result<Turn, AllocError>
    requires { 0 < length rest.now }
    ensures { IfOk result (λ turn. IsTurn depth at (building.item (stack_of frames.old.items)) rest.now turn held.new.items (stack_of frames.new.items) (building.item (stack_of frames.new.items))) }
{
    let (used, is_vain) = take_parts(alloc, frames, depth, *is_in_vain, rest)?;
    *is_in_vain = is_vain;
    if used > 0 {
        return Ok(Turn::On(used, Next::Await(Stage::Item)));
    }
    turn_item(alloc, frames, held, at, depth, rest)
}

#[inline(always)]
fn turn_item(
    alloc: Global,
    frames: &mut Vec<Frame>,
    held: &mut Vec<u8>,
    at: u64,
    depth: u32,
    rest: &[u8],
) -> Result<Turn, AllocError>
    requires { 0 < length rest.now }
    ensures { IfOk result (λ turn. IsTurn depth at (building.item (stack_of frames.old.items)) rest.now turn held.new.items (stack_of frames.new.items) (building.item (stack_of frames.new.items))) }
{
    let byte = rest[0];
    if is_too_deep(frames.len(), depth, byte) {
        return Ok(Turn::TooDeep);
    }
    let (argument, end) = argument_at(rest, 0);
    if end == 0 {
        return turn_byte(alloc, frames, held, at, depth, rest);
    }
    match kind_of(byte / 32) {
        Some(kind) => turn_head(alloc, frames, held, at, depth, kind, argument, end, rest),
        None => turn_last(alloc, frames, held, at, depth, argument, end, rest),
    }
}

// A simple value or a float.
fn turn_last(
    alloc: Global,
    frames: &mut Vec<Frame>,
    held: &mut Vec<u8>,
    at: u64,
    depth: u32,
    argument: u64,
    end: usize,
    rest: &[u8],
) -> Result<Turn, AllocError>
    requires kind { slice_index rest.now 0 / 32 ≡ 7 }
    requires head { IsArgumentAt rest.now 0 argument end }
    requires room { HasRoom depth at (stack_of frames.old.items) (slice_index rest.now 0) }
    ensures { IfOk result (λ turn. IsTurn depth at (building.item (stack_of frames.old.items)) rest.now turn held.new.items (stack_of frames.new.items) (building.item (stack_of frames.new.items))) }
{
    match simple_or_float(rest[0] % 32, argument) {
        Some(item) => {
            let next = end_item(alloc, frames, item)?;
            Ok(Turn::On(end, next))
        }
        None => turn_byte(alloc, frames, held, at, depth, rest),
    }
}

// A whole head, with the content of a string where that is all there.
#[inline(always)]
fn turn_head(
    alloc: Global,
    frames: &mut Vec<Frame>,
    held: &mut Vec<u8>,
    at: u64,
    depth: u32,
    kind: Kind,
    argument: u64,
    end: usize,
    rest: &[u8],
) -> Result<Turn, AllocError>
    requires kind { slice_index rest.now 0 / 32 ≡ major_of kind }
    requires head { IsArgumentAt rest.now 0 argument end }
    requires room { HasRoom depth at (stack_of frames.old.items) (slice_index rest.now 0) }
    ensures { IfOk result (λ turn. IsTurn depth at (building.item (stack_of frames.old.items)) rest.now turn held.new.items (stack_of frames.new.items) (building.item (stack_of frames.new.items))) }
{
    match kind {
        Kind::Bytes => {
            turn_string_head(alloc, frames, held, at, depth, false, argument, end, rest)
        }
        Kind::Text => turn_string_head(alloc, frames, held, at, depth, true, argument, end, rest),
        _ => {
            let next = end_head(alloc, frames, held, at, kind, argument)?;
            Ok(Turn::On(end, next))
        }
    }
}

#[inline(always)]
fn turn_string_head(
    alloc: Global,
    frames: &mut Vec<Frame>,
    held: &mut Vec<u8>,
    at: u64,
    depth: u32,
    is_text: bool,
    len: u64,
    end: usize,
    rest: &[u8],
) -> Result<Turn, AllocError>
    requires kind { slice_index rest.now 0 / 32 ≡ string_major is_text }
    requires head { IsArgumentAt rest.now 0 len end }
    requires room { HasRoom depth at (stack_of frames.old.items) (slice_index rest.now 0) }
    ensures { IfOk result (λ turn. IsTurn depth at (building.item (stack_of frames.old.items)) rest.now turn held.new.items (stack_of frames.new.items) (building.item (stack_of frames.new.items))) }
{
    let there = (rest.len() - end) as u64;
    if len > there {
        let next = await_string(alloc, frames, held, at, is_text, len)?;
        return Ok(Turn::On(end, next));
    }
    let used = end + len as usize;
    match copied_string(alloc, is_text, &rest[end..used])? {
        Some(item) => {
            let next = end_item(alloc, frames, item)?;
            Ok(Turn::On(used, next))
        }
        None => Ok(Turn::BadText(used, at, false)),
    }
}

// One byte where an item is awaited.
fn turn_byte(
    alloc: Global,
    frames: &mut Vec<Frame>,
    held: &mut Vec<u8>,
    at: u64,
    depth: u32,
    rest: &[u8],
) -> Result<Turn, AllocError>
    requires some { 0 < length rest.now }
    requires room { HasRoom depth at (stack_of frames.old.items) (slice_index rest.now 0) }
    ensures { IfOk result (λ turn. IsTurn depth at (building.item (stack_of frames.old.items)) rest.now turn held.new.items (stack_of frames.new.items) (building.item (stack_of frames.new.items))) }
{
    let byte = rest[0];
    match begin_item(alloc, frames, held, at, byte / 32, info_of_byte(byte))? {
        Some(next) => Ok(Turn::On(1, next)),
        None => Ok(Turn::Refused(item_fault(byte))),
    }
}

// The content of a string, as much of it as there is.
fn turn_string(
    alloc: Global,
    frames: &mut Vec<Frame>,
    held: &mut Vec<u8>,
    from: u64,
    is_text: bool,
    left: u64,
    rest: &[u8],
) -> Result<Turn, AllocError>
    requires { 0 < length rest.now }
    ensures { IfOk result (λ turn. (depth at : ℕ) (stay : building.State) → IsTurn depth at (building.string from (string_major is_text) left held.old.items (stack_of frames.old.items)) rest.now turn held.new.items (stack_of frames.new.items) stay) }
{
    let count = rest.len() as u64;
    if count <= left {
        held.extend_from_slice(rest)?;
        return Ok(Turn::On(
            rest.len(),
            Next::Await(Stage::Str(from, is_text, left - count)),
        ));
    }
    let used = left as usize + 1;
    held.extend_from_slice(&rest[..used])?;
    let content = mem::replace(held, Vec::new(alloc));
    match string_item(is_text, content) {
        Some(item) => {
            let next = end_item(alloc, frames, item)?;
            Ok(Turn::On(used, next))
        }
        None => Ok(Turn::BadText(used, from, false)),
    }
}

// The content of a chunk, as much of it as there is.
fn turn_chunk_string(
    held: &mut Vec<u8>,
    from: u64,
    is_text: bool,
    left: u64,
    start: usize,
    rest: &[u8],
) -> Result<Turn, AllocError>
    requires some { 0 < length rest.now }
    requires held { IsHeld (stage.ChunkStr from is_text left start) held.old.items }
    ensures { IfOk result (λ turn. (depth at : ℕ) (stay : building.State) (around : List building.Frame) → IsTurn depth at (state_of (stage.ChunkStr from is_text left start) held.old.items around) rest.now turn held.new.items around stay) }
{
    let count = rest.len() as u64;
    if count <= left {
        held.extend_from_slice(rest)?;
        return Ok(Turn::On(
            rest.len(),
            Next::Await(Stage::ChunkStr(from, is_text, left - count, start)),
        ));
    }
    let used = left as usize + 1;
    held.extend_from_slice(&rest[..used])?;
    if !may_hold(is_text, &held[start..]) {
        return Ok(Turn::BadText(used, from, true));
    }
    Ok(Turn::On(used, Next::Await(Stage::Chunk(is_text))))
}

// The head of a chunk, or the break.
fn turn_chunk(
    alloc: Global,
    frames: &mut Vec<Frame>,
    held: &mut Vec<u8>,
    at: u64,
    is_text: bool,
    rest: &[u8],
) -> Result<Turn, AllocError>
    requires some { 0 < length rest.now }
    requires held { IsHeld (stage.Chunk is_text) held.old.items }
    ensures { IfOk result (λ turn. (depth : ℕ) → IsTurn depth at (building.chunk (string_major is_text) held.old.items (stack_of frames.old.items)) rest.now turn held.new.items (stack_of frames.new.items) (building.chunk (string_major is_text) held.new.items (stack_of frames.new.items))) }
{
    let byte = rest[0];
    let major = major_of_string(is_text);
    if byte == 0xff {
        let content = mem::replace(held, Vec::new(alloc));
        let Some(item) = string_item(is_text, content) else {
            unreachable!()
        };
        let next = end_item(alloc, frames, item)?;
        return Ok(Turn::On(1, next));
    }
    if byte / 32 != major {
        return Ok(Turn::Refused(chunk_fault(major, byte)));
    }
    match begin_chunk(held, at, is_text, info_of_byte(byte)) {
        Some(stage) => Ok(Turn::On(1, Next::Await(stage))),
        None => Ok(Turn::Refused(chunk_fault(major, byte))),
    }
}

// The byte after `f8`.
fn turn_simple(alloc: Global, frames: &mut Vec<Frame>, rest: &[u8]) -> Result<Turn, AllocError>
    requires { 0 < length rest.now }
    ensures { IfOk result (λ turn. (depth at : ℕ) (held : List ℕ) → IsTurn depth at (building.simple_value (stack_of frames.old.items)) rest.now turn held (stack_of frames.new.items) (building.simple_value (stack_of frames.new.items))) }
{
    let byte = rest[0];
    if byte < 32 {
        return Ok(Turn::Refused(FaultKind::BadSimple));
    }
    let next = end_item(alloc, frames, Item::Simple(byte))?;
    Ok(Turn::On(1, next))
}

// Where the next bytes of the piece lead from a stage, the first of them at this offset: one byte, as many of a string's
// content as there are, or parts of the innermost container that are whole.
#[inline(always)]
pub(crate) fn next_turn(
    alloc: Global,
    stage: Stage,
    frames: &mut Vec<Frame>,
    held: &mut Vec<u8>,
    at: u64,
    depth: u32,
    is_in_vain: &mut bool,
    rest: &[u8],
) -> Result<Turn, AllocError>
    requires some { 0 < length rest.now }
    requires held { IsHeld stage held.old.items }
    ensures { IfOk result (λ turn. IsTurn depth at (state_of stage held.old.items (stack_of frames.old.items)) rest.now turn held.new.items (stack_of frames.new.items) (state_of stage held.new.items (stack_of frames.new.items))) }
{
    match stage {
        Stage::Item => turn_parts(alloc, frames, held, at, depth, is_in_vain, rest),
        Stage::Argument(from, kind, partial) => {
            let next = go_on_argument(alloc, frames, held, from, kind, partial, rest[0])?;
            Ok(Turn::On(1, next))
        }
        Stage::Str(from, is_text, left) => {
            turn_string(alloc, frames, held, from, is_text, left, rest)
        }
        Stage::Bits(width, partial) => {
            let next = go_on_bits(alloc, frames, width, partial, rest[0])?;
            Ok(Turn::On(1, next))
        }
        Stage::Chunk(is_text) => turn_chunk(alloc, frames, held, at, is_text, rest),
        Stage::ChunkArgument(from, is_text, partial) => {
            let stage = go_on_chunk_argument(held, from, is_text, partial, rest[0]);
            Ok(Turn::On(1, Next::Await(stage)))
        }
        Stage::ChunkStr(from, is_text, left, start) => {
            turn_chunk_string(held, from, is_text, left, start, rest)
        }
        Stage::Simple => turn_simple(alloc, frames, rest),
    }
}
