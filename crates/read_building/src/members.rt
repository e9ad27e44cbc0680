//! Reads the parts of the innermost container that are whole in a piece, each in one pass.
ghost use Rattle.std.specs.Prelude.{◌≡◌, ◌+◌, ◌/◌, ◌<◌, ◌≤◌, ℕ, List, ◌∷◌, length, slice_index, false, None, IfOk};
ghost use Rattle.read_building.specs.Building as building;
ghost use Rattle.read_building.specs.Taking.{AreTaken, is_last};
ghost use Rattle.read_building.specs.Stages.{frame_of, stack_of};
ghost use Rattle.read_building.specs.declared.frame.Frame.TheVariants as frame;

use crate::frame::{Frame, count_down, push_member, push_pair};
use item_nodes::Item;
use read_items::whole::{INTEGERS_BELOW, argument_at, integer_of, whole_item};
use std::alloc::{AllocError, Global};

// The byte that ends what has no declared length.
const BREAK: u8 = 0xff;

// The initial byte of a byte string in chunks. Those of other byte strings are below it.
const BYTES_TO_BREAK: u8 = 0x5f;

// Takes the parts at the front of the bytes that are whole there into the innermost container, but not its last one. Answers
// how many bytes they have, and whether the bytes after them were looked at in vain. Where that has been so in these bytes
// before, only integers and byte strings are taken, of which none is looked at in vain.
#[inline(always)]
pub(crate) fn take_parts(
    alloc: Global,
    frames: &mut Vec<Frame>,
    depth: u32,
    is_in_vain: bool,
    bytes: &[u8],
) -> Result<(usize, bool), AllocError>
    ensures { IfOk result (λ taken. (at : ℕ) → AreTaken depth at (building.item (stack_of frames.old.items)) bytes.now taken.0 (building.item (stack_of frames.new.items))) }
{
    let open = frames.len();
    if open == 0 || open > depth as usize {
        return Ok((0, true));
    }
    let room = depth - open as u32;
    match &mut frames[open - 1] {
        Frame::Array(left, members) => {
            take_members(alloc, room, is_in_vain, left, members, bytes)
        }
        Frame::Map(left, pairs, None) => take_pairs(alloc, room, is_in_vain, left, pairs, bytes),
        _ => Ok((0, is_in_vain)),
    }
}

// Whether the awaited part is the last one.
#[inline(always)]
fn is_at_last(left: Option<u64>) -> bool
    ensures { result ≡ is_last left }
{
    match left {
        Some(0) => true,
        _ => false,
    }
}

// Takes the integers at the front of the bytes as members of an array. An answer for each of them would cost more than the
// integer.
fn take_integers(
    left: &mut Option<u64>,
    members: &mut Vec<Item>,
    bytes: &[u8],
) -> Result<usize, AllocError>
    ensures within { IfOk result (λ used. used ≤ length bytes.now) }
    ensures taken { IfOk result (λ used. (depth at : ℕ) (around : List building.Frame) → AreTaken depth at (building.item (frame_of (frame.Array left.old members.old) ∷ around)) bytes.now used (building.item (frame_of (frame.Array left.new members.new) ∷ around))) }
{
    let mut used = 0;
    while used < bytes.len() && !is_at_last(*left) {
        let rest = &bytes[used..];
        let (number, end) = argument_at(rest, 0);
        if end == 0 || rest[0] >= INTEGERS_BELOW {
            return Ok(used);
        }
        let integer = integer_of(rest[0], number);
        push_member(members, integer, *left)?;
        count_down(left);
        used += end;
    }
    Ok(used)
}

// Takes members of an array, each of at most this depth.
fn take_members(
    alloc: Global,
    room: u32,
    is_in_vain: bool,
    left: &mut Option<u64>,
    members: &mut Vec<Item>,
    bytes: &[u8],
) -> Result<(usize, bool), AllocError>
    ensures { IfOk result (λ taken. (depth at : ℕ) (around : List building.Frame) → length around + 1 + room ≤ depth → AreTaken depth at (building.item (frame_of (frame.Array left.old members.old) ∷ around)) bytes.now taken.0 (building.item (frame_of (frame.Array left.new members.new) ∷ around))) }
{
    let mut used = 0;
    while used < bytes.len() && !is_at_last(*left) {
        let more = take_next(alloc, room, is_in_vain, left, members, &bytes[used..])?;
        if more == 0 {
            return Ok((used, is_in_vain | (bytes[used] != BREAK)));
        }
        used += more;
    }
    Ok((used, is_in_vain))
}

// Takes the integers at the front of the bytes as members, or the one other member there, but not the last that is awaited.
// Integers and byte strings are not looked at in vain.
// Answers how many bytes they have: 0 where nothing is whole there.
#[inline(always)]
fn take_next(
    alloc: Global,
    room: u32,
    is_in_vain: bool,
    left: &mut Option<u64>,
    members: &mut Vec<Item>,
    bytes: &[u8],
) -> Result<usize, AllocError>
    requires some { 0 < length bytes.now }
    requires more { is_last left.old ≡ false }
    ensures within { IfOk result (λ used. used ≤ length bytes.now) }
    ensures taken { IfOk result (λ used. (depth at : ℕ) (around : List building.Frame) → length around + 1 + room ≤ depth → AreTaken depth at (building.item (frame_of (frame.Array left.old members.old) ∷ around)) bytes.now used (building.item (frame_of (frame.Array left.new members.new) ∷ around))) }
{
    if bytes[0] < INTEGERS_BELOW {
        return take_integers(left, members, bytes);
    }
    if bytes[0] < BYTES_TO_BREAK {
        return take_bytes(alloc, left, members, bytes);
    }
    if is_in_vain {
        return Ok(0);
    }
    let Some((member, length)) = whole_item(alloc, bytes, room)? else {
        return Ok(0);
    };
    push_member(members, member, *left)?;
    count_down(left);
    Ok(length)
}

// Takes the byte string at the front of the bytes as a member. Answers how many bytes it has, and 0 where it is not whole there.
#[inline(always)]
fn take_bytes(
    alloc: Global,
    left: &mut Option<u64>,
    members: &mut Vec<Item>,
    bytes: &[u8],
) -> Result<usize, AllocError>
    requires some { 0 < length bytes.now }
    requires string { slice_index bytes.now 0 / 32 ≡ 2 }
    requires more { is_last left.old ≡ false }
    ensures within { IfOk result (λ used. used ≤ length bytes.now) }
    ensures taken { IfOk result (λ used. (depth at : ℕ) (around : List building.Frame) → AreTaken depth at (building.item (frame_of (frame.Array left.old members.old) ∷ around)) bytes.now used (building.item (frame_of (frame.Array left.new members.new) ∷ around))) }
{
    let (len, end) = argument_at(bytes, 0);
    if end == 0 || len > (bytes.len() - end) as u64 {
        return Ok(0);
    }
    let used = end + len as usize;
    let content = Vec::from_slice(alloc, &bytes[end..used])?;
    push_member(members, Item::Bytes(content), *left)?;
    count_down(left);
    Ok(used)
}

// Takes pairs of a map whose next key is awaited.
fn take_pairs(
    alloc: Global,
    room: u32,
    is_in_vain: bool,
    left: &mut Option<u64>,
    pairs: &mut Vec<(Item, Item)>,
    bytes: &[u8],
) -> Result<(usize, bool), AllocError>
    ensures { IfOk result (λ taken. (depth at : ℕ) (around : List building.Frame) → length around + 1 + room ≤ depth → AreTaken depth at (building.item (frame_of (frame.Map left.old pairs.old None) ∷ around)) bytes.now taken.0 (building.item (frame_of (frame.Map left.new pairs.new None) ∷ around))) }
{
    let mut used = 0;
    if is_in_vain {
        return Ok((used, true));
    }
    while used < bytes.len() && !is_at_last(*left) {
        let rest = &bytes[used..];
        let Some((key, after)) = whole_item(alloc, rest, room)? else {
            return Ok((used, rest[0] != BREAK));
        };
        let Some((value, length)) = whole_item(alloc, &rest[after..], room)? else {
            return Ok((used, true));
        };
        push_pair(pairs, key, value, *left)?;
        count_down(left);
        used += after + length;
    }
    Ok((used, false))
}
