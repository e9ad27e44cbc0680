//! The stack of what is open, with the members so far.
ghost use Rattle.std.specs.Prelude.{◌≡◌, ◌<◌, ℕ, List, [], ◌∷◌, ◌++◌, true, false, Some, IfOk, IfSome, OnOk};
ghost use Rattle.read_building.specs.Building as building;
ghost use Rattle.item_nodes.specs.View.{view};
ghost use Rattle.cbor_data.specs.Value.{no_values, no_pairs};
ghost use Rattle.read_building.specs.Turns.{IsKept};
ghost use Rattle.read_building.specs.Stages.{frame_of, ends, breaks, one_less, stack_of, next_state, IsNext};

use crate::stage::{Next, Stage};
use item_nodes::Item;
use read_items::whole::{push_part, trimmed};
use std::alloc::{AllocError, Global};

/// An open container: how many parts come after the awaited one, if that is known, and those before it.
#[derive(Drop)]
pub enum Frame {
    Array(Option<u64>, Vec<Item>),
    /// With the key where its value is awaited.
    Map(Option<u64>, Vec<(Item, Item)>, Option<Item>),
    Tag(u64),
}

// Whether the awaited item ends the container.
#[inline(always)]
fn is_ending(frame: &Frame) -> bool
    ensures { result ≡ ends frame.now }
{
    match frame {
        Frame::Array(Some(0), _) => true,
        Frame::Map(Some(0), _, Some(_)) => true,
        Frame::Tag(_) => true,
        _ => false,
    }
}

// How many parts a list has in the end, if that is known: those so far, one more, and so many after it.
#[inline(always)]
fn all_parts(read: usize, left: Option<u64>) -> Option<u64> {
    match left {
        Some(left) => Some((read as u64).saturating_add(left).saturating_add(1)),
        None => None,
    }
}

// Puts a member at the end of an array, with room as for one of so many.
#[inline(always)]
pub(crate) fn push_member(
    members: &mut Vec<Item>,
    item: Item,
    left: Option<u64>,
) -> Result<(), AllocError>
    ensures { OnOk result (members.new.items ≡ members.old.items ++ item ∷ []) }
{
    let count = all_parts(members.len(), left);
    push_part(members, item, count)
}

// The same of a map.
#[inline(always)]
pub(crate) fn push_pair(
    pairs: &mut Vec<(Item, Item)>,
    key: Item,
    value: Item,
    left: Option<u64>,
) -> Result<(), AllocError>
    ensures { OnOk result (pairs.new.items ≡ pairs.old.items ++ (key, value) ∷ []) }
{
    let count = all_parts(pairs.len(), left);
    push_part(pairs, (key, value), count)
}

// Puts the item into a container that awaits another one after it.
#[inline(always)]
fn add(frame: &mut Frame, item: Item) -> Result<(), AllocError>
    requires { ends frame.old ≡ false }
    ensures { OnOk result ((around : List building.Frame) → building.give (view item) (frame_of frame.old ∷ around) ≡ building.item (frame_of frame.new ∷ around)) }
{
    match frame {
        Frame::Array(left, members) => {
            push_member(members, item, *left)?;
            count_down(left);
        }
        Frame::Map(left, pairs, key) => match key.take() {
            Some(first) => {
                push_pair(pairs, first, item, *left)?;
                count_down(left);
            }
            None => *key = Some(item),
        },
        Frame::Tag(_) => {}
    }
    Ok(())
}

// One fewer to come.
#[inline(always)]
pub(crate) fn count_down(left: &mut Option<u64>)
    ensures { left.new ≡ one_less left.old }
{
    if let Some(count) = *left {
        if count > 0 {
            *left = Some(count - 1);
        }
    }
}

// The container that the item ends.
#[inline(always)]
fn closed(alloc: Global, frame: Frame, item: Item) -> Result<Item, AllocError>
    requires { ends frame ≡ true }
    ensures { IfOk result (λ x. (around : List building.Frame) → building.give (view item) (frame_of frame ∷ around) ≡ building.give (view x) around) }
{
    match frame {
        Frame::Array(_, mut members) => {
            push_member(&mut members, item, Some(0))?;
            Ok(Item::Array(members))
        }
        Frame::Map(_, mut pairs, key) => {
            let Some(key) = key else { unreachable!() };
            push_pair(&mut pairs, key, item, Some(0))?;
            Ok(Item::Map(pairs))
        }
        Frame::Tag(number) => Ok(Item::Tag(number, Box::new(alloc, item)?)),
    }
}

// Ends an item, and each container that ends with it.
#[inline(always)]
pub(crate) fn end_item(
    alloc: Global,
    frames: &mut Vec<Frame>,
    item: Item,
) -> Result<Next, AllocError>
    ensures next { IfOk result (λ next. (held : List ℕ) → next_state next held (stack_of frames.new.items) ≡ building.give (view item) (stack_of frames.old.items)) }
    ensures kept { IfOk result (λ next. (held : List ℕ) → IsKept next held) }
{
    let mut item = item;
    while !frames.is_empty() {
        let top = frames.len() - 1;
        if !is_ending(&frames[top]) {
            add(&mut frames[top], item)?;
            return Ok(Next::Await(Stage::Item));
        }
        let Some(frame) = frames.pop() else {
            return Ok(Next::Whole(item));
        };
        item = closed(alloc, frame, item)?;
    }
    Ok(Next::Whole(item))
}

// Awaits so many members of an array.
#[inline(always)]
pub(crate) fn await_members(
    alloc: Global,
    frames: &mut Vec<Frame>,
    count: u64,
) -> Result<Next, AllocError>
    ensures next { IfOk result (λ next. (held : List ℕ) → next_state next held (stack_of frames.new.items) ≡ building.ask count no_values (stack_of frames.old.items)) }
    ensures kept { IfOk result (λ next. (held : List ℕ) → IsKept next held) }
{
    let members = Vec::new(alloc);
    if count == 0 {
        return end_item(alloc, frames, Item::Array(members));
    }
    frames.push(Frame::Array(Some(count - 1), members))?;
    Ok(Next::Await(Stage::Item))
}

// Awaits so many pairs of a map.
#[inline(always)]
pub(crate) fn await_pairs(
    alloc: Global,
    frames: &mut Vec<Frame>,
    count: u64,
) -> Result<Next, AllocError>
    ensures next { IfOk result (λ next. (held : List ℕ) → next_state next held (stack_of frames.new.items) ≡ building.ask_pairs count no_pairs (stack_of frames.old.items)) }
    ensures kept { IfOk result (λ next. (held : List ℕ) → IsKept next held) }
{
    let pairs = Vec::new(alloc);
    if count == 0 {
        return end_item(alloc, frames, Item::Map(pairs));
    }
    frames.push(Frame::Map(Some(count - 1), pairs, None))?;
    Ok(Next::Await(Stage::Item))
}

// Whether a break may end the container.
fn is_breaking(frame: &Frame) -> bool
    ensures { result ≡ breaks frame.now }
{
    match frame {
        Frame::Array(None, _) => true,
        Frame::Map(None, _, None) => true,
        _ => false,
    }
}

// The container that a break ends.
fn broken(frame: Frame) -> Item
    requires { breaks frame ≡ true }
    ensures { (around : List building.Frame) → building.break (frame_of frame ∷ around) ≡ Some (building.give (view result) around) }
{
    match frame {
        Frame::Array(_, members) => Item::Array(trimmed(members)),
        Frame::Map(_, pairs, _) => Item::Map(trimmed(pairs)),
        Frame::Tag(_) => unreachable!(),
    }
}

// The break: ends the innermost container, if it is of indefinite length and awaits no value.
pub(crate) fn end_indefinite(
    alloc: Global,
    frames: &mut Vec<Frame>,
) -> Result<Option<Next>, AllocError>
    ensures next { IfOk result (λ next. (held : List ℕ) → IsNext (building.break (stack_of frames.old.items)) next held (stack_of frames.old.items) (stack_of frames.new.items)) }
    ensures kept { IfOk result (λ next. IfSome next (λ n. (held : List ℕ) → IsKept n held)) }
{
    if frames.is_empty() {
        return Ok(None);
    }
    let top = frames.len() - 1;
    if !is_breaking(&frames[top]) {
        return Ok(None);
    }
    let Some(frame) = frames.pop() else {
        return Ok(None);
    };
    let next = end_item(alloc, frames, broken(frame))?;
    Ok(Some(next))
}
