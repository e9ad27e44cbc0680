//! The path to a place of an item.

ghost use Rattle.std.specs.Prelude.{◌≡◌, IfOk};
ghost use Rattle.std.specs.Option.{option_map};
ghost use Rattle.item_nodes.specs.View.{view, values_view, pairs_view};
ghost use Rattle.cbor_item.specs.Place.Paths.{after, members_paths, pairs_paths, path, paths};
ghost use Rattle.cbor_item.specs.Place.Elements.{element_or_rest};
ghost use Rattle.cbor_item.specs.Place.Walked.{Ends, step_bytes};

use crate::Item;
use crate::place::step::{Step, push_backwards, step_text};
use std::alloc::{AllocError, Global};

// How a walk to a place ends.
#[derive(Clone, Copy)]
enum Walk {
    // It ends at the place. The steps that lead there are put down, the last one first and each backwards.
    Arrived,
    // It ends after all that was walked, with so many places left. Nothing is put down.
    Passed(usize),
}

/// The path of this place of the item, where the places number the item and all below it in preorder, a key before its
/// value, from 0 for the whole. It is None exactly where there is no such place.
///
/// A path is `$` and a step for each level: `[0]` to the member of an array at that index, `{"a"}` to the value at that key
/// of a map, `<"a">` to that key itself, and `()` to the content of a tag. Keys are written in diagnostic notation.
///
/// # Errors
///
/// `AllocError` where memory runs out.
pub fn path_text(alloc: Global, item: &Item, place: usize) -> Result<Option<Vec<u8>>, AllocError>
    ensures { IfOk result (λ answer. option_map (λ text. text.items) answer ≡ path (view item.now) place) }
{
    let mut text = Vec::new(alloc);
    match push_path(alloc, &mut text, item, place)? {
        Walk::Arrived => {
            text.push(b'$')?;
            text.reverse();
            Ok(Some(text))
        }
        Walk::Passed(_) => Ok(None),
    }
}

// Walks through the item, counting places down. Whether a step leads to the place is known only on the way back, so the
// last step is put down first; steps put down on the way there would have to be taken away again, and a key's step is long.
#[cycle(path)]
fn push_path(
    alloc: Global,
    out: &mut Vec<u8>,
    item: &Item,
    place: usize,
) -> Result<Walk, AllocError>
    ensures { IfOk result (Ends (element_or_rest (paths (view item.now)) place) out.old.items out.new.items) }
{
    if place == 0 {
        return Ok(Walk::Arrived);
    }
    let left = place - 1;
    match item {
        Item::Array(items) => push_member_path(alloc, out, items, left),
        Item::Map(pairs) => push_pair_path(alloc, out, pairs, left),
        Item::Tag(_, content) => push_path_after(alloc, out, Step::Content, content, left),
        _ => Ok(Walk::Passed(left)),
    }
}

#[cycle(path)]
fn push_path_after(
    alloc: Global,
    out: &mut Vec<u8>,
    step: Step,
    item: &Item,
    place: usize,
) -> Result<Walk, AllocError>
    ensures { IfOk result (Ends (element_or_rest (after (step_bytes step.entry) (paths (view item.now))) place) out.old.items out.new.items) }
{
    let walk = push_path(alloc, out, item, place)?;
    if let Walk::Arrived = walk {
        push_backwards(out, step_text(alloc, step)?.as_slice())?;
    }
    Ok(walk)
}

#[cycle(path)]
fn push_member_path(
    alloc: Global,
    out: &mut Vec<u8>,
    items: &Vec<Item>,
    place: usize,
) -> Result<Walk, AllocError>
    ensures { IfOk result (Ends (element_or_rest (members_paths 0 (values_view items.now.items)) place) out.old.items out.new.items) }
{
    let mut left = place;
    for (i, item) in items.iter().enumerate() {
        match push_path_after(alloc, out, Step::Member(i), item, left)? {
            Walk::Arrived => return Ok(Walk::Arrived),
            Walk::Passed(rest) => left = rest,
        }
    }
    Ok(Walk::Passed(left))
}

#[cycle(path)]
fn push_pair_path(
    alloc: Global,
    out: &mut Vec<u8>,
    pairs: &Vec<(Item, Item)>,
    place: usize,
) -> Result<Walk, AllocError>
    ensures { IfOk result (Ends (element_or_rest (pairs_paths (pairs_view pairs.now.items)) place) out.old.items out.new.items) }
{
    let mut left = place;
    for (key, value) in pairs {
        match push_path_after(alloc, out, Step::Key(key), key, left)? {
            Walk::Arrived => return Ok(Walk::Arrived),
            Walk::Passed(rest) => left = rest,
        }
        match push_path_after(alloc, out, Step::ValueAt(key), value, left)? {
            Walk::Arrived => return Ok(Walk::Arrived),
            Walk::Passed(rest) => left = rest,
        }
    }
    Ok(Walk::Passed(left))
}
