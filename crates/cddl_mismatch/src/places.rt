//! What is shown of a place of an item.

ghost use Rattle.std.specs.Prelude.{◌≡◌, ◌++◌, codes, IfOk, map, MatchOption, OnOk, option_map, string_bytes};
ghost use Rattle.cbor_data.specs.Value.{Value};
ghost use Rattle.item_nodes.specs.View.{view};
ghost use Rattle.cddl_reasons.specs.Told.{holder_view};
ghost use Rattle.cddl_mismatch.specs.Places.{steps_to, AreWordsAt, ArePlaceWords, HoldsAt, IsValueShown};

use cbor_item::{Item, item_at, path_text};
use cddl_reasons::Holder;
use match_held::held_in;
use match_moves::bytes_of;
use mismatch_words::{path_words, shown_value};
use std::alloc::{AllocError, Global};

// The path of the place, and what is there. The place counts in what the last of these byte strings holds, and that of each
// string in what the one before it holds.
pub(crate) fn place_words(
    alloc: Global,
    item: &Item,
    strings: &[Holder],
    place: usize,
) -> Result<String, AllocError>
    ensures { IfOk result (λ words. ArePlaceWords (codes "$") (view item.now) (map holder_view strings.now) place (string_bytes words)) }
{
    let mut path = Vec::new(alloc);
    path.push(b'$')?;
    words_behind(alloc, path, item, strings, place)
}

// The same, where this path leads to the item.
fn words_behind(
    alloc: Global,
    mut path: Vec<u8>,
    item: &Item,
    strings: &[Holder],
    place: usize,
) -> Result<String, AllocError>
    ensures { IfOk result (λ words. ArePlaceWords path.items (view item.now) (map holder_view strings.now) place (string_bytes words)) }
{
    let Some((string, others)) = strings.split_first() else {
        return words_at(alloc, path, item, place);
    };
    let Some(held) = held_at(alloc, item, *string)? else {
        return words_at(alloc, path, item, string.place);
    };
    push_steps(alloc, &mut path, item, string.place)?;
    path.extend_from_slice(b"<<>>")?;
    words_behind(alloc, path, &held, others, place)
}

// What the byte string at a place of the item holds, if it is one that holds something.
fn held_at(alloc: Global, item: &Item, holder: Holder) -> Result<Option<Item>, AllocError>
    ensures { IfOk result (λ held. MatchOption held ((y : Value) → HoldsAt (view item.now) (holder_view holder) y → ⊥) (λ inside. HoldsAt (view item.now) (holder_view holder) (view inside))) }
{
    let Some(string) = item_at(item, holder.place) else {
        return Ok(None);
    };
    let Some(bytes) = bytes_of(string) else {
        return Ok(None);
    };
    held_in(alloc, holder.content, bytes)
}

// The path and what is there, where the place counts in the item to which this path leads.
fn words_at(
    alloc: Global,
    mut path: Vec<u8>,
    item: &Item,
    place: usize,
) -> Result<String, AllocError>
    ensures { IfOk result (λ words. AreWordsAt path.items (view item.now) place (string_bytes words)) }
{
    push_steps(alloc, &mut path, item, place)?;
    let path = path_words(alloc, path.as_slice())?;
    let value = value_shown(alloc, item_at(item, place))?;
    format!(in alloc; "{path}: {value}")
}

// Puts the steps to the place after a path.
#[tactic(auto, using(crate::proofs::Paths::has_first, crate::proofs::Paths::steps_put, crate::proofs::Paths::no_steps_put))]
fn push_steps(
    alloc: Global,
    path: &mut Vec<u8>,
    item: &Item,
    place: usize,
) -> Result<(), AllocError>
    ensures { OnOk result (path.new.items ≡ path.old.items ++ steps_to (view item.now) place) }
{
    if let Some(steps) = path_text(alloc, item, place)? {
        // Without its `$`.
        path.extend_from_slice(&steps[1..])?;
    }
    Ok(())
}

fn value_shown(alloc: Global, found: Option<&Item>) -> Result<String, AllocError>
    ensures { IfOk result (λ words. IsValueShown (option_map (λ item. view item.now) found.entry) (string_bytes words)) }
{
    match found {
        Some(item) => shown_value(alloc, item),
        None => Ok(String::new(alloc)),
    }
}
