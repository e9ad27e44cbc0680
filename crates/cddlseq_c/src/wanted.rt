//! The bytes that a caller may ask for of a stream.

ghost use Rattle.std.specs.Prelude.{◌≡◌, ◌≢◌, ◌++◌, IfNone, IfOk, IfSome, OnOk, option_copied};
ghost use Rattle.std.specs.Option.{option_map};
ghost use Rattle.cbor_data.specs.Deterministic.{deterministic};
ghost use Rattle.cbor_data.specs.Notation.{notation};
ghost use Rattle.cbor_data.specs.Preferred.{preferred};
ghost use Rattle.item_nodes.specs.View.{view};
ghost use Rattle.cbor_item.specs.Place.Paths.{path};
ghost use Rattle.seq_run.specs.Report.{or_nothing};
ghost use Rattle.cddlseq_c.specs.Wanted.{number_of_wanted, notation_at as notation_of_place, path_to as path_of_place};
ghost use Rattle.cddlseq_c.specs.Wanted.{mismatch_of as mismatch_of_end, mode_of as mode_of_wanted};
ghost use Rattle.cddlseq_c.specs.declared.wanted.Wanted.{Wanted as AnyWanted};

use cbor_item::{Counted, Item, Sound, item_at, path_text, push_notation, write_det, write_item};
use seq_run::{Cause, End, Mode};
use std::alloc::{AllocError, Global};

/// The bytes that a caller may ask for of a stream.
#[derive(Clone, Copy)]
pub(crate) enum Wanted {
    /// The report: a line for each accepted item, and one for the end.
    Report,
    /// The line of the end.
    EndLine,
    /// The accepted items in preferred encoding.
    Preferred,
    /// The accepted items in deterministic encoding.
    Deterministic,
    /// The path of the place of a mismatch.
    Path,
    /// What is there, in diagnostic notation.
    Notation,
}

// What is wanted by a number, if it is one.
pub(crate) fn wanted_by(number: u32) -> Option<Wanted>
    ensures some { IfSome result (λ w. number ≡ number_of_wanted w) }
    ensures none { IfNone result ((w : AnyWanted) → number ≢ number_of_wanted w) }
{
    match number {
        0 => Some(Wanted::Report),
        1 => Some(Wanted::EndLine),
        2 => Some(Wanted::Preferred),
        3 => Some(Wanted::Deterministic),
        4 => Some(Wanted::Path),
        5 => Some(Wanted::Notation),
        _ => None,
    }
}

pub(crate) fn mode_of(wanted: Wanted) -> Mode
    ensures { result ≡ mode_of_wanted wanted }
{
    match wanted {
        Wanted::Report => Mode::Report,
        Wanted::EndLine | Wanted::Path | Wanted::Notation => Mode::EndLine,
        Wanted::Preferred => Mode::Rewrite,
        Wanted::Deterministic => Mode::Deterministic,
    }
}

// The place of the mismatch, where the end is one.
fn mismatch_of(end: &End) -> Option<usize>
    ensures { result ≡ mismatch_of_end end.now }
{
    match end {
        End::Failed {
            cause: Cause::Mismatch(place),
            ..
        } => Some(*place),
        End::Failed { .. } | End::Clean { .. } => None,
    }
}

// The path of the place of a mismatch, and nothing of another end.
pub(crate) fn path_of(
    alloc: Global,
    end: &End,
    rejected: Option<&Sound>,
) -> Result<Vec<u8>, AllocError>
    ensures { IfOk result (λ text. text.items ≡ path_of_place (mismatch_of_end end.now) (option_copied rejected.entry)) }
{
    match (mismatch_of(end), rejected) {
        (Some(place), Some(item)) => path_in(alloc, item.item(), place),
        _ => Ok(Vec::new(alloc)),
    }
}

fn path_in(alloc: Global, item: &Item, place: usize) -> Result<Vec<u8>, AllocError>
    ensures { IfOk result (λ text. text.items ≡ or_nothing (path (view item.now) place)) }
{
    match path_text(alloc, item, place)? {
        Some(text) => Ok(text),
        None => Ok(Vec::new(alloc)),
    }
}

// What is at the place of a mismatch, in diagnostic notation, and nothing of another end.
pub(crate) fn notation_of(
    alloc: Global,
    end: &End,
    rejected: Option<&Sound>,
) -> Result<Vec<u8>, AllocError>
    ensures { IfOk result (λ text. text.items ≡ notation_of_place (mismatch_of_end end.now) (option_copied rejected.entry)) }
{
    match (mismatch_of(end), rejected) {
        (Some(place), Some(item)) => notation_in(alloc, item_at(item.item(), place)),
        _ => Ok(Vec::new(alloc)),
    }
}

fn notation_in(alloc: Global, found: Option<&Item>) -> Result<Vec<u8>, AllocError>
    ensures { IfOk result (λ text. text.items ≡ or_nothing (option_map (λ item. notation (view item.now)) found.entry)) }
{
    let mut text = Vec::new(alloc);
    if let Some(item) = found {
        push_notation(&mut text, item)?;
    }
    Ok(text)
}

// An item in preferred encoding, and nothing where there is none.
pub(crate) fn preferred_of(alloc: Global, item: Option<&Sound>) -> Result<Vec<u8>, AllocError>
    ensures { IfOk result (λ bytes. bytes.items ≡ or_nothing (option_map preferred (option_copied item.entry))) }
{
    match item {
        Some(item) => preferred(alloc, item),
        None => Ok(Vec::new(alloc)),
    }
}

fn preferred(alloc: Global, item: &Sound) -> Result<Vec<u8>, AllocError>
    ensures { IfOk result (λ bytes. bytes.items ≡ preferred item.now) }
{
    let mut out = Counted::new(Vec::new(alloc));
    // A vector takes all bytes, unless there is no memory for them.
    if write_item(item, &mut out).is_err() {
        return Err(AllocError);
    }
    Ok(out.into_inner())
}

// An item in deterministic encoding, and nothing where there is none.
pub(crate) fn deterministic_of(alloc: Global, item: Option<&Sound>) -> Result<Vec<u8>, AllocError>
    ensures { IfOk result (λ bytes. bytes.items ≡ or_nothing (option_map deterministic (option_copied item.entry))) }
{
    match item {
        Some(item) => deterministic(alloc, item),
        None => Ok(Vec::new(alloc)),
    }
}

fn deterministic(alloc: Global, item: &Sound) -> Result<Vec<u8>, AllocError>
    ensures { IfOk result (λ bytes. bytes.items ≡ deterministic item.now) }
{
    let mut out = Counted::new(Vec::new(alloc));
    if write_det(alloc, item, &mut out).is_err() {
        return Err(AllocError);
    }
    Ok(out.into_inner())
}
