//! What groups in maps stand for (RFC 8610 section 3.5): the alternatives of parts that are known by numbers, and what can be
//! reported for them before any is made.
#![tactic(auto)]

mod build;
pub mod laws;
mod pieces;
mod search;
mod summary;

ghost use Rattle.std.specs.Prelude.{◌≡◌, ◌↔◌, true, IfOk, IfSome, IsSome, map, vec_items};
ghost use Rattle.alternatives.specs.Search.{bad};
ghost use Rattle.alternatives.specs.Splices.{Alternatives, HasAlternatives};
ghost use Rattle.alternatives.specs.Summaries.{AreSummaries, AreTooMany, Describes, IsSmall, OccursBadly};

use crate::build::builder_of;
use crate::search::first_search;
pub use crate::summary::{MOST_ALTERNATIVES, MOST_MEMBERS, Sorts, Summary};
use crate::summary::{is_refused, summary_at};
use rooms::Room;
use std::alloc::{AllocError, Global};

/// How often at least and at most; None is without an end.
#[derive(Clone, Copy)]
pub struct Bounds {
    pub least: u64,
    pub most: Option<u64>,
}

/// A part of what groups in maps say. Others are named by their numbers; a number that is no part's stands for nothing.
#[derive(Clone, Copy)]
pub enum Part {
    /// An entry without a key, which a map may not have.
    Refused,
    /// An entry with a key. It goes by the number of this part.
    Entry(Bounds),
    /// No entries: one alternative, without members.
    Empty,
    /// A choice of nothing: no alternative.
    Nothing,
    /// What another part has.
    Same(usize),
    /// All ways to take an alternative of the first and then one of the second, the first slowest.
    Both(usize, usize),
    /// The alternatives of the first, then those of the second.
    Either(usize, usize),
    /// A group with an occurrence.
    Occurs(Bounds, usize),
}

/// An entry of an alternative: how many pairs may belong to it.
#[derive(Clone, Copy)]
pub struct Member {
    /// The number of the part that the entry is.
    pub entry: usize,
    pub bounds: Bounds,
}

/// For each part a summary of the alternatives that it stands for, or None where it stands for nothing.
///
/// The time is linear in the parts, whatever they are, and nothing recurses. An error comes only where memory is refused.
pub fn summaries(alloc: Global, parts: &[Part]) -> Result<Vec<Option<Summary>>, AllocError>
    ensures { IfOk result (λ v. AreSummaries parts.now v.items) }
{
    let mut search = first_search(alloc, parts.len())?;
    for number in 0..parts.len() {
        search.visit(parts, number)?;
    }
    Ok(search.summaries)
}

/// Whether the part is a group with an occurrence that no group may have, or that its alternatives may not have (section 3.2).
pub fn occurs_badly(parts: &[Part], summaries: &[Option<Summary>], number: usize) -> bool
    ensures { AreSummaries parts.now summaries.now → (result ≡ true) ↔ OccursBadly parts.now number }
{
    number < parts.len() && is_bad(summaries, parts[number])
}

// Whether a part with these summaries below it is a group that may not occur so.
fn is_bad(summaries: &[Option<Summary>], part: Part) -> bool
    ensures { result ≡ bad summaries.now part }
{
    match part {
        Part::Occurs(bounds, group) => is_refused(bounds, summary_at(summaries, group)),
        _ => false,
    }
}

/// Whether there are more alternatives than there may be, or more members in them together.
pub fn is_too_large(summary: Summary) -> bool
    ensures { (mss : Alternatives) → Describes mss summary → (result ≡ true) ↔ AreTooMany mss }
{
    summary.alternatives > MOST_ALTERNATIVES || summary.members > MOST_MEMBERS
}

/// The alternatives that the part stands for, by its summaries: None where it stands for nothing, and where it or a part that
/// it needs has too many. A part that stands for no alternative needs no other.
///
/// Nothing recurses, and no list is made that would be too large. Each part that is gone through takes one of the room, and so does
/// each that joins the lists of two, or lets one occur: parts without members are gone through too. An error comes only where
/// memory is refused, or where the room is too small.
pub fn alternatives(
    alloc: Global,
    parts: &[Part],
    summaries: &[Option<Summary>],
    number: usize,
    room: &mut Room,
) -> Result<Option<Vec<Vec<Member>>>, AllocError>
    ensures right { AreSummaries parts.now summaries.now → IfOk result (λ o. IfSome o (λ v. HasAlternatives parts.now number (map vec_items v.items))) }
    ensures all { AreSummaries parts.now summaries.now → IsSmall parts.now number → IfOk result IsSome }
{
    if summary_at(summaries, number).is_none() {
        return Ok(None);
    }
    let mut builder = builder_of(alloc, number, parts.len())?;
    if !builder.run(alloc, parts, summaries, room)? {
        return Ok(None);
    }
    Ok(builder.lists.pop())
}
