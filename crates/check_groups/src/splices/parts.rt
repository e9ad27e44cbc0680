//! The parts of rows.

ghost use Rattle.std.specs.Prelude.{◌≡◌, IfOk, List};
ghost use Rattle.cddl_language.specs.Terms as L;
ghost use Rattle.cddl_language.specs.Terms.{Ref, Text};
ghost use Rattle.check_names.specs.Kinds.Kinds.{AreKinds};
ghost use Rattle.check_instances.specs.Closed.Closed.{IsClosed};
ghost use Rattle.check_instances.specs.Openings.Openings.{AreOpenings};
ghost use Rattle.check_groups.specs.Causes.Resolved.{IsResolved};
ghost use Rattle.check_groups.specs.Splices.Parts.{AreParts, IsPartAt};
ghost use Rattle.check_groups.specs.Splices.Rows.{part_of, row_or};

use crate::causes::rows::{GroupRow, occurrence_at, row_at};
use crate::splices::bounds::bounds_at;
use alternatives::{Bounds, Part};
use check_instances::closed::Closed;
use check_instances::openings::Opening;
use check_names::kinds::Kinds;
use check_terms::Terms;
use std::alloc::{AllocError, Global};

/// What each row says in the group of a map, by the numbers of rows (RFC 8610 section 3.5). A last part more, whose number is
/// that of the rows, is a group without alternatives: what a socket without definitions names.
///
/// The instances, the kinds and the openings are of this table. Parts of rows that are of no group, no entries and no entry,
/// and of rows that stand for what has references that are no instances, say nothing.
///
/// It takes a time in proportion to the rows and the texts of occurrences, and nothing recurses. An error comes only where
/// memory is refused, where the rows have no numbers of 32 bits, or where an occurrence has a number of 2^64 or more, which no
/// token has.
pub fn parts_of(
    alloc: Global,
    terms: &Terms<'_>,
    closed: &Closed,
    kinds: &Kinds,
    openings: &[Opening],
) -> Result<Vec<Part>, AllocError>
    ensures { IfOk result (λ v. (xs : List L.Definition) (root : Text) (refs : List Ref) → IsClosed xs root refs terms.now closed.now → AreKinds terms.now.texts xs kinds.now → AreOpenings xs terms.now refs openings.now → AreParts xs root terms.now v.items) }
{
    let count = terms.row_count()?;
    let mut parts = Vec::new(alloc);
    for number in 0..count {
        let part = part_at(terms, closed, kinds, openings, number)?;
        parts.push(part)?;
    }
    parts.push(Part::Nothing)?;
    Ok(parts)
}

fn part_at(
    terms: &Terms<'_>,
    closed: &Closed,
    kinds: &Kinds,
    openings: &[Opening],
    number: u32,
) -> Result<Part, AllocError>
    ensures { IfOk result (λ p. (xs : List L.Definition) (root : Text) (refs : List Ref) → IsResolved xs root refs terms.now closed.now kinds.now openings.now → IsPartAt xs root terms.now number p) }
{
    let row = row_at(terms, closed, kinds, openings, number);
    let bounds = bounds_at(terms, occurrence_at(row))?;
    Ok(part_of(row, bounds, terms.len()))
}

// The part of a row, where an entry may stand so often and `nothing` is the number of a group without alternatives. A map has
// no entry that is a type without a key.
fn part_of(row: GroupRow, bounds: Bounds, nothing: usize) -> Part
    ensures { result ≡ part_of row bounds nothing }
{
    match row {
        GroupRow::Other => Part::Refused,
        GroupRow::Sole(entries) => Part::Same(entries as usize),
        GroupRow::OrElse(group, entries) => Part::Either(group as usize, entries as usize),
        GroupRow::NoEntries => Part::Empty,
        GroupRow::Entries(entries, entry) => Part::Both(entries as usize, entry as usize),
        GroupRow::Type(_) => Part::Refused,
        GroupRow::Pair(_) => Part::Entry(bounds),
        GroupRow::Group(_, group) => Part::Occurs(bounds, row_or(group, nothing)),
    }
}

fn row_or(group: Option<u32>, nothing: usize) -> usize
    ensures { result ≡ row_or group nothing }
{
    match group {
        Some(group) => group as usize,
        None => nothing,
    }
}
