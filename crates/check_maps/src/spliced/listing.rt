//! The entries that are spliced into maps that the root reaches, each with its owner and its offset.

ghost use Rattle.std.specs.Prelude.{◌≡◌, IfOk, List, slice_get};
ghost use Rattle.check_instances.specs.Closed.Closed.{IsClosed};
ghost use Rattle.check_names.specs.Kinds.Kinds.{AreKinds};
ghost use Rattle.cddl_language.specs.Live.Live.{IsClear};
ghost use Rattle.check_reached.specs.Asked.{AreEntriesAsked};
ghost use Rattle.cddl_language.specs.Faults.{Specification, definitions, rules};
ghost use Rattle.cddl_language.specs.Terms as L;
ghost use Rattle.cddl_language.specs.Terms.{Ref, Text};
ghost use Rattle.check_instances.specs.Openings.Endings.{AreEndings};
ghost use Rattle.check_instances.specs.Openings.Openings.{AreOpenings};
ghost use Rattle.check_maps.specs.Spliced.Spliced.{AreSpliced, AreWays};
ghost use Rattle.check_maps.specs.Spliced.Steps as by;

use crate::spliced::edges::{edges_of, fact_of};
use crate::spliced::owners::{Owner, Way, owner_of, target_of};
use cddl_language::live::{reached_parts, reached_rules};
use check_instances::MOST_INSTANCES;
use check_instances::closed::Closed;
use check_instances::openings::Opening;
use check_names::kinds::Kinds;
use check_reached::Asked;
use check_sites::entries::laws::{bare_groups, spliced_groups};
use check_terms::Terms;
use check_terms::laws::equal_numbers;
use graphs::implications::following;
use std::alloc::{AllocError, Global};

/// How many facts there may be: two for each instance.
const FACTS: usize = 2 * MOST_INSTANCES;

/// An entry of the text that is spliced into a map.
#[derive(Clone, Copy)]
pub struct Spliced {
    pub owner: Owner,
    /// The row of the entry, with the arguments of the instance in the place of the parameters.
    pub row: u32,
    /// The offset in bytes of its first token.
    pub at: usize,
}

/// The entries that are spliced into a map that the root reaches (RFC 8610 sections 3.5 and 3.7): its own, and those of each
/// group that one of them names or opens.
///
/// The questions are those of [`check_reached::entry_questions`], and the endings those of
/// [`check_instances::openings::endings_of`]. It takes a time in proportion to them. An error comes only where memory is refused.
pub fn spliced_entries(
    alloc: Global,
    terms: &Terms<'_>,
    closed: &Closed,
    kinds: &Kinds,
    openings: &[Opening],
    endings: &[Option<u32>],
    asked: &[Asked],
) -> Result<Vec<Spliced>, AllocError>
    ensures { IfOk result (λ v. (s : Specification) (root : Text) (refs : List Ref) → IsClear s → IsClosed (definitions s) root refs terms.now closed.now → AreKinds terms.now.texts (definitions s) kinds.now → AreOpenings (definitions s) terms.now refs openings.now → AreEndings (definitions s) terms.now refs endings.now → AreEntriesAsked (rules s) root terms.now asked.now → AreSpliced (rules s) root terms.now refs v.items) }
{
    equal_numbers(terms);
    spliced_groups();
    bare_groups();
    reached_parts();
    reached_rules();
    let ways = ways_of(alloc, terms, closed, kinds, openings, endings, asked)?;
    let edges = edges_of(alloc, &ways)?;
    let flags = following(alloc, FACTS, &edges)?;
    flagged(alloc, closed, &flags, asked)
}

// For each entry of which it was asked in whose group it stands, and to whose group it leads.
fn ways_of(
    alloc: Global,
    terms: &Terms<'_>,
    closed: &Closed,
    kinds: &Kinds,
    openings: &[Opening],
    endings: &[Option<u32>],
    asked: &[Asked],
) -> Result<Vec<Way>, AllocError>
    ensures { IfOk result (λ v. (xs : List L.Definition) (root : Text) (refs : List Ref) → IsClosed xs root refs terms.now closed.now → AreKinds terms.now.texts xs kinds.now → AreOpenings xs terms.now refs openings.now → AreEndings xs terms.now refs endings.now → AreWays xs root terms.now refs closed.now.places.items asked.now v.items) }
{
    let mut ways = Vec::new(alloc);
    for question in asked {
        ways.push(Way {
            owner: owner_of(closed, *question),
            target: target_of(terms, closed, kinds, openings, endings, question.row),
        })?;
    }
    Ok(ways)
}

// The entries whose owner is flagged.
fn flagged(
    alloc: Global,
    closed: &Closed,
    flags: &[bool],
    asked: &[Asked],
) -> Result<Vec<Spliced>, AllocError>
    ensures { IfOk result (λ v. v.items ≡ by.flagged closed.now.places.items flags.now asked.now) }
{
    let mut spliced = Vec::new(alloc);
    for question in asked {
        if let Some(entry) = flagged_entry(closed, flags, *question) {
            spliced.push(entry)?;
        }
    }
    Ok(spliced)
}

// The entry, if its owner is flagged.
fn flagged_entry(closed: &Closed, flags: &[bool], asked: Asked) -> Option<Spliced>
    ensures { result ≡ by.flagged_entry closed.now.places.items flags.now asked }
{
    let owner = owner_of(closed, asked)?;
    if is_flagged(flags, owner) {
        Some(Spliced {
            owner,
            row: asked.row,
            at: asked.at,
        })
    } else {
        None
    }
}

fn is_flagged(flags: &[bool], owner: Owner) -> bool
    ensures { result ≡ by.is_flagged flags.now owner }
{
    match fact_of(owner) {
        Some(fact) => flag_at(flags, fact),
        None => true,
    }
}

fn flag_at(flags: &[bool], fact: usize) -> bool
    ensures { result ≡ by.flag_in (slice_get flags.now fact) }
{
    match flags.get(fact) {
        Some(flag) => *flag,
        None => false,
    }
}
