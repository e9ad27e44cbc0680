//! Which spliced entries lead back to the reference in whose group they stand.

ghost use Rattle.std.specs.Prelude.{IfOk, List};
ghost use Rattle.cddl_language.specs.Faults.{Specification, definitions, rules};
ghost use Rattle.cddl_language.specs.Terms.{Ref, Text};
ghost use Rattle.check_names.specs.Kinds.Kinds.{AreKinds};
ghost use Rattle.cddl_language.specs.Live.Live.{IsClear};
ghost use Rattle.check_instances.specs.Closed.Closed.{IsClosed};
ghost use Rattle.check_instances.specs.Openings.Endings.{AreEndings};
ghost use Rattle.check_instances.specs.Openings.Openings.{AreOpenings};
ghost use Rattle.check_maps.specs.Spliced.Spliced.{AreSpliced};
ghost use Rattle.check_maps.specs.MapCycles.Coming.{AreComingBack};

use crate::map_cycles::edges::edges_of;
use crate::map_cycles::layout::layout_of;
use crate::map_cycles::marks::marked;
use crate::map_cycles::targets::targets_of;
use crate::spliced::Spliced;
use cddl_language::live::reached_rules;
use cddl_language::more_names_change_nothing;
use check_groups::splices::parts_of;
use check_instances::closed::Closed;
use check_instances::openings::Opening;
use check_names::kinds::Kinds;
use check_terms::Terms;
use std::alloc::{AllocError, Global};

/// For each entry that is spliced into a map whether it leads back to the reference in whose group it stands, by itself or by an
/// entry of its group. RFC 8610 leaves open what recursion in a map means (section 3.5), so such an entry is refused.
///
/// The list is that of [`crate::spliced::spliced_entries`], for the same instances, kinds, openings and endings. Of an entry of a
/// map's own group the answer is false.
///
/// The time is linear in rows, instances and entries, and nothing recurses. An error comes only where memory is refused, or
/// where rows, entries or instances have no numbers of 32 bits, or an occurrence has a number of 2^64 or more, which no token
/// has.
pub fn coming_back(
    alloc: Global,
    terms: &Terms<'_>,
    closed: &Closed,
    kinds: &Kinds,
    openings: &[Opening],
    endings: &[Option<u32>],
    spliced: &[Spliced],
) -> Result<Vec<bool>, AllocError>
    ensures { IfOk result (λ v. (s : Specification) (root : Text) (refs : List Ref) → IsClear s → IsClosed (definitions s) root refs terms.now closed.now → AreKinds terms.now.texts (definitions s) kinds.now → AreOpenings (definitions s) terms.now refs openings.now → AreEndings (definitions s) terms.now refs endings.now → AreSpliced (rules s) root terms.now refs spliced.now → AreComingBack (definitions s) root terms.now refs spliced.now v.items) }
{
    more_names_change_nothing();
    reached_rules();
    let parts = parts_of(alloc, terms, closed, kinds, openings)?;
    let layout = layout_of(parts.len(), spliced.len(), closed.meanings.len());
    let Some(layout) = layout else {
        return Err(AllocError);
    };
    let targets = targets_of(alloc, terms, closed, kinds, openings, endings, layout.parts)?;
    let edges = edges_of(alloc, layout, &parts, &targets, spliced)?;
    marked(alloc, layout, &edges)
}
