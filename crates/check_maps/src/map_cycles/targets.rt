//! To whose group the entry of each row leads.

ghost use Rattle.std.specs.Prelude.{◌≡◌, IfOk, List};
ghost use Rattle.cddl_language.specs.Terms as L;
ghost use Rattle.cddl_language.specs.Terms.{Ref, Text};
ghost use Rattle.check_names.specs.Kinds.Kinds.{AreKinds};
ghost use Rattle.check_instances.specs.Closed.Closed.{IsClosed};
ghost use Rattle.check_instances.specs.Openings.Endings.{AreEndings};
ghost use Rattle.check_instances.specs.Openings.Openings.{AreOpenings};
ghost use Rattle.check_maps.specs.MapCycles.Coming.{AreTargets};

use crate::spliced::{Owner, target_of};
use check_instances::closed::Closed;
use check_instances::openings::Opening;
use check_names::kinds::Kinds;
use check_terms::Terms;
use std::alloc::{AllocError, Global};

// For each of so many rows to whose group its entry leads, where it is an entry's.
pub(crate) fn targets_of(
    alloc: Global,
    terms: &Terms<'_>,
    closed: &Closed,
    kinds: &Kinds,
    openings: &[Opening],
    endings: &[Option<u32>],
    rows: u32,
) -> Result<Vec<Option<Owner>>, AllocError>
    ensures { IfOk result (λ v. (xs : List L.Definition) (root : Text) (refs : List Ref) → IsClosed xs root refs terms.now closed.now → AreKinds terms.now.texts xs kinds.now → AreOpenings xs terms.now refs openings.now → AreEndings xs terms.now refs endings.now → AreTargets xs root refs terms.now rows v.items) }
{
    let mut targets = Vec::new(alloc);
    for row in 0..rows {
        targets.push(target_of(terms, closed, kinds, openings, endings, row))?;
    }
    Ok(targets)
}
