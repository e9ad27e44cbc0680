//! What the rows of types are as entries.

ghost use Rattle.std.specs.Prelude.{◌≡◌, List, IfOk};
ghost use Rattle.cddl_language.specs.Terms as L;
ghost use Rattle.cddl_language.specs.Terms.{Ref, Text};
ghost use Rattle.check_names.specs.Kinds.Kinds.{AreKinds};
ghost use Rattle.check_instances.specs.Closed.Closed.{IsClosed};
ghost use Rattle.check_instances.specs.Openings.Openings.{AreOpenings};
ghost use Rattle.check_recursion.specs.Order.{AreParts};

use check_instances::closed::Closed;
use check_instances::openings::{Opening, Part, part_of};
use check_names::kinds::Kinds;
use check_terms::Terms;
use std::alloc::{AllocError, Global};

// For each of so many rows what it is as an entry, where it is a type's.
pub(crate) fn parts_of(
    alloc: Global,
    terms: &Terms<'_>,
    closed: &Closed,
    kinds: &Kinds,
    openings: &[Opening],
    rows: u32,
) -> Result<Vec<Part>, AllocError>
    ensures { IfOk result (λ v. (xs : List L.Definition) (root : Text) (refs : List Ref) → IsClosed xs root refs terms.now closed.now → AreKinds terms.now.texts xs kinds.now → AreOpenings xs terms.now refs openings.now → AreParts xs root refs terms.now rows v.items) }
{
    let mut parts = Vec::new(alloc);
    for row in 0..rows {
        parts.push(part_of(terms, closed, kinds, openings, row))?;
    }
    Ok(parts)
}
