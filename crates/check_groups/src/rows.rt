//! What stands at each row of a table that is a group's.

ghost use Rattle.std.specs.Prelude.{IfOk, List};
ghost use Rattle.cddl_language.specs.Terms as L;
ghost use Rattle.cddl_language.specs.Terms.{Ref, Text};
ghost use Rattle.check_groups.specs.Causes.Resolved.{IsResolved};
ghost use Rattle.check_groups.specs.Causes.Rows.{AreRows};

use crate::causes::rows::row_at;
pub use crate::causes::rows::{GroupRow, occurrence_at};
use check_instances::closed::Closed;
use check_instances::openings::Opening;
use check_names::kinds::Kinds;
use check_terms::Terms;
use std::alloc::{AllocError, Global};

/// For each row of the table what stands there, if that is a group, entries or an entry.
///
/// The instances, the kinds and the openings are of this table. It takes a time in proportion to the rows. An error comes only
/// where memory is refused, or where the rows have no numbers of 32 bits.
pub fn group_rows(
    alloc: Global,
    terms: &Terms<'_>,
    closed: &Closed,
    kinds: &Kinds,
    openings: &[Opening],
) -> Result<Vec<GroupRow>, AllocError>
    ensures { IfOk result (λ v. (xs : List L.Definition) (root : Text) (refs : List Ref) → IsResolved xs root refs terms.now closed.now kinds.now openings.now → AreRows xs root terms.now v.items) }
{
    let count = terms.row_count()?;
    let mut rows = Vec::new(alloc);
    for number in 0..count {
        rows.push(row_at(terms, closed, kinds, openings, number))?;
    }
    Ok(rows)
}
