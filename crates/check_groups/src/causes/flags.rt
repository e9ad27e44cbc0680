//! At which rows a property holds: the least set that is closed under what follows from what.

ghost use Rattle.std.specs.Prelude.{◌≡◌, IfOk, List};
ghost use Rattle.cddl_language.specs.Terms as L;
ghost use Rattle.cddl_language.specs.Terms.{Ref, Text};
ghost use Rattle.check_groups.specs.Causes.Flags.{AreCauses, AreFlags, IsCauseAt, cause_of};
ghost use Rattle.check_groups.specs.Causes.Resolved.{IsResolved};

use crate::causes::cause::{GroupProperty, RowCause};
use crate::causes::rows::{GroupRow, row_at};
use crate::causes::rules::rules_of;
use crate::{choosing, empty};
use check_instances::closed::Closed;
use check_instances::openings::Opening;
use check_names::kinds::Kinds;
use check_terms::Terms;
use graphs::implications::following;
use std::alloc::{AllocError, Global};

// For each row of the table whether what stands there has the property.
pub(crate) fn flags_of(
    alloc: Global,
    terms: &Terms<'_>,
    closed: &Closed,
    kinds: &Kinds,
    openings: &[Opening],
    property: GroupProperty,
) -> Result<Vec<bool>, AllocError>
    ensures { IfOk result (λ v. (xs : List L.Definition) (root : Text) (refs : List Ref) → IsResolved xs root refs terms.now closed.now kinds.now openings.now → AreFlags property xs root terms.now v.items) }
{
    let causes = causes_of(alloc, terms, closed, kinds, openings, property)?;
    let rules = rules_of(alloc, &causes)?;
    following(alloc, causes.len(), &rules)
}

fn causes_of(
    alloc: Global,
    terms: &Terms<'_>,
    closed: &Closed,
    kinds: &Kinds,
    openings: &[Opening],
    property: GroupProperty,
) -> Result<Vec<RowCause>, AllocError>
    ensures { IfOk result (λ v. (xs : List L.Definition) (root : Text) (refs : List Ref) → IsResolved xs root refs terms.now closed.now kinds.now openings.now → AreCauses property xs root terms.now v.items) }
{
    let count = terms.row_count()?;
    let mut causes = Vec::new(alloc);
    for number in 0..count {
        causes.push(cause_at(terms, closed, kinds, openings, property, number))?;
    }
    Ok(causes)
}

fn cause_at(
    terms: &Terms<'_>,
    closed: &Closed,
    kinds: &Kinds,
    openings: &[Opening],
    property: GroupProperty,
    number: u32,
) -> RowCause
    ensures { (xs : List L.Definition) (root : Text) (refs : List Ref) → IsResolved xs root refs terms.now closed.now kinds.now openings.now → IsCauseAt property xs root terms.now number result }
{
    let row = row_at(terms, closed, kinds, openings, number);
    cause_of(terms, property, row)
}

fn cause_of(terms: &Terms<'_>, property: GroupProperty, row: GroupRow) -> RowCause
    ensures { result ≡ cause_of property terms.now.texts row }
{
    match property {
        GroupProperty::CanChoose => choosing::cause_of(terms, row),
        GroupProperty::MayBeEmpty => empty::cause_of(terms, row),
    }
}
