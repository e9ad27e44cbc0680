//! For each row whether the group, the entries or the entry that stands there may be empty.

ghost use Rattle.std.specs.Prelude.{IfOk, List};
ghost use Rattle.cddl_language.specs.Terms as L;
ghost use Rattle.cddl_language.specs.Terms.{Ref, Text};
ghost use Rattle.check_names.specs.Kinds.Kinds.{AreKinds};
ghost use Rattle.check_instances.specs.Closed.Closed.{IsClosed};
ghost use Rattle.check_instances.specs.Openings.Openings.{AreOpenings};
ghost use Rattle.check_groups.specs.Empty.Empty.{AreEmpty};

use crate::causes::cause::GroupProperty;
use crate::causes::flags::flags_of;
use check_instances::closed::Closed;
use check_instances::openings::Opening;
use check_names::kinds::Kinds;
use check_terms::Terms;
use std::alloc::{AllocError, Global};

/// For each row of the table whether what it stands for may be empty, where that is a group, the entries of an alternative or
/// an entry: whether it may match no element of an array and no pair of a map (RFC 8610 sections 2.2 and 3.2). An entry may be
/// empty where its occurrence lets it stand no time, or where it is a group that may be empty.
///
/// The instances, the kinds and the openings are of this table. Flags of other rows, and of rows with references that are no
/// instances, say nothing.
///
/// It takes a time in proportion to the rows and to the texts of their occurrences, and nothing recurses. An error comes only
/// where memory is refused, or where there are 2^32 rows or more.
pub fn may_be_empty(
    alloc: Global,
    terms: &Terms<'_>,
    closed: &Closed,
    kinds: &Kinds,
    openings: &[Opening],
) -> Result<Vec<bool>, AllocError>
    ensures { IfOk result (λ v. (xs : List L.Definition) (root : Text) (refs : List Ref) → IsClosed xs root refs terms.now closed.now → AreKinds terms.now.texts xs kinds.now → AreOpenings xs terms.now refs openings.now → AreEmpty xs root terms.now v.items) }
{
    flags_of(
        alloc,
        terms,
        closed,
        kinds,
        openings,
        GroupProperty::MayBeEmpty,
    )
}
