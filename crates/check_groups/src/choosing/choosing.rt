//! For each row whether `&` can choose from the group that stands there.

ghost use Rattle.std.specs.Prelude.{IfOk, List};
ghost use Rattle.cddl_language.specs.Terms as L;
ghost use Rattle.cddl_language.specs.Terms.{Ref, Text};
ghost use Rattle.check_names.specs.Kinds.Kinds.{AreKinds};
ghost use Rattle.check_instances.specs.Closed.Closed.{IsClosed};
ghost use Rattle.check_instances.specs.Openings.Openings.{AreOpenings};
ghost use Rattle.check_groups.specs.Choosing.Choosing.{AreChoosable};
ghost use Rattle.check_groups.specs.Choosing.Signs.{HaveEntries};

use crate::causes::cause::GroupProperty;
use crate::causes::flags::flags_of;
use check_instances::closed::Closed;
use check_instances::openings::Opening;
use check_instances::openings::laws::opened_is_reached;
use check_names::kinds::Kinds;
use check_terms::Terms;
use std::alloc::{AllocError, Global};

/// For each row of the table whether `&` can choose from what it stands for, where that is a group: whether each entry occurs
/// exactly once, through `//`, nested groups, names of groups and what is opened, and no group comes back to itself (RFC 8610
/// section 2.2.2.2).
///
/// The instances, the kinds and the openings are of this table. Flags of rows of other kinds, and of rows that stand for what
/// has references that are no instances, say nothing.
///
/// It takes a time in proportion to the rows and the texts of occurrences, and nothing recurses. An error comes only where
/// memory is refused, or where the rows have no numbers of 32 bits.
pub fn choosable(
    alloc: Global,
    terms: &Terms<'_>,
    closed: &Closed,
    kinds: &Kinds,
    openings: &[Opening],
) -> Result<Vec<bool>, AllocError>
    ensures { IfOk result (λ v. (xs : List L.Definition) (root : Text) (refs : List Ref) → HaveEntries xs → IsClosed xs root refs terms.now closed.now → AreKinds terms.now.texts xs kinds.now → AreOpenings xs terms.now refs openings.now → AreChoosable xs root terms.now v.items) }
{
    opened_is_reached();
    flags_of(
        alloc,
        terms,
        closed,
        kinds,
        openings,
        GroupProperty::CanChoose,
    )
}
