//! What the instances mean.

ghost use Rattle.std.specs.Prelude.{◌≡◌, ◌+◌, ◌≤◌, IfErr, IfOk, List, length};
ghost use Rattle.check_instances.specs.Closed.Closed.{IsClosed};
ghost use Rattle.check_instances.specs.Found.{AreFound};
ghost use Rattle.check_names.specs.Kinds.Kinds.{AreKinds};
ghost use Rattle.cddl_language.specs.Environment.{most_names};
ghost use Rattle.cddl_language.specs.Faults.{Specification, definitions};
ghost use Rattle.cddl_language.specs.Literals.{AreRight, Values};
ghost use Rattle.cddl_language.specs.Reach.{most_instances};
ghost use Rattle.cddl_language.specs.StandsFor.{AreInstances};
ghost use Rattle.cddl_language.specs.Terms.{Ref, Text};
ghost use Rattle.check_terms.specs.Table.{Grows};
ghost use Rattle.cddl_check.specs.Stages.{IsMeant};
ghost use Rattle.cddl_check.specs.declared.stopped.Stopped.TheVariants as Why;

use crate::stopped::Stopped;
use check_groups::choosing::choosable;
use check_groups::choosing::laws::texts_have_entries;
use check_instances::Instance;
use check_instances::closed::{Closed, close};
use check_instances::openings::{Opening, openings_of};
use check_literals::sizes::{Controllers, Members, controllers, members};
use check_literals::{Literals, literals};
use check_names::kinds::Kinds;
use check_terms::Terms;
use std::alloc::Global;

/// What the instances mean, by the rows of a table.
#[derive(Drop)]
pub struct Meant {
    pub closed: Closed,
    /// What `~` of each instance unwraps.
    pub openings: Vec<Opening>,
    /// The literals that types are.
    pub literals: Literals,
    /// For each row whether it may be a controller of `.size`, and of `.bits`.
    pub controllers: Controllers,
    /// The members of each such controller.
    pub members: Members,
    /// For each row whether `&` can choose from it.
    pub choosable: Vec<bool>,
}

// What the instances mean and open, which literals and controllers types are, and from which groups `&` can choose. The table
// grows by rows. There are so many definitions in the prelude and the text together.
pub(crate) fn close_instances(
    alloc: Global,
    terms: &mut Terms<'_>,
    found: &[Instance],
    kinds: &Kinds,
    most: usize,
) -> Result<Meant, Stopped>
    ensures grows { Grows terms.old terms.new }
    ensures texts { terms.new.texts ≡ terms.old.texts }
    ensures meant { IfOk result (λ m. (s : Specification) (worth : Values) (root : Text) (refs : List Ref) → AreRight s.tree worth → AreInstances (definitions s) root refs → length refs ≤ most_instances → AreFound (definitions s) terms.old found.now refs → AreKinds terms.old.texts (definitions s) kinds.now → most ≡ most_names (definitions s) → IsMeant (definitions s) worth root refs terms.new m) }
    ensures memory { IfErr result (λ e. e ≡ Why.Memory) }
{
    texts_have_entries();
    let closed = close(alloc, terms, found)?;
    let openings = openings_of(alloc, terms, &closed, kinds, most)?;
    let literals = literals(alloc, terms, &closed, kinds)?;
    let controllers = controllers(alloc, terms, &closed, kinds, &openings, &literals)?;
    let members = members(
        alloc,
        terms,
        &closed,
        kinds,
        &openings,
        &literals,
        &controllers,
    )?;
    let choosable = choosable(alloc, terms, &closed, kinds, &openings)?;
    Ok(Meant {
        closed,
        openings,
        literals,
        controllers,
        members,
        choosable,
    })
}
