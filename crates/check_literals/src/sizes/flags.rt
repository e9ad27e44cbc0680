//! Which rows' types may be controllers of `.size` and `.bits`.

ghost use Rattle.std.specs.Prelude.{◌≡◌, IfOk, List, map};
ghost use Rattle.check_instances.specs.Closed.Closed.{IsClosed};
ghost use Rattle.check_names.specs.Kinds.Kinds.{AreKinds};
ghost use Rattle.cddl_language.specs.Literals.{AreRight, Values};
ghost use Rattle.cddl_language.specs.Reading.{definitions_in, rules_of};
ghost use Rattle.cddl_language.specs.Terms.{Ref, Text};
ghost use Rattle.check_literals.specs.Literals.{AreLiterals};
ghost use Rattle.check_literals.specs.Sizes.Depths.{is_few};
ghost use Rattle.check_groups.specs.Causes.Rows.{AreRows};
ghost use Rattle.check_instances.specs.Openings.Openings.{AreOpenings};
ghost use Rattle.check_terms.specs.Texts.Controls.{membership_view};
ghost use Rattle.check_literals.specs.Sizes.Sizes.{AreControllers, AreSizable};
ghost use Rattle.tree_nodes.specs.Syntax.Syntax.{Cddl};

use crate::Literals;
use crate::sizes::depths::depths_of;
use crate::sizes::known::Controllers;
use crate::sizes::sources::sources;
use cddl_language::written::reached_values;
use check_groups::rows::{GroupRow, group_rows};
use check_instances::MOST_INSTANCES;
use check_instances::closed::Closed;
use check_instances::closed::laws::{meaning_at, meanings_are_reached, place_of};
use check_instances::openings::Opening;
use check_instances::openings::laws::part_is_reached;
use check_names::kinds::Kinds;
use check_terms::Terms;
use check_terms::texts::Membership;
use std::alloc::{AllocError, Global};

/// For each row of the table whether its type may be the controller of `.size`, and of `.bits`: an unsigned number, written or
/// computed, a range of such numbers, or a choice of these, through names of types and parentheses (RFC 8610 section 3.8.1), and
/// for `.bits` through `&` too (section 3.8.2). A name that needs itself is none.
///
/// It takes a time of n log n for the rows and the choices of the instances, and memory in proportion to them. An error comes
/// only where memory is refused, or where the table numbers no further row.
pub fn controllers(
    alloc: Global,
    terms: &Terms<'_>,
    closed: &Closed,
    kinds: &Kinds,
    openings: &[Opening],
    literals: &Literals,
) -> Result<Controllers, AllocError>
    ensures { IfOk result (λ v. (x : Cddl) (worth : Values) (root : Text) (refs : List Ref) → AreRight x worth → IsClosed (definitions_in (rules_of x)) root refs terms.now closed.now → AreKinds terms.now.texts (definitions_in (rules_of x)) kinds.now → AreOpenings (definitions_in (rules_of x)) terms.now refs openings.now → AreLiterals (definitions_in (rules_of x)) root worth terms.now literals.now → AreControllers (definitions_in (rules_of x)) root worth terms.now v) }
{
    let groups = group_rows(alloc, terms, closed, kinds, openings)?;
    let sizes = sizable(
        alloc,
        terms,
        closed,
        kinds,
        literals,
        &groups,
        Membership::Size,
    )?;
    let bits = sizable(
        alloc,
        terms,
        closed,
        kinds,
        literals,
        &groups,
        Membership::Bits,
    )?;
    Ok(Controllers { sizes, bits })
}

// For each row whether its type may be such a controller.
fn sizable(
    alloc: Global,
    terms: &Terms<'_>,
    closed: &Closed,
    kinds: &Kinds,
    literals: &Literals,
    groups: &[GroupRow],
    membership: Membership,
) -> Result<Vec<bool>, AllocError>
    ensures { IfOk result (λ v. (x : Cddl) (worth : Values) (root : Text) (refs : List Ref) → AreRight x worth → IsClosed (definitions_in (rules_of x)) root refs terms.now closed.now → AreKinds terms.now.texts (definitions_in (rules_of x)) kinds.now → AreLiterals (definitions_in (rules_of x)) root worth terms.now literals.now → AreRows (definitions_in (rules_of x)) root terms.now groups.now → AreSizable (definitions_in (rules_of x)) root worth terms.now (membership_view membership) v.items) }
{
    place_of(terms);
    meaning_at();
    meanings_are_reached();
    reached_values();
    part_is_reached();
    let sources = sources(alloc, terms, closed, kinds, literals, groups, membership)?;
    let depths = depths_of(alloc, &sources)?;
    flags_of(alloc, &depths)
}

// For each depth whether it is one, and not too great.
fn flags_of(alloc: Global, depths: &[Option<usize>]) -> Result<Vec<bool>, AllocError>
    ensures { IfOk result (λ v. v.items ≡ map is_few depths.now) }
{
    let mut flags = Vec::new(alloc);
    for depth in depths {
        flags.push(is_few(*depth))?;
    }
    Ok(flags)
}

fn is_few(depth: Option<usize>) -> bool
    ensures { result ≡ is_few depth }
{
    match depth {
        Some(depth) => depth <= MOST_INSTANCES,
        None => false,
    }
}
