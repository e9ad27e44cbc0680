//! What the groups in maps stand for.

ghost use Rattle.std.specs.Prelude.{◌≡◌, IfErr, IfOk, List};
ghost use Rattle.check_names.specs.Kinds.Kinds.{AreKinds};
ghost use Rattle.cddl_language.specs.Faults.{Specification, definitions};
ghost use Rattle.cddl_language.specs.Literals.{Values};
ghost use Rattle.cddl_language.specs.Terms.{Ref, Text};
ghost use Rattle.cddl_check.specs.Stages.{AreSplices, IsMeant};
ghost use Rattle.cddl_check.specs.declared.stopped.Stopped.TheVariants as Why;

use crate::closing::Meant;
use crate::stopped::Stopped;
use alternatives::{Part, Summary, summaries};
use check_groups::splices::parts_of;
use check_names::kinds::Kinds;
use check_terms::Terms;
use std::alloc::Global;

/// What groups in maps stand for: a part for each row of a table, and one after them.
#[derive(Drop)]
pub struct Splices {
    pub parts: Vec<Part>,
    /// How many alternatives each part has, and of which sorts.
    pub summaries: Vec<Option<Summary>>,
}

// What the groups in maps stand for (RFC 8610 section 3.5), by the rows of the table.
pub(crate) fn splices_of(
    alloc: Global,
    terms: &Terms<'_>,
    kinds: &Kinds,
    meant: &Meant,
) -> Result<Splices, Stopped>
    ensures found { IfOk result (λ x. (s : Specification) (worth : Values) (root : Text) (refs : List Ref) → AreKinds terms.now.texts (definitions s) kinds.now → IsMeant (definitions s) worth root refs terms.now meant.now → AreSplices (definitions s) root terms.now x) }
    ensures memory { IfErr result (λ e. e ≡ Why.Memory) }
{
    let parts = parts_of(alloc, terms, &meant.closed, kinds, &meant.openings)?;
    let summaries = summaries(alloc, &parts)?;
    Ok(Splices { parts, summaries })
}
