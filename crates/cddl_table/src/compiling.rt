//! The table of a specification that was checked.

ghost use Rattle.std.specs.Prelude.{IfOk, List};
ghost use Rattle.tree_nodes.specs.Syntax.Syntax.{Cddl};
ghost use Rattle.tree_nodes.specs.View.{view};
ghost use Rattle.tree_nodes.specs.declared.tree.Tree.{Tree};
ghost use Rattle.cddl_language.specs.Literals.{AreRight, Values};
ghost use Rattle.cddl_language.specs.Terms.{Ref, Text};
ghost use Rattle.cddl_check.specs.Spec.{AreFindings, IsSpec, definitions_of};
ghost use Rattle.table_making.specs.Basis.{IsSource};
ghost use Rattle.cddl_table.specs.Origins.{AreTraced};
ghost use Rattle.cddl_table.specs.Ranks.{LeavesNoRankOut};
ghost use Rattle.cddl_table.specs.Text.{IsTableOf, sense};

use crate::table::{Traced, Unmade, traced_of};
use cddl_check::{Findings, Spec};
use cddl_language::one_table_of_values;
use std::alloc::{AllocError, Global};
use table_making::Source;
use table_nodes::Table;

/// The table of a specification (RFC 8610 sections 2 and 3): a type or a group for each of its instances and for what their
/// parts ask for, each with a rank that is above those of what it asks of the same item.
///
/// The ranks are numbered by their order, without gaps, so the greatest is at most the number of the table's types and groups.
///
/// It takes memory in proportion to the forms that are made, and time too, but for the ranks, which are sorted: n log n for n
/// types and groups. Nothing recurses.
///
/// # Errors
///
/// Memory was refused, the forms have more parts than there is room for, or a number does not fit. Nothing else is refused of what
/// was checked.
pub fn compile(alloc: Global, spec: &Spec<'_>) -> Result<Table, AllocError>
    ensures stands { IfOk result (IsTableOf spec.now) }
    ensures ranks { IfOk result LeavesNoRankOut }
{
    let traced = compile_with_origins(alloc, spec.findings())?;
    let Traced { table, .. } = traced;
    Ok(table)
}

/// The table of a specification, made of what was found of it, with what each of its types is of: by the numbers of the terms
/// and of the instances that the findings have.
///
/// It takes what [`compile`] takes.
///
/// # Errors
///
/// Memory was refused, the forms have more parts than there is room for, or a number does not fit. Nothing else is refused of what
/// was checked.
pub fn compile_with_origins(alloc: Global, findings: &Findings<'_>) -> Result<Traced, AllocError>
    requires { (tree : Tree) × (root : Text) × IsSpec tree root findings.now }
    ensures stands { IfOk result (λ x. (tree : Tree) (root : Text) → IsSpec tree root findings.now → IsTableOf (record { tree = tree; root = root }) x.table) }
    ensures ranks { IfOk result (λ x. LeavesNoRankOut x.table) }
    ensures traced { IfOk result (λ x. (tree : Tree) (root : Text) → IsSpec tree root findings.now → AreTraced (view tree) root findings.now x) }
{
    one_table_of_values();
    let source = source_of(findings);
    match traced_of(
        alloc,
        &findings.terms,
        &source,
        &findings.ranks,
        findings.root,
    ) {
        Ok(traced) => Ok(traced),
        Err(Unmade::NoRoom) => Err(AllocError),
        Err(Unmade::NotRanked) => unreachable!(),
    }
}

// What the types and groups of the table are made from.
fn source_of<'f>(findings: &'f Findings<'_>) -> Source<'f>
    ensures { (x : Cddl) (worth : Values) (root : Text) (refs : List Ref) → AreRight x worth → AreFindings (definitions_of x) worth root refs findings.now → IsSource (sense x worth root refs) findings.now.terms result }
{
    let meant = &findings.meant;
    let splices = &findings.splices;
    Source {
        closed: &meant.closed,
        kinds: &findings.kinds,
        openings: &meant.openings,
        literals: &meant.literals,
        members: &meant.members,
        choosable: &meant.choosable,
        parts: &splices.parts,
        summaries: &splices.summaries,
    }
}
