//! The table of a specification, and where its types stand in the text: the rule, and the offsets of the type in it.
#![tactic(auto)]

ghost use Rattle.std.specs.Prelude.{IfOk};
ghost use Rattle.cddl_table.specs.Ranks.{LeavesNoRankOut};
ghost use Rattle.cddl_table.specs.Text.{IsTableOf};
ghost use Rattle.cddl_sources.specs.Compiled.{AreSourcesOf};

use cddl_check::Spec;
use cddl_table::{Traced, compile_with_origins};
use check_instances::closed::laws::meaning_at;
use check_terms::NoRoom;
pub use source_pieces::Span;
use source_places::sources_at;
pub use source_places::{Place, Sources};
use std::alloc::{AllocError, Global};
use table_nodes::Table;

/// A table, and where its types stand in the text.
#[derive(Drop)]
pub struct Sourced<'s> {
    /// The table.
    pub table: Table,
    /// The places of its types.
    pub sources: Sources<'s>,
}

/// The table of a specification, as `cddl_table::compile` makes it, and where its types stand in the text.
///
/// It takes what `compile` takes, and then what `source_places::sources_at` does: a copy of the table of terms, which stays, and a
/// time in proportion to the nodes of the tree, each read once for each bracket in which it stands, of which the parser has 128 at
/// most.
///
/// # Errors
///
/// Memory was refused, or a number does not fit.
pub fn compile_with_sources<'s>(alloc: Global, spec: &Spec<'s>) -> Result<Sourced<'s>, AllocError>
    ensures stands { IfOk result (λ x. IsTableOf spec.now x.table) }
    ensures ranks { IfOk result (λ x. LeavesNoRankOut x.table) }
    ensures sources { IfOk result (λ x. AreSourcesOf spec.now x.table x.sources) }
{
    meaning_at();
    let findings = spec.findings();
    let traced = compile_with_origins(alloc, findings)?;
    let Traced { table, origins } = traced;
    let meanings = &findings.meant.closed.meanings;
    match sources_at(alloc, &findings.terms, meanings, spec.tree(), origins) {
        Ok(sources) => Ok(Sourced { table, sources }),
        Err(NoRoom) => Err(AllocError),
    }
}
