//! What is reported for an item, by a table and where its types stand.

ghost use Rattle.std.specs.Prelude.{IfOk, option_map, string_bytes};
ghost use Rattle.cddl_mismatch.specs.Explained.{IsToldBy, IsToldFrom};

use crate::lines::Source;
use crate::telling::told_of;
use cbor_item::Sound;
use cddl_check::Spec;
use cddl_reasons::find_reasons;
use cddl_sources::{Sourced, Sources, compile_with_sources};
use std::alloc::{AllocError, Global};
use table_nodes::Table;

// So many reasons are reported at most. Some may have the same line.
pub(crate) const MOST: usize = 20;

// Why the item does not match the specification, if it does not.
pub(crate) fn told_by_spec(
    alloc: Global,
    source: Source<'_>,
    spec: &Spec<'_>,
    item: &Sound,
    steps: u64,
) -> Result<String, AllocError>
    ensures { IfOk result (λ told. IsToldFrom source.entry.text.now source.entry.tokens.now source.entry.file.now (option_map (λ r. r.now) source.entry.root) spec.now item.now steps (string_bytes told)) }
{
    let sourced = compile_with_sources(alloc, spec)?;
    let Sourced { table, sources } = sourced;
    told_by(alloc, source, &table, &sources, item, steps)
}

// Why the root type of the table says no to the item, if it does.
fn told_by(
    alloc: Global,
    source: Source<'_>,
    table: &Table,
    sources: &Sources<'_>,
    item: &Sound,
    steps: u64,
) -> Result<String, AllocError>
    ensures { IfOk result (λ told. IsToldBy source.entry.text.now source.entry.tokens.now source.entry.file.now (option_map (λ r. r.now) source.entry.root) table.now sources.now item.now steps (string_bytes told)) }
{
    match find_reasons(alloc, table, item, steps, MOST)? {
        Some(reasons) => told_of(alloc, source, table, sources, item, &reasons),
        None => Ok(String::new(alloc)),
    }
}
