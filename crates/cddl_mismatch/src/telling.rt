//! The lines of reasons.

ghost use Rattle.std.specs.Prelude.{◌≡◌, ◌<◌, ◌++◌, ◌∷◌, [], List, IfOk, None, Some, length, map, option_map, slice_get, string_bytes};
ghost use Rattle.cddl_reasons.specs.declared.causes.Reason.{Reason as AnyReason};
ghost use Rattle.source_places.specs.declared.sources.Sources.{Sources as AllSources};
ghost use Rattle.table_nodes.specs.declared.table.Table.{Table as AllTable};
ghost use Rattle.cddl_mismatch.specs.Causes.{chain_of};
ghost use Rattle.cddl_mismatch.specs.Explained.{AreLines, AreTold, IsPlaceOf, IsPlaced, IsToldOf, IsToldOfRoot};

use crate::causes::{chain_of, told_cause};
use crate::keys::{key_words, told_place};
use crate::lines::{Source, line_at};
use crate::places::place_words;
use cbor_item::Sound;
use cddl_reasons::{Reason, Reasons};
use cddl_sources::{Place, Sources};
use mismatch_words::{push_line, root_line, told_lines};
use std::alloc::{AllocError, Global};
use table_nodes::Table;
use type_links::Link;

// What is reported for these reasons.
pub(crate) fn told_of(
    alloc: Global,
    source: Source<'_>,
    table: &Table,
    sources: &Sources<'_>,
    item: &Sound,
    reasons: &Reasons,
) -> Result<String, AllocError>
    ensures { IfOk result (λ told. AreTold source.entry.text.now source.entry.tokens.now source.entry.file.now (option_map (λ r. r.now) source.entry.root) table.now sources.now item.now reasons.now (string_bytes told)) }
{
    let lines = lines_of(alloc, source, table, sources, item, &reasons.list)?;
    told_lines(alloc, &lines, reasons.more)
}

// The lines of these reasons, in order.
fn lines_of(
    alloc: Global,
    source: Source<'_>,
    table: &Table,
    sources: &Sources<'_>,
    item: &Sound,
    reasons: &[Reason],
) -> Result<Vec<String>, AllocError>
    ensures { IfOk result (λ lines. AreLines source.entry.text.now source.entry.tokens.now source.entry.file.now (option_map (λ r. r.now) source.entry.root) table.now sources.now item.now reasons.now (map string_bytes lines.items)) }
{
    let mut lines = Vec::new(alloc);
    'reason: for k in 0..reasons.len() {
        add_line(
            alloc,
            source,
            table,
            sources,
            item,
            reason_at(reasons, k),
            &mut lines,
        )?;
    }
    Ok(lines)
}

// The reason at this index.
fn reason_at(reasons: &[Reason], index: usize) -> &Reason
    requires { index < length reasons.now }
    ensures { slice_get reasons.now index ≡ Some result.now }
{
    match reasons.get(index) {
        Some(reason) => reason,
        None => unreachable!(),
    }
}

// Puts the line of one reason more after others, if it is not there already.
fn add_line(
    alloc: Global,
    source: Source<'_>,
    table: &Table,
    sources: &Sources<'_>,
    item: &Sound,
    reason: &Reason,
    lines: &mut Vec<String>,
) -> Result<(), AllocError>
    ensures { IfOk result (λ _. (before : List AnyReason) → AreLines source.entry.text.now source.entry.tokens.now source.entry.file.now (option_map (λ r. r.now) source.entry.root) table.now sources.now item.now before (map string_bytes lines.old.items) → AreLines source.entry.text.now source.entry.tokens.now source.entry.file.now (option_map (λ r. r.now) source.entry.root) table.now sources.now item.now (before ++ reason.now ∷ []) (map string_bytes lines.new.items)) }
{
    match place_of(alloc, sources, reason)? {
        Some(place) => {
            let line = line_of(alloc, source, table, place, item, reason)?;
            push_line(lines, line)?;
            return Ok(());
        }
        None => {
            add_root_line(alloc, source, item, reason, lines)?;
            return Ok(());
        }
    }
}

// The same, where the types of the reason stand nowhere in the text.
fn add_root_line(
    alloc: Global,
    source: Source<'_>,
    item: &Sound,
    reason: &Reason,
    lines: &mut Vec<String>,
) -> Result<(), AllocError>
    ensures { IfOk result (λ _. (table : AllTable) (sources : AllSources) (before : List AnyReason) → IsPlaced sources reason.now None → AreLines source.entry.text.now source.entry.tokens.now source.entry.file.now (option_map (λ r. r.now) source.entry.root) table sources item.now before (map string_bytes lines.old.items) → AreLines source.entry.text.now source.entry.tokens.now source.entry.file.now (option_map (λ r. r.now) source.entry.root) table sources item.now (before ++ reason.now ∷ []) (map string_bytes lines.new.items)) }
{
    match source.root {
        Some(root) => {
            let line = line_of_root(alloc, root, item, reason)?;
            push_line(lines, line)?;
            return Ok(());
        }
        None => return Ok(()),
    }
}

// Where the last type of a reason stands, or the key that it names.
fn place_of(
    alloc: Global,
    sources: &Sources<'_>,
    reason: &Reason,
) -> Result<Option<Place>, AllocError>
    ensures { IfOk result (λ place. IsPlaced sources.now reason.now place) }
{
    let Some(named) = named_place(alloc, sources, reason)? else {
        return Ok(None);
    };
    let holder = place_by(alloc, sources, &reason.links)?;
    Ok(Some(told_place(reason.cause, named, holder)))
}

// Where what the links of a reason and its cause lead to stands.
fn named_place(
    alloc: Global,
    sources: &Sources<'_>,
    reason: &Reason,
) -> Result<Option<Place>, AllocError>
    ensures { IfOk result (λ place. IsPlaceOf sources.now (chain_of reason.now) place) }
{
    let chain = chain_of(alloc, reason)?;
    sources.place(alloc, &chain)
}

// Where what these links lead to stands.
fn place_by(
    alloc: Global,
    sources: &Sources<'_>,
    links: &[Link],
) -> Result<Option<Place>, AllocError>
    ensures { IfOk result (λ place. IsPlaceOf sources.now links.now place) }
{
    sources.place(alloc, links)
}

// The line of a reason whose last type stands at this place.
fn line_of(
    alloc: Global,
    source: Source<'_>,
    table: &Table,
    place: Place,
    item: &Sound,
    reason: &Reason,
) -> Result<String, AllocError>
    ensures { IfOk result (λ line. IsToldOf source.entry.text.now source.entry.tokens.now source.entry.file.now table.now place item.now reason.now (string_bytes line)) }
{
    let found = place_words(alloc, item.item(), &reason.strings, reason.place)?;
    let key = key_words(alloc, table, reason.cause)?;
    line_at(
        alloc,
        source,
        place,
        found.as_str(),
        told_cause(reason.greedy, reason.cause),
        key.as_str(),
    )
}

// The line of a reason whose types stand nowhere in the text, with this root.
fn line_of_root(
    alloc: Global,
    root: &str,
    item: &Sound,
    reason: &Reason,
) -> Result<String, AllocError>
    ensures { IfOk result (λ line. IsToldOfRoot root.now item.now reason.now (string_bytes line)) }
{
    let words = place_words(alloc, item.item(), &reason.strings, reason.place)?;
    root_line(alloc, words.as_str(), root)
}
