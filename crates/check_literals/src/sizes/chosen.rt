//! Of what the members of a group are, from whose entries `&` chooses, one step down.

ghost use Rattle.std.specs.Prelude.{◌≡◌, IfOk, slice_get};
ghost use Rattle.check_literals.specs.Sizes.Sources.{alternatives_at, alternatives_in, by_name_view, group_row_view, group_view, inner_view, no_numbers, once_view, source_view, standing_view};

use crate::sizes::sources::{Source, one_row, two_rows};
use check_groups::choosing::is_once;
use check_groups::rows::{GroupRow, occurrence_at};
use check_instances::closed::Closed;
use check_terms::{Form, Row, Terms};
use std::alloc::{AllocError, Global};
use table_nodes::NumberRange;

// The group of the name of this reference.
pub(crate) fn choices_by_name(
    alloc: Global,
    closed: &Closed,
    reference: Option<u32>,
) -> Result<Source, AllocError>
    ensures { IfOk result (λ s. source_view s ≡ by_name_view closed.now reference) }
{
    let Some(reference) = reference else {
        return Ok(Source::Nothing);
    };
    match closed.places.get(reference as usize) {
        Some(Some(place)) => alternatives_in(alloc, closed, *place),
        _ => Ok(Source::Nothing),
    }
}

fn alternatives_in(alloc: Global, closed: &Closed, place: u32) -> Result<Source, AllocError>
    ensures { IfOk result (λ s. source_view s ≡ alternatives_in (slice_get closed.now.meanings.items place)) }
{
    match closed.meanings.get(place as usize) {
        Some(meaning) => named_group(alloc, meaning.group),
        None => Ok(Source::Nothing),
    }
}

// The group of this row, which stands behind a name. Without a row it has no alternatives.
fn named_group(alloc: Global, group: Option<u32>) -> Result<Source, AllocError>
    ensures { IfOk result (λ s. source_view s ≡ group_view group) }
{
    let Some(group) = group else {
        return Ok(no_numbers());
    };
    let mut rows = Vec::new(alloc);
    rows.push(group)?;
    Ok(Source::Choices(rows))
}

fn no_numbers() -> Source
    ensures { source_view result ≡ no_numbers }
{
    Source::Numbers(NumberRange { least: 1, last: 0 })
}

// Of what stands at the row of a group, of entries or of an entry.
pub(crate) fn group_source(
    alloc: Global,
    terms: &Terms<'_>,
    groups: &[GroupRow],
    row: Row,
    number: u32,
) -> Result<Source, AllocError>
    ensures { IfOk result (λ s. source_view s ≡ group_row_view terms.now.texts row.form row.first row.second (slice_get groups.now number)) }
{
    match groups.get(number as usize) {
        Some(standing) => once_source(alloc, terms, row, *standing),
        None => Ok(Source::Nothing),
    }
}

// An entry has to occur once.
fn once_source(
    alloc: Global,
    terms: &Terms<'_>,
    row: Row,
    standing: GroupRow,
) -> Result<Source, AllocError>
    ensures { IfOk result (λ s. source_view s ≡ once_view terms.now.texts row.form row.first row.second standing) }
{
    if is_once(terms, occurrence_at(standing)) {
        standing_source(alloc, row, standing)
    } else {
        Ok(Source::Nothing)
    }
}

fn standing_source(alloc: Global, row: Row, standing: GroupRow) -> Result<Source, AllocError>
    ensures { IfOk result (λ s. source_view s ≡ standing_view row.form row.first row.second standing) }
{
    match standing {
        GroupRow::Other => Ok(Source::Nothing),
        GroupRow::Sole(entries) => one_row(alloc, Some(entries)),
        GroupRow::OrElse(first, second) | GroupRow::Entries(first, second) => {
            two_rows(alloc, Some(first), Some(second))
        }
        GroupRow::NoEntries => Ok(no_numbers()),
        GroupRow::Type(_) => one_row(alloc, row.first),
        GroupRow::Pair(_) => one_row(alloc, row.second),
        GroupRow::Group(_, group) => inner_group(alloc, row.form, group),
    }
}

// The group in an entry, which is in parentheses or behind a name.
fn inner_group(alloc: Global, form: Form, group: Option<u32>) -> Result<Source, AllocError>
    ensures { IfOk result (λ s. source_view s ≡ inner_view form group) }
{
    match form {
        Form::Grouped => one_row(alloc, group),
        _ => named_group(alloc, group),
    }
}
