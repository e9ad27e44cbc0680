//! Of what the members of the rows' types are, one step down.

ghost use Rattle.std.specs.Prelude.{◌≡◌, IfOk, length, slice_get};
ghost use Rattle.table_nodes.specs.Sizes.{size_view};
ghost use Rattle.check_literals.specs.Sizes.Sources.{AreSources, both_view, choices_at, choices_in, has_group_name, named_view, numbers, numbers_between, one_number, parts_in, range_to, row_view, source_of, source_view, type_view, uint_at, uint_in};
ghost use Rattle.cddl_language.specs.Sizes.{opens_choices};
ghost use Rattle.check_terms.specs.Texts.Controls.{membership_view};
ghost use Rattle.check_literals.specs.Literals.{literal_at};

use crate::Literals;
use crate::sizes::chosen::{choices_by_name, group_source};
use cddl_literal::Literal;
use check_groups::rows::GroupRow;
use check_instances::closed::Closed;
use check_names::kinds::Kinds;
use check_terms::texts::Membership;
use check_terms::{Form, Row, Terms};
use std::alloc::{AllocError, Global};
use table_nodes::NumberRange;

/// Of what the members of a row's type are.
#[derive(Drop)]
pub(crate) enum Source {
    /// It has none, as a text has none.
    Nothing,
    /// These numbers.
    Numbers(NumberRange),
    /// The members of all of these rows.
    Rows(Vec<u32>),
    /// The members of all of these rows, which stand behind a name.
    Choices(Vec<u32>),
}

// For each row of the table its source.
pub(crate) fn sources(
    alloc: Global,
    terms: &Terms<'_>,
    closed: &Closed,
    kinds: &Kinds,
    literals: &Literals,
    groups: &[GroupRow],
    membership: Membership,
) -> Result<Vec<Source>, AllocError>
    ensures { IfOk result (λ v. AreSources (membership_view membership) terms.now closed.now kinds.now literals.now groups.now v.items) }
{
    let count = terms.row_count()?;
    let mut sources = Vec::new(alloc);
    for number in 0..count {
        let source = source_of(
            alloc, terms, closed, kinds, literals, groups, membership, number,
        )?;
        sources.push(source)?;
    }
    Ok(sources)
}

fn source_of(
    alloc: Global,
    terms: &Terms<'_>,
    closed: &Closed,
    kinds: &Kinds,
    literals: &Literals,
    groups: &[GroupRow],
    membership: Membership,
    number: u32,
) -> Result<Source, AllocError>
    ensures { IfOk result (λ s. source_view s ≡ source_of (membership_view membership) terms.now closed.now kinds.now literals.now groups.now number) }
{
    let Some(row) = terms.row(number) else {
        return Ok(Source::Nothing);
    };
    match row.form {
        Form::ChoiceOf if opens_choices(membership) => one_row(alloc, row.first),
        Form::ChoiceOfName if opens_choices(membership) => {
            choices_by_name(alloc, closed, row.first)
        }
        Form::Sole
        | Form::OrElse
        | Form::NoEntries
        | Form::Entries
        | Form::EntriesComma
        | Form::Typed
        | Form::Keyed
        | Form::Grouped => group_source(alloc, terms, groups, row, number),
        _ => type_source(alloc, terms, closed, kinds, literals, row, number),
    }
}

// Whether there is a way through `&`.
fn opens_choices(membership: Membership) -> bool
    ensures { result ≡ opens_choices (membership_view membership) }
{
    match membership {
        Membership::Size => false,
        Membership::Bits => true,
    }
}

// The source of a row of a type, without ways through `&`.
fn type_source(
    alloc: Global,
    terms: &Terms<'_>,
    closed: &Closed,
    kinds: &Kinds,
    literals: &Literals,
    row: Row,
    number: u32,
) -> Result<Source, AllocError>
    ensures { IfOk result (λ s. source_view s ≡ type_view terms.now closed.now kinds.now literals.now number row.form row.first row.second) }
{
    match row.form {
        Form::Number | Form::Text | Form::Bytes | Form::Control => {
            Ok(one_number(uint_at(literals, Some(number))))
        }
        Form::Range => Ok(numbers_between(
            true,
            uint_at(literals, row.first),
            uint_at(literals, row.second),
        )),
        Form::RangeBelow => Ok(numbers_between(
            false,
            uint_at(literals, row.first),
            uint_at(literals, row.second),
        )),
        Form::Parens => one_row(alloc, row.first),
        Form::Or => two_rows(alloc, row.first, row.second),
        Form::Named => choices_of(alloc, terms, closed, kinds, row.first),
        _ => Ok(Source::Nothing),
    }
}

// The unsigned number that the row is, if it is one.
fn uint_at(literals: &Literals, row: Option<u32>) -> Option<u64>
    ensures { result ≡ uint_at literals.now row }
{
    match literals.get(row?) {
        Some(Literal::Uint(number)) => Some(*number),
        _ => None,
    }
}

fn one_number(number: Option<u64>) -> Source
    ensures { source_view result ≡ one_number number }
{
    match number {
        Some(number) => Source::Numbers(NumberRange {
            least: number,
            last: number,
        }),
        None => Source::Nothing,
    }
}

fn numbers_between(closed: bool, least: Option<u64>, last: Option<u64>) -> Source
    ensures { source_view result ≡ numbers_between closed least last }
{
    match (least, last) {
        (Some(least), Some(last)) => Source::Numbers(range_to(closed, least, last)),
        _ => Source::Nothing,
    }
}

// From the first number to the last, with the last one where the range is closed.
fn range_to(closed: bool, least: u64, last: u64) -> NumberRange
    ensures { size_view result ≡ range_to closed least last }
{
    if closed {
        return NumberRange { least, last };
    }
    if last == 0 {
        return NumberRange { least: 1, last: 0 };
    }
    NumberRange {
        least,
        last: last - 1,
    }
}

pub(crate) fn one_row(alloc: Global, row: Option<u32>) -> Result<Source, AllocError>
    ensures { IfOk result (λ s. source_view s ≡ row_view row) }
{
    let Some(row) = row else {
        return Ok(Source::Nothing);
    };
    let mut rows = Vec::new(alloc);
    rows.push(row)?;
    Ok(Source::Rows(rows))
}

pub(crate) fn two_rows(
    alloc: Global,
    first: Option<u32>,
    second: Option<u32>,
) -> Result<Source, AllocError>
    ensures { IfOk result (λ s. source_view s ≡ both_view first second) }
{
    let (Some(first), Some(second)) = (first, second) else {
        return Ok(Source::Nothing);
    };
    let mut rows = Vec::new(alloc);
    rows.push(first)?;
    rows.push(second)?;
    Ok(Source::Rows(rows))
}

// The choices of the name of this reference, where it is a type's.
fn choices_of(
    alloc: Global,
    terms: &Terms<'_>,
    closed: &Closed,
    kinds: &Kinds,
    reference: Option<u32>,
) -> Result<Source, AllocError>
    ensures { IfOk result (λ s. source_view s ≡ named_view terms.now.rows closed.now kinds.now reference) }
{
    let Some(reference) = reference else {
        return Ok(Source::Nothing);
    };
    if has_group_name(terms, kinds, reference) {
        return Ok(Source::Nothing);
    }
    choices_at(alloc, closed, reference)
}

fn has_group_name(terms: &Terms<'_>, kinds: &Kinds, reference: u32) -> bool
    ensures { result ≡ has_group_name kinds.now (slice_get terms.now.rows reference) }
{
    match terms.row(reference) {
        Some(
            Row {
                text: Some(name),
                ..
            },
        ) => kinds.is_group(name),
        _ => false,
    }
}

fn choices_at(alloc: Global, closed: &Closed, reference: u32) -> Result<Source, AllocError>
    ensures { IfOk result (λ s. source_view s ≡ choices_at closed.now.meanings.items (slice_get closed.now.places.items reference)) }
{
    match closed.places.get(reference as usize) {
        Some(Some(place)) => choices_in(alloc, closed, *place),
        _ => Ok(Source::Nothing),
    }
}

fn choices_in(alloc: Global, closed: &Closed, place: u32) -> Result<Source, AllocError>
    ensures { IfOk result (λ s. source_view s ≡ choices_in (slice_get closed.now.meanings.items place)) }
{
    let Some(meaning) = closed.meanings.get(place as usize) else {
        return Ok(Source::Nothing);
    };
    Ok(Source::Choices(copied(alloc, &meaning.types)?))
}

fn copied(alloc: Global, rows: &[u32]) -> Result<Vec<u32>, AllocError>
    ensures { IfOk result (λ v. v.items ≡ rows.now) }
{
    let mut copy = Vec::new(alloc);
    copy.extend_from_slice(rows)?;
    Ok(copy)
}

// The rows whose members those of the source are.
pub(crate) fn parts(source: &Source) -> &[u32]
    ensures { result.now ≡ parts_in (source_view source.now) }
{
    match source {
        Source::Rows(rows) | Source::Choices(rows) => rows.as_slice(),
        _ => &[],
    }
}
