//! What rows are found to be, from those that they need.

ghost use Rattle.std.specs.Prelude.{◌≡◌, ◌<◌, ℕ, suc, Some, None, IfOk, max, option_map};
ghost use Rattle.std.specs.Result.{result_map_both};
ghost use Rattle.cddl_literal.specs.Literals.{view};
ghost use Rattle.check_literals.specs.Values.Values.{Answers, literal_of};
ghost use Rattle.cddl_language.specs.Literals.{Means, computed_from, computed_literal};
ghost use Rattle.cddl_language.specs.Reach.{most_instances};
ghost use Rattle.cddl_language.specs.Terms as L;
ghost use Rattle.check_terms.specs.Texts.Controls.{computation_view};
ghost use Rattle.check_literals.specs.Found.{IsFit, IsSound, IsTold, found_fault, found_value, names_at, place_at, value_within};
ghost use Rattle.check_literals.specs.Literals.{computed_fault};
ghost use Rattle.check_literals.specs.Needs.{need_view};
ghost use Rattle.check_literals.specs.declared.found.Progress as P;
ghost use Rattle.check_literals.specs.Written.{written_at};

use crate::known::{Literals, Outcome};
use crate::needs::Need;
use crate::values::{Written, value_of};
use cddl_literal::Literal;
use cddl_literal::operators::{Fault, joined, plus};
use check_instances::MOST_INSTANCES;
use check_terms::texts::Computation;
use check_terms::{Form, Terms};
use std::alloc::{AllocError, Global};

/// What a row is found to be.
#[derive(Drop)]
pub(crate) enum Found {
    /// No literal.
    Nothing,
    /// No literal, since its two sides make none.
    Faulty(Fault),
    /// The literal at a place among the values, through so many names.
    Shared { place: usize, names: usize },
    /// A literal that no row has yet, through so many names.
    New { literal: Literal, names: usize },
}

/// What is known of the rows so far.
#[derive(Drop)]
pub(crate) struct Progress {
    pub literals: Literals,
    /// For each row that is a literal through how many names it is.
    pub names: Vec<usize>,
}

// What a row is that needs this.
pub(crate) fn found_of(
    alloc: Global,
    terms: &Terms<'_>,
    need: Need,
    known: &Progress,
) -> Result<Found, AllocError>
    requires { (count : ℕ) × IsSound count known.now }
    ensures fit { IfOk result (IsFit known.now) }
    ensures told { IfOk result (λ f. IsTold terms.now (need_view need) (value_within known.now) (found_value known.now f) (found_fault f)) }
{
    match need {
        Need::Nothing => Ok(Found::Nothing),
        Need::Written(row) => read(alloc, terms, row),
        Need::Inside(row) => Ok(shared(known, row)),
        Need::Choice(row) => Ok(through_name(known, row)),
        Need::Both(computation, left, right) => computed(alloc, known, computation, left, right),
    }
}

// The value that is written in the row.
fn read(alloc: Global, terms: &Terms<'_>, row: u32) -> Result<Found, AllocError>
    ensures fit { (s : P.Progress) → IfOk result (IsFit s) }
    ensures told { (s : P.Progress) → IfOk result (λ f. (w : L.Literal) → written_at terms.now row ≡ Some w → (k : ℕ) → Answers (Means w) (found_value s f k)) }
{
    let Some(written) = written_at(terms, row) else {
        return Ok(Found::Nothing);
    };
    match value_of(alloc, written)? {
        Some(literal) => Ok(Found::New { literal, names: 0 }),
        None => Ok(Found::Nothing),
    }
}

fn written_at<'s>(terms: &Terms<'s>, number: u32) -> Option<Written<'s>>
    ensures { option_map literal_of result ≡ written_at terms.now number }
{
    let row = terms.row(number)?;
    let text = terms.text(row.text?)?;
    match row.form {
        Form::Number => Some(Written::Number(text)),
        Form::Text => Some(Written::Text(text)),
        Form::Bytes => Some(Written::Bytes(text)),
        _ => None,
    }
}

// The place of the row's literal, if it is one.
fn place_of(known: &Progress, row: u32) -> Option<usize>
    ensures { result ≡ place_at known.now row }
{
    match known.literals.rows.get(row as usize)? {
        Outcome::Value(place) => Some(*place),
        _ => None,
    }
}

fn names_of(known: &Progress, row: u32) -> usize
    ensures { result ≡ names_at known.now row }
{
    known.names.get(row as usize).copied().unwrap_or(0)
}

// The literal of the row.
fn shared(known: &Progress, row: u32) -> Found
    requires { (count : ℕ) × IsSound count known.now }
    ensures fit { IsFit known.now result }
    ensures told { (k : ℕ) → found_value known.now result k ≡ value_within known.now row k }
{
    match place_of(known, row) {
        Some(place) => Found::Shared {
            place,
            names: names_of(known, row),
        },
        None => Found::Nothing,
    }
}

// The literal of the row through one more name, where there may be so many.
fn through_name(known: &Progress, row: u32) -> Found
    requires { (count : ℕ) × IsSound count known.now }
    ensures fit { IsFit known.now result }
    ensures first { found_value known.now result 0 ≡ None }
    ensures told { (k : ℕ) → k < most_instances → found_value known.now result (suc k) ≡ value_within known.now row k }
{
    let names = names_of(known, row);
    if names >= MOST_INSTANCES {
        return Found::Nothing;
    }
    match place_of(known, row) {
        Some(place) => Found::Shared {
            place,
            names: names + 1,
        },
        None => Found::Nothing,
    }
}

// What is computed from the literals of two rows, where both are.
fn computed(
    alloc: Global,
    known: &Progress,
    computation: Computation,
    left: u32,
    right: u32,
) -> Result<Found, AllocError>
    requires { (count : ℕ) × IsSound count known.now }
    ensures fit { IfOk result (IsFit known.now) }
    ensures value { IfOk result (λ f. (k : ℕ) → found_value known.now f k ≡ computed_literal (computation_view computation) (value_within known.now left k) (value_within known.now right k)) }
    ensures fault { IfOk result (λ f. found_fault f ≡ computed_fault (computation_view computation) (value_within known.now left most_instances) (value_within known.now right most_instances)) }
{
    let Some(first) = known.literals.get(left) else {
        return Ok(Found::Nothing);
    };
    let Some(second) = known.literals.get(right) else {
        return Ok(Found::Nothing);
    };
    let names = greater(names_of(known, left), names_of(known, right));
    match computed_from(alloc, computation, first, second)? {
        Ok(literal) => Ok(Found::New { literal, names }),
        Err(fault) => Ok(Found::Faulty(fault)),
    }
}

fn greater(first: usize, second: usize) -> usize
    ensures { result ≡ max first second }
{
    if first < second { second } else { first }
}

// What is computed from two literals, or why there is none.
fn computed_from(
    alloc: Global,
    computation: Computation,
    left: &Literal,
    right: &Literal,
) -> Result<Result<Literal, Fault>, AllocError>
    ensures { IfOk result (λ r. result_map_both view (λ f. f) r ≡ computed_from (computation_view computation) (view left.now) (view right.now)) }
{
    match computation {
        Computation::Sum => Ok(plus(left, right)),
        Computation::Join(joining) => joined(alloc, joining, left, right),
    }
}
