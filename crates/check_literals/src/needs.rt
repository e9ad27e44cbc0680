//! What the literals of rows are determined from.

ghost use Rattle.std.specs.Prelude.{◌≡◌, IfOk, map, length, slice_get, option_map};
ghost use Rattle.cddl_language.specs.Controls.{computation_in};
ghost use Rattle.check_terms.specs.Texts.Controls.{computation_view};
ghost use Rattle.check_literals.specs.Needs.{AreNeeds, both_of, choice_of, control_by, has_group_name, inside_of, lone, need_at, need_view, only_type, place_of, type_there};
ghost use Rattle.check_literals.specs.Written.{text_by};

use check_instances::closed::{Closed, Meaning};
use check_names::kinds::Kinds;
use check_terms::texts::{Computation, Control, control_of};
use check_terms::{Form, Row, Terms};
use std::alloc::{AllocError, Global};

/// What the literal of a row is determined from.
#[derive(Clone, Copy)]
pub(crate) enum Need {
    /// The row is no literal.
    Nothing,
    /// A written value: from the text of this row.
    Written(u32),
    /// A type in parentheses: from the row in them.
    Inside(u32),
    /// A name: from the row of its one choice.
    Choice(u32),
    /// A control that computes: from the rows of its two sides.
    Both(Computation, u32, u32),
}

// What each row's literal is determined from.
pub(crate) fn needs_of(
    alloc: Global,
    terms: &Terms<'_>,
    closed: &Closed,
    kinds: &Kinds,
) -> Result<Vec<Need>, AllocError>
    ensures { IfOk result (λ v. AreNeeds terms.now closed.now kinds.now (length terms.now.rows) (map need_view v.items)) }
{
    let count = terms.row_count()?;
    let mut needs = Vec::new(alloc);
    for row in 0..count {
        needs.push(need_of(terms, closed, kinds, row))?;
    }
    Ok(needs)
}

fn need_of(terms: &Terms<'_>, closed: &Closed, kinds: &Kinds, number: u32) -> Need
    ensures { need_view result ≡ need_at terms.now closed.now kinds.now number }
{
    let Some(row) = terms.row(number) else {
        return Need::Nothing;
    };
    match row.form {
        Form::Number | Form::Text | Form::Bytes => Need::Written(number),
        Form::Parens => inside_of(row.first),
        Form::Named => choice_of(type_there(terms, closed, kinds, place_of(closed, row.first))),
        Form::Control => both_of(computation_of(terms, row.text), row.first, row.second),
        _ => Need::Nothing,
    }
}

fn inside_of(part: Option<u32>) -> Need
    ensures { need_view result ≡ inside_of part }
{
    match part {
        Some(row) => Need::Inside(row),
        None => Need::Nothing,
    }
}

fn choice_of(choice: Option<u32>) -> Need
    ensures { need_view result ≡ choice_of choice }
{
    match choice {
        Some(row) => Need::Choice(row),
        None => Need::Nothing,
    }
}

fn both_of(computation: Option<Computation>, left: Option<u32>, right: Option<u32>) -> Need
    ensures { need_view result ≡ both_of (option_map computation_view computation) left right }
{
    match (computation, left, right) {
        (Some(computation), Some(left), Some(right)) => Need::Both(computation, left, right),
        _ => Need::Nothing,
    }
}

// The place of the instance whose reference is in this row.
fn place_of(closed: &Closed, reference: Option<u32>) -> Option<u32>
    ensures { result ≡ place_of closed.now.places.items reference }
{
    *closed.places.get(reference? as usize)?
}

// The row of the one choice of the instance at this place, where its name is a type's.
fn type_there(terms: &Terms<'_>, closed: &Closed, kinds: &Kinds, place: Option<u32>) -> Option<u32>
    ensures { result ≡ type_there terms.now.rows kinds.now closed.now.meanings.items place }
{
    let meaning = closed.meanings.get(place? as usize)?;
    only_type(terms, kinds, meaning)
}

fn only_type(terms: &Terms<'_>, kinds: &Kinds, meaning: &Meaning) -> Option<u32>
    ensures { result ≡ only_type terms.now.rows kinds.now meaning.now }
{
    if has_group_name(terms, kinds, meaning.call) {
        return None;
    }
    lone(&meaning.types)
}

fn has_group_name(terms: &Terms<'_>, kinds: &Kinds, call: u32) -> bool
    ensures { result ≡ has_group_name kinds.now (slice_get terms.now.rows call) }
{
    match terms.row(call) {
        Some(
            Row {
                text: Some(name),
                ..
            },
        ) => kinds.is_group(name),
        _ => false,
    }
}

fn lone(rows: &[u32]) -> Option<u32>
    ensures { result ≡ lone rows.now }
{
    match rows {
        [row] => Some(*row),
        _ => None,
    }
}

// How the control whose name is this text computes, if it does.
fn computation_of(terms: &Terms<'_>, text: Option<u32>) -> Option<Computation>
    ensures { option_map computation_view result ≡ computation_in (control_by (text_by terms.now.texts text)) }
{
    let name = terms.text(text?)?;
    match control_of(name)? {
        Control::Computed(computation) => Some(computation),
        _ => None,
    }
}
