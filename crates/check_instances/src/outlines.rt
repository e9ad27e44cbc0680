//! Outlines of definitions: the same definitions with the references of their bodies alone. They lead to the same closed
//! references, and cost little to fill.

ghost use Rattle.std.specs.Prelude.{◌≡◌, ℕ, List, IfOk, IfSome, OnOk, slice_get};
ghost use Rattle.cddl_language.specs.Terms as L;
ghost use Rattle.cddl_language.specs.Terms.{Text};
ghost use Rattle.check_terms.specs.Definitions.{AreDefinitions, IsBody, IsDefinition};
ghost use Rattle.check_terms.specs.Fill.Rows.{with_part};
ghost use Rattle.check_terms.specs.Table.{Grows};
ghost use Rattle.check_instances.specs.Lists.{IsIn};
ghost use Rattle.check_instances.specs.Outlines as by;
ghost use Rattle.check_instances.specs.Outlines.{HasOutline, HasOutlines, IsBodyOf, IsTermOf, is_reference};

use crate::patterns::row_of;
use check_terms::fill::{Slots, Template};
use check_terms::laws::{growing_keeps, is_table};
use check_terms::{Body, Definition, Form, NoRoom, Row, Terms, push};
use std::alloc::Global;
use std::collections::BTreeSet;

/// The references of a body as choices of two types.
#[derive(Clone, Copy)]
pub(crate) struct Choices {
    /// Those that hold no parameter.
    pub same: Option<u32>,
    /// Those that hold one.
    pub other: Option<u32>,
}

// The outlines of the definitions, in order.
pub(crate) fn outlines(
    alloc: Global,
    terms: &mut Terms<'_>,
    definitions: &[Definition],
) -> Result<Vec<Definition>, NoRoom>
    ensures grows { Grows terms.old terms.new }
    ensures texts { terms.new.texts ≡ terms.old.texts }
    ensures outlines { IfOk result (λ v. (xs : List L.Definition) → AreDefinitions terms.old definitions.now xs → HasOutlines terms.new v.items xs) }
{
    growing_keeps();
    let mut outlines = Vec::new(alloc);
    for definition in definitions {
        let outline = outline_of(alloc, terms, definition)?;
        push(&mut outlines, outline)?;
    }
    Ok(outlines)
}

fn outline_of(
    alloc: Global,
    terms: &mut Terms<'_>,
    definition: &Definition,
) -> Result<Definition, NoRoom>
    ensures grows { Grows terms.old terms.new }
    ensures texts { terms.new.texts ≡ terms.old.texts }
    ensures outline { IfOk result (λ d. (x : L.Definition) → IsDefinition terms.old definition.now x → HasOutline terms.new d x) }
{
    growing_keeps();
    let parameters = copied(alloc, &definition.parameters)?;
    let body = outline_body(alloc, terms, &definition.parameters, definition.body)?;
    Ok(Definition {
        name: definition.name,
        parameters,
        sign: definition.sign,
        body,
    })
}

fn copied(alloc: Global, numbers: &[u32]) -> Result<Vec<u32>, NoRoom>
    ensures { IfOk result (λ v. v.items ≡ numbers.now) }
{
    let mut copy = Vec::new(alloc);
    match copy.extend_from_slice(numbers) {
        Ok(()) => Ok(copy),
        Err(_) => Err(NoRoom),
    }
}

// The references of the body as choices of one type, or the body itself where it has none. Those without a parameter are
// together, so that arguments change none of their rows.
fn outline_body(
    alloc: Global,
    terms: &mut Terms<'_>,
    parameters: &[u32],
    body: Body,
) -> Result<Body, NoRoom>
    ensures grows { Grows terms.old terms.new }
    ensures texts { terms.new.texts ≡ terms.old.texts }
    ensures outline { IfOk result (λ b. (x : L.Body) (ps : List Text) → IsBody terms.old body x → IsBodyOf terms.new x ps b) }
{
    growing_keeps();
    let rows = references_in(alloc, terms, body)?;
    let slots = Slots::new(alloc, parameters)?;
    let arguments = no_terms(alloc, terms, parameters.len())?;
    let mut choices = Choices {
        same: None,
        other: None,
    };
    for row in &rows {
        choices = with_reference(alloc, terms, &slots, &arguments, choices, *row)?;
    }
    let row = either(terms, choices.same, choices.other)?;
    Ok(body_of(row, body))
}

fn body_of(row: Option<u32>, body: Body) -> Body
    ensures { result ≡ by.body_of row body }
{
    match row {
        Some(row) => Body::Types(row),
        None => body,
    }
}

// So many rows that are no term. With one in the place of a parameter, what holds the parameter is another row.
fn no_terms(alloc: Global, terms: &mut Terms<'_>, count: usize) -> Result<Vec<u32>, NoRoom>
    ensures grows { Grows terms.old terms.new }
    ensures texts { terms.new.texts ≡ terms.old.texts }
{
    let none = terms.add(Row {
        form: Form::NoTerms,
        text: None,
        first: None,
        second: None,
    })?;
    let mut rows = Vec::new(alloc);
    match rows.resize(count, none) {
        Ok(()) => Ok(rows),
        Err(_) => Err(NoRoom),
    }
}

// With one more reference.
fn with_reference(
    alloc: Global,
    terms: &mut Terms<'_>,
    slots: &Slots,
    arguments: &[u32],
    choices: Choices,
    row: u32,
) -> Result<Choices, NoRoom>
    ensures grows { Grows terms.old terms.new }
    ensures texts { terms.new.texts ≡ terms.old.texts }
    ensures stand { IfOk result (λ c. (x : L.Body) (ps : List Text) → IfSome choices.same (IsTermOf terms.old x ps) → IfSome choices.other (IsTermOf terms.old x ps) → IsTermOf terms.old x ps row → IfSome c.same (IsTermOf terms.new x ps) × IfSome c.other (IsTermOf terms.new x ps)) }
{
    growing_keeps();
    if is_filled(alloc, terms, slots, arguments, row)? {
        let other = either(terms, choices.other, Some(row))?;
        return Ok(Choices {
            same: choices.same,
            other,
        });
    }
    let same = either(terms, choices.same, Some(row))?;
    Ok(Choices {
        same,
        other: choices.other,
    })
}

// Whether the row is another with these arguments.
fn is_filled(
    alloc: Global,
    terms: &mut Terms<'_>,
    slots: &Slots,
    arguments: &[u32],
    row: u32,
) -> Result<bool, NoRoom>
    ensures grows { Grows terms.old terms.new }
    ensures texts { terms.new.texts ≡ terms.old.texts }
{
    let template = Template::new(alloc, terms, slots, row)?;
    let filled = template.fill(alloc, terms, arguments)?;
    Ok(filled != row)
}

// The two as choices, or the one that is there.
fn either(
    terms: &mut Terms<'_>,
    first: Option<u32>,
    second: Option<u32>,
) -> Result<Option<u32>, NoRoom>
    ensures grows { Grows terms.old terms.new }
    ensures texts { terms.new.texts ≡ terms.old.texts }
    ensures stands { IfOk result (λ o. (x : L.Body) (ps : List Text) → IfSome first (IsTermOf terms.old x ps) → IfSome second (IsTermOf terms.old x ps) → IfSome o (IsTermOf terms.new x ps)) }
{
    growing_keeps();
    match (first, second) {
        (Some(first), Some(second)) => Ok(Some(add_choice(terms, first, second)?)),
        (None, second) => Ok(second),
        (first, None) => Ok(first),
    }
}

fn add_choice(terms: &mut Terms<'_>, first: u32, second: u32) -> Result<u32, NoRoom>
    ensures grows { Grows terms.old terms.new }
    ensures texts { terms.new.texts ≡ terms.old.texts }
    ensures stands { IfOk result (λ n. (x : L.Body) (ps : List Text) → IsTermOf terms.old x ps first → IsTermOf terms.old x ps second → IsTermOf terms.new x ps n) }
{
    let count = terms.len();
    if first as usize >= count || second as usize >= count {
        return Err(NoRoom);
    }
    terms.add(Row {
        form: Form::Or,
        text: None,
        first: Some(first),
        second: Some(second),
    })
}

// The rows of the terms in the body that are references, each once.
fn references_in(alloc: Global, terms: &Terms<'_>, body: Body) -> Result<Vec<u32>, NoRoom>
    ensures { IfOk result (λ v. (x : L.Body) (ps : List Text) → IsBody terms.now body x → (n : ℕ) → IsIn n v.items → IsTermOf terms.now x ps n) }
{
    is_table(terms);
    let mut references = Vec::new(alloc);
    let mut parts = BTreeSet::new(alloc);
    add_part(&mut parts, Some(row_of(body)))?;
    while let Some(number) = parts.pop_last() {
        take_row(terms, &mut parts, &mut references, number)?;
    }
    Ok(references)
}

// Of a row that is no reference the parts are to be taken.
fn take_row(
    terms: &Terms<'_>,
    parts: &mut BTreeSet<u32>,
    references: &mut Vec<u32>,
    number: u32,
) -> Result<(), NoRoom>
    ensures parts { OnOk result (parts.new.keys ≡ by.parts_after (slice_get terms.now.rows number) parts.old.keys) }
    ensures references { OnOk result (references.new.items ≡ by.references_after (slice_get terms.now.rows number) number references.old.items) }
{
    let Some(row) = terms.row(number) else {
        return Ok(());
    };
    if is_reference(row.form) {
        return push(references, number);
    }
    add_part(parts, row.first)?;
    add_part(parts, row.second)
}

fn is_reference(form: Form) -> bool
    ensures { result ≡ is_reference form }
{
    matches!(form, Form::Named | Form::Unwrapped | Form::ChoiceOfName)
}

fn add_part(parts: &mut BTreeSet<u32>, part: Option<u32>) -> Result<(), NoRoom>
    ensures { OnOk result (parts.new.keys ≡ with_part parts.old.keys part) }
{
    let Some(part) = part else {
        return Ok(());
    };
    match parts.insert(part) {
        Ok(_) => Ok(()),
        Err(_) => Err(NoRoom),
    }
}
