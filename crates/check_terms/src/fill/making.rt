//! The template of a body, with a step for each row that holds a parameter.

ghost use Rattle.std.specs.Prelude.{◌≡◌, ◌||◌, ℕ, List, Some, IfOk, OnOk, is_some, length, nat_eq};
ghost use Rattle.std.specs.HashMap.{get};
ghost use Rattle.cddl_language.specs.Terms.{Text};
ghost use Rattle.check_terms.specs.Table.{Holds, Tree};
ghost use Rattle.check_terms.specs.Fill.Making as by;
ghost use Rattle.check_terms.specs.Fill.Making.{AreSlots};
ghost use Rattle.check_terms.specs.Fill.Rows.{IsUnfolded};
ghost use Rattle.check_terms.specs.Fill.Templates.{IsTemplate, at_place};

use crate::fill::store::insert;
use crate::fill::template::{Step, Template};
use crate::laws::{one_tree, rows_stand};
use crate::store::push;
use crate::{Form, NoRoom, Row, Terms};
use std::alloc::Global;
use std::collections::HashMap;

// The template of the body, whose rows these are, wholes before parts.
pub(crate) fn template_of(
    alloc: Global,
    terms: &Terms<'_>,
    slots: &HashMap<u32, usize>,
    mut rows: Vec<u32>,
    body: u32,
) -> Result<Template, NoRoom>
    ensures { IfOk result (λ m. (ps : List Text) (x : Tree) → AreSlots terms.now ps (get nat_eq slots.now) → IsUnfolded terms.now body rows.items → Holds terms.now (Some body) x → IsTemplate terms.now ps m x) }
{
    one_tree();
    rows_stand(terms);
    let mut places = HashMap::new(alloc);
    let mut steps = Vec::new(alloc);
    while let Some(number) = rows.pop() {
        let step = step_of(terms, slots, &places, number);
        add_step(&mut places, &mut steps, step)?;
    }
    let place = place_of(&places, Some(body));
    Ok(Template { body, place, steps })
}

// The step, if there is one, after the others, and its place.
fn add_step(
    places: &mut HashMap<u32, usize>,
    steps: &mut Vec<Step>,
    step: Option<Step>,
) -> Result<(), NoRoom>
    ensures places { OnOk result ((n : ℕ) → get nat_eq places.new n ≡ by.places_after (get nat_eq places.old) (length steps.old.items) step n) }
    ensures steps { OnOk result (steps.new.items ≡ by.steps_after steps.old.items step) }
{
    let Some(step) = step else {
        return Ok(());
    };
    insert(places, step.row, steps.len())?;
    push(steps, step)
}

// The step of the row, if the row holds a parameter.
fn step_of(
    terms: &Terms<'_>,
    slots: &HashMap<u32, usize>,
    places: &HashMap<u32, usize>,
    number: u32,
) -> Option<Step>
    ensures { result ≡ by.step_of terms.now.rows (get nat_eq slots.now) (get nat_eq places.now) number }
{
    let row = terms.row(number)?;
    let step = Step {
        row: number,
        argument: slot_of(terms, slots, row),
        first: place_of(places, row.first),
        second: place_of(places, row.second),
    };
    if is_needed(step) { Some(step) } else { None }
}

fn is_needed(step: Step) -> bool
    ensures { result ≡ is_some step.argument || is_some step.first || is_some step.second }
{
    step.argument.is_some() || step.first.is_some() || step.second.is_some()
}

fn place_of(places: &HashMap<u32, usize>, number: Option<u32>) -> Option<usize>
    ensures { result ≡ by.look_up (get nat_eq places.now) number }
{
    places.get(&number?).copied()
}

// The place of the argument for the row, where it is a name without arguments that is a parameter.
fn slot_of(terms: &Terms<'_>, slots: &HashMap<u32, usize>, row: Row) -> Option<usize>
    ensures { result ≡ by.slot_of terms.now.rows (get nat_eq slots.now) row }
{
    match row.form {
        Form::Named | Form::Unwrapped => place_of(slots, name_of(terms, row.first)),
        _ => None,
    }
}

// The number of the name's text, of a reference without arguments.
fn name_of(terms: &Terms<'_>, reference: Option<u32>) -> Option<u32>
    ensures { result ≡ by.name_in terms.now.rows (at_place terms.now.rows reference) }
{
    let call = row_at(terms, reference)?;
    let arguments = row_at(terms, call.first)?;
    lone_name(call, arguments)
}

fn row_at(terms: &Terms<'_>, number: Option<u32>) -> Option<Row>
    ensures { result ≡ at_place terms.now.rows number }
{
    terms.row(number?)
}

fn lone_name(call: Row, arguments: Row) -> Option<u32>
    ensures { result ≡ by.lone_name call (Some arguments) }
{
    match (call.form, arguments.form) {
        (Form::Call, Form::NoTerms) => call.text,
        _ => None,
    }
}
