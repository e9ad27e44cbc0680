//! What a step of a template becomes: an argument, or a row whose parts are those that earlier steps made.

ghost use Rattle.std.specs.Prelude.{◌≡◌, ◌<◌, ◌↔◌, List, Option, Some, IfOk, IfSome, IsTrue, map};
ghost use Rattle.cddl_language.specs.Terms.{Text};
ghost use Rattle.check_terms.specs.Filled.{filled};
ghost use Rattle.check_terms.specs.Table.{Grows, HasParts, Holds, HoldsText, IsPart, Tree, node};
ghost use Rattle.check_terms.specs.Fill.Filling as by;
ghost use Rattle.check_terms.specs.Fill.Templates.{AreTrees, IsStep, at_place};

use crate::fill::template::Step;
use crate::{NoRoom, Row, Terms};

// What the row of the step becomes: an argument, or a row of its form whose parts are those that the steps before made.
pub(crate) fn fill_step(
    terms: &mut Terms<'_>,
    step: Step,
    arguments: &[u32],
    made: &[u32],
) -> Result<u32, NoRoom>
    ensures grows { Grows terms.old terms.new }
    ensures texts { terms.new.texts ≡ terms.old.texts }
    ensures fills { IfOk result (λ n. (ps : List Text) (before ys : List Tree) (x : Tree) → IsStep terms.old ps before step x → AreTrees terms.old arguments.now ys → AreTrees terms.old made.now (map (filled ps ys) before) → Holds terms.new (Some n) (filled ps ys x)) }
{
    if let Some(number) = number_at(arguments, step.argument) {
        return Ok(number);
    }
    let Some(row) = terms.row(step.row) else {
        return Err(NoRoom);
    };
    add_row(terms, filled_row(step, row, made))
}

fn number_at(numbers: &[u32], place: Option<usize>) -> Option<u32>
    ensures { result ≡ at_place numbers.now place }
{
    numbers.get(place?).copied()
}

// A part that was made, or the row's own.
pub(crate) fn part(made: &[u32], place: Option<usize>, own: Option<u32>) -> Option<u32>
    ensures { result ≡ by.part made.now place own }
{
    match place {
        Some(place) => made.get(place).copied(),
        None => own,
    }
}

fn filled_row(step: Step, row: Row, made: &[u32]) -> Row
    ensures { result ≡ by.filled_row step row made.now }
{
    Row {
        form: row.form,
        text: row.text,
        first: part(made, step.first, row.first),
        second: part(made, step.second, row.second),
    }
}

// The number of the row, where its text and parts are there.
fn add_row(terms: &mut Terms<'_>, row: Row) -> Result<u32, NoRoom>
    ensures grows { Grows terms.old terms.new }
    ensures texts { terms.new.texts ≡ terms.old.texts }
    ensures stands { IfOk result (λ n. (x : Option Text) (a b : Tree) → HoldsText terms.old.texts row.text x → Holds terms.old row.first a → Holds terms.old row.second b → Holds terms.new (Some n) (node row.form x a b)) }
{
    if !has_parts(terms, row) {
        return Err(NoRoom);
    }
    terms.add(row)
}

fn has_parts(terms: &Terms<'_>, row: Row) -> bool
    ensures { IsTrue result ↔ HasParts terms.now row }
{
    is_below(row.text, terms.text_count())
        && is_part(terms, row.first)
        && is_part(terms, row.second)
}

fn is_part(terms: &Terms<'_>, number: Option<u32>) -> bool
    ensures { IsTrue result ↔ IsPart terms.now number }
{
    is_below(number, terms.len())
}

fn is_below(number: Option<u32>, count: usize) -> bool
    ensures { IsTrue result ↔ IfSome number (λ n. n < count) }
{
    match number {
        Some(number) => (number as usize) < count,
        None => true,
    }
}
