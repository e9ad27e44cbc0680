//! All offsets of what is defined twice, at one rule.

ghost use Rattle.std.specs.Prelude.{◌≡◌, OnOk, Some, slice_get};
ghost use Rattle.cddl_language.specs.Reading.{name_at, rules_of};
ghost use Rattle.check_reading.specs.Survey.Survey.{IsSurvey};
ghost use Rattle.all_offsets.specs.Offsets.{Gains};
ghost use Rattle.check_text.specs.RuleFaults.Duplicates.{IsDuplicateAt, IsRepeated};
ghost use Rattle.tree_nodes.specs.Syntax.Syntax.{Rule};
ghost use Rattle.tree_nodes.specs.View.{view};
ghost use Rattle.tree_nodes.specs.declared.tree.Tree.{Tree};

use crate::rule_faults::{add_number, other_equals, start_again};
use all_offsets::push_found;
use check_reading::survey::Survey;
use check_terms::Terms;
use check_terms::laws::equal_definitions;
use indexmap::IndexSet;
use std::alloc::{AllocError, Global};

// Adds the offset of the rule at this place, where its definition by `=` says something else than the first one of its name, and
// that of each parameter that stands in its list before.
pub(crate) fn push_duplicates(
    alloc: Global,
    offsets: &mut Vec<usize>,
    terms: &Terms<'_>,
    survey: &Survey,
    place: usize,
    start: usize,
) -> Result<(), AllocError>
    ensures { OnOk result ((tree : Tree) (r : Rule) → IsSurvey terms.now tree survey.now → slice_get (rules_of (view tree)) place ≡ Some r → start ≡ name_at r → Gains (IsDuplicateAt (rules_of (view tree)) r) offsets.old.items offsets.new.items) }
{
    equal_definitions(terms);
    let Some(definition) = survey.definitions.get(place) else {
        return Ok(());
    };
    let Some(parameters) = survey.parameters.get(place) else {
        return Ok(());
    };
    push_found(offsets, other_equals(survey, definition, start))?;
    push_repeated(alloc, offsets, parameters, &definition.parameters)
}

// Adds the offset, of these, of each parameter whose number stands in the list before.
fn push_repeated(
    alloc: Global,
    offsets: &mut Vec<usize>,
    starts: &[usize],
    parameters: &[u32],
) -> Result<(), AllocError>
    ensures { OnOk result (Gains (IsRepeated parameters.now starts.now) offsets.old.items offsets.new.items) }
{
    let mut seen = IndexSet::new(alloc);
    for (place, parameter) in parameters.iter().enumerate() {
        let is_new = add_number(&mut seen, *parameter)?;
        push_found(offsets, start_again(starts, place, is_new))?;
    }
    Ok(())
}
