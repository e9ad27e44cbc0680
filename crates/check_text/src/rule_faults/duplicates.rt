//! Definitions by `=` that say something else than the first one of their name, and parameters that stand twice in a list.

ghost use Rattle.std.specs.Prelude.{◌≡◌, ℕ, not, nat_eq, ◌||◌, IfOk, Some, slice_get};
ghost use Rattle.check_names.specs.Environment.Places.{is_equals};
ghost use Rattle.cddl_language.specs.Faults.{IsDuplicate, Specification};
ghost use Rattle.cddl_language.specs.Environment.{is_same};
ghost use Rattle.cddl_language.specs.Reading.{name_at, rules_of};
ghost use Rattle.check_text.specs.RuleFaults.Duplicates.{IsDuplicateAt, IsRepeated, differs, first_place, is_among, other_equals_by, same_body, same_definition, same_sign, told_again};
ghost use Rattle.lists.specs.Least.{IsLeast};
ghost use Rattle.check_reading.specs.Survey.Survey.{IsSurvey};
ghost use Rattle.tree_nodes.specs.Syntax.Syntax.{Rule};
ghost use Rattle.tree_nodes.specs.View.{view};
ghost use Rattle.tree_nodes.specs.declared.tree.Tree.{Tree};

use crate::rule_faults::start::start_if;
use check_reading::survey::Survey;
use check_terms::laws::equal_definitions;
use check_terms::{Body, Definition, Sign, Terms};
use indexmap::IndexSet;
use lists::lesser;
use std::alloc::{AllocError, Global};

/// The least offset of a further `=` that says something else than the first one of its name, or of a parameter that stands in
/// its list before, if there is one (RFC 8610 sections 2.2.2 and 3.10).
///
/// It takes a time in proportion to the rules and their parameters. An error comes only where memory is refused.
pub fn duplicate(
    alloc: Global,
    terms: &Terms<'_>,
    survey: &Survey,
) -> Result<Option<usize>, AllocError>
    ensures { IfOk result (λ o. (s : Specification) (tree : Tree) → s.tree ≡ view tree → IsSurvey terms.now tree survey.now → IsLeast (IsDuplicate s) o) }
{
    let mut least = None;
    for (place, start) in survey.starts.iter().enumerate() {
        let found = duplicate_at(alloc, terms, survey, place, *start)?;
        least = lesser(least, found);
    }
    Ok(least)
}

fn duplicate_at(
    alloc: Global,
    terms: &Terms<'_>,
    survey: &Survey,
    place: usize,
    start: usize,
) -> Result<Option<usize>, AllocError>
    ensures { IfOk result (λ o. (tree : Tree) (r : Rule) → IsSurvey terms.now tree survey.now → slice_get (rules_of (view tree)) place ≡ Some r → start ≡ name_at r → IsLeast (IsDuplicateAt (rules_of (view tree)) r) o) }
{
    equal_definitions(terms);
    let Some(definition) = survey.definitions.get(place) else {
        return Ok(None);
    };
    let Some(parameters) = survey.parameters.get(place) else {
        return Ok(None);
    };
    let twice = repeated(alloc, parameters, &definition.parameters)?;
    Ok(lesser(other_equals(survey, definition, start), twice))
}

// The offset of the rule, where its definition by `=` says something else than the first one of its name.
pub(crate) fn other_equals(survey: &Survey, definition: &Definition, start: usize) -> Option<usize>
    ensures { result ≡ other_equals_by survey.now.definitions.items survey.now.names.items definition.now start }
{
    let first = first_place(survey, definition.name);
    let is_other = is_equals(definition.sign) && differs(&survey.definitions, definition, first);
    start_if(start, is_other)
}

// The place of the first definition by `=` of the name.
fn first_place(survey: &Survey, name: u32) -> Option<usize>
    ensures { result ≡ first_place (slice_get survey.now.names.items name) }
{
    survey.names.get(name as usize)?.first_equals
}

fn is_equals(sign: Sign) -> bool
    ensures { result ≡ is_equals sign }
{
    matches!(sign, Sign::Is)
}

fn differs(definitions: &[Definition], definition: &Definition, place: Option<usize>) -> bool
    ensures { result ≡ differs definitions.now definition.now place }
{
    let Some(place) = place else {
        return false;
    };
    match definitions.get(place) {
        Some(first) => !same_definition(definition, first),
        None => false,
    }
}

fn same_definition(definition: &Definition, other: &Definition) -> bool
    ensures { result ≡ same_definition definition.now other.now }
{
    definition.name == other.name
        && same_sign(definition.sign, other.sign)
        && same_body(definition.body, other.body)
        && same_numbers(&definition.parameters, &other.parameters)
}

fn same_sign(sign: Sign, other: Sign) -> bool
    ensures { result ≡ same_sign sign other }
{
    matches!(
        (sign, other),
        (Sign::Is, Sign::Is) | (Sign::TypeOr, Sign::TypeOr) | (Sign::GroupOr, Sign::GroupOr)
    )
}

fn same_body(body: Body, other: Body) -> bool
    ensures { result ≡ same_body body other }
{
    match (body, other) {
        (Body::Types(row), Body::Types(other)) => row == other,
        (Body::Entry(row), Body::Entry(other)) => row == other,
        _ => false,
    }
}

fn same_numbers(numbers: &[u32], others: &[u32]) -> bool
    ensures { result ≡ is_same numbers.now others.now }
{
    numbers == others
}

// The least offset, of these, of a parameter whose number stands in the list before.
fn repeated(
    alloc: Global,
    starts: &[usize],
    parameters: &[u32],
) -> Result<Option<usize>, AllocError>
    ensures { IfOk result (λ o. IsLeast (IsRepeated parameters.now starts.now) o) }
{
    let mut seen = IndexSet::new(alloc);
    let mut least = None;
    for (place, parameter) in parameters.iter().enumerate() {
        let is_new = add_number(&mut seen, *parameter)?;
        least = lesser(least, start_again(starts, place, is_new));
    }
    Ok(least)
}

// Whether the number was not there yet.
pub(crate) fn add_number(seen: &mut IndexSet<u32>, number: u32) -> Result<bool, AllocError>
    ensures added { IfOk result (λ b. b ≡ not (is_among number seen.old.keys)) }
    ensures keeps { IfOk result (λ b. (k : ℕ) → is_among k seen.new.keys ≡ (is_among k seen.old.keys || nat_eq k number)) }
{
    let is_new = seen.insert(number)?;
    Ok(is_new)
}

// The offset of a parameter, of these, unless it is a new one.
pub(crate) fn start_again(starts: &[usize], place: usize, is_new: bool) -> Option<usize>
    ensures { result ≡ told_again is_new (slice_get starts.now place) }
{
    if is_new {
        return None;
    }
    starts.get(place).copied()
}
