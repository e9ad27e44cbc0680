//! The root of a text, and what is wrong with it: that there is none, or that it is a group or has parameters.

ghost use Rattle.std.specs.Prelude.{◌≡◌, Some, option_map, slice_get};
ghost use Rattle.cddl_language.specs.Faults.{HasBadRoot, HasNoRoot, Specification};
ghost use Rattle.check_text.specs.RuleFaults.Root.{bad_at, bad_by, has_some, is_text, number_of_name, root_number};
ghost use Rattle.lists.specs.Least.{IsLeast};
ghost use Rattle.check_reading.specs.Survey.Survey.{IsSurvey};
ghost use Rattle.tree_nodes.specs.View.{view};
ghost use Rattle.tree_nodes.specs.declared.tree.Tree.{Tree};

use crate::rule_faults::start::start_if;
use check_reading::survey::Survey;
use check_terms::{Definition, Terms};

/// The number of the root's name: of the name that was given, if it is defined, or of that of the first rule.
///
/// It takes a time in proportion to the text.
pub fn root_of(terms: &Terms<'_>, survey: &Survey, given: Option<&str>) -> Option<u32>
    ensures number { result ≡ root_number terms.now.texts survey.now.known.items survey.now.definitions.items (option_map (λ t. t.now) given.entry) }
{
    match given {
        Some(name) => match number_in(terms, &survey.definitions, name) {
            Some(number) => Some(number),
            None => number_in(terms, &survey.known, name),
        },
        None => survey.definitions.first().map(|definition| definition.name),
    }
}

// The number of the name, if one of these definitions is of it.
fn number_in(terms: &Terms<'_>, definitions: &[Definition], name: &str) -> Option<u32>
    ensures { result ≡ number_of_name terms.now.texts name.now definitions.now }
{
    for definition in definitions {
        if is_text(terms, definition.name, name) {
            return Some(definition.name);
        }
    }
    None
}

fn is_text(terms: &Terms<'_>, number: u32, name: &str) -> bool
    ensures { result ≡ is_text name.now (slice_get terms.now.texts number) }
{
    match terms.text(number) {
        Some(text) => text == name,
        None => false,
    }
}

/// 0, where there is no root: no rule and no given name, or a given name that nothing defines.
pub fn no_root(terms: &Terms<'_>, survey: &Survey, given: Option<&str>) -> Option<usize>
    ensures { (s : Specification) (tree : Tree) → s.tree ≡ view tree → s.given ≡ option_map (λ t. t.now) given.entry → IsSurvey terms.now tree survey.now → IsLeast (HasNoRoot s) result }
{
    match root_of(terms, survey, given) {
        Some(_) => None,
        None => Some(0),
    }
}

/// The offset of the first definition of the root's name, where the root is a group or has parameters.
pub fn bad_root(terms: &Terms<'_>, survey: &Survey, given: Option<&str>) -> Option<usize>
    ensures { (s : Specification) (tree : Tree) → s.tree ≡ view tree → s.given ≡ option_map (λ t. t.now) given.entry → IsSurvey terms.now tree survey.now → IsLeast (HasBadRoot s) result }
{
    match root_of(terms, survey, given) {
        Some(root) => bad_root_at(survey, root),
        None => None,
    }
}

fn bad_root_at(survey: &Survey, root: u32) -> Option<usize>
    ensures { result ≡ bad_at survey.now.kinds survey.now.definitions.items survey.now.starts.items root (slice_get survey.now.names.items root) }
{
    let place = survey.names.get(root as usize)?.first?;
    let definition = survey.definitions.get(place)?;
    let start = survey.starts.get(place)?;
    bad_rule(survey.kinds.is_group(root), definition, *start)
}

fn bad_rule(is_group: bool, definition: &Definition, start: usize) -> Option<usize>
    ensures { result ≡ bad_by is_group (Some definition.now) (Some start) }
{
    start_if(start, is_group || has_some(&definition.parameters))
}

fn has_some(parameters: &[u32]) -> bool
    ensures { result ≡ has_some parameters.now }
{
    !parameters.is_empty()
}
