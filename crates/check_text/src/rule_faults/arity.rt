//! Definitions with another number of parameters than their names have.

ghost use Rattle.std.specs.Prelude.{◌≡◌, Some, slice_get};
ghost use Rattle.check_names.specs.Environment.Names.{standing};
ghost use Rattle.cddl_language.specs.Faults.{Specification};
ghost use Rattle.cddl_language.specs.Reading.{name_at, rules_of};
ghost use Rattle.check_terms.specs.Table.{Table};
ghost use Rattle.check_text.specs.RuleFaults.Arity.{HasOtherCount, HasWrongArityAtRule, arity_at, count_of};
ghost use Rattle.lists.specs.Least.{IsLeast};
ghost use Rattle.check_reading.specs.Survey.Survey.{IsSurvey, defined_in};
ghost use Rattle.tree_nodes.specs.Syntax.Syntax.{Rule};
ghost use Rattle.tree_nodes.specs.View.{view};
ghost use Rattle.tree_nodes.specs.declared.tree.Tree.{Tree};

use check_names::environment::Name;
use check_reading::survey::Survey;
use check_terms::{Definition, Terms};
use lists::lesser;

/// The least offset of a definition with another number of parameters than its name has, if there is one (RFC 8610 section
/// 3.10). A name of the prelude has none, and any other as many as its first definition.
///
/// It takes a time in proportion to the number of rules.
pub fn wrong_arity(terms: &Terms<'_>, survey: &Survey) -> Option<usize>
    ensures { (s : Specification) (tree : Tree) → s.tree ≡ view tree → IsSurvey terms.now tree survey.now → IsLeast (HasWrongArityAtRule s) result }
{
    let mut least = None;
    for (place, start) in survey.starts.iter().enumerate() {
        least = lesser(least, other_count(survey, place, *start));
    }
    least
}

// The offset of the rule at this place, if it has another number of parameters than its name.
pub(crate) fn other_count(survey: &Survey, place: usize, start: usize) -> Option<usize>
    ensures { (t : Table) (tree : Tree) (r : Rule) → IsSurvey t tree survey.now → slice_get (rules_of (view tree)) place ≡ Some r → start ≡ name_at r → IsLeast (HasOtherCount (defined_in tree) r) result }
{
    let definition = survey.definitions.get(place)?;
    arity_at(survey, definition, start)
}

// The offset of the rule of this definition, if that has another number of parameters than its name.
fn arity_at(survey: &Survey, definition: &Definition, start: usize) -> Option<usize>
    ensures { result ≡ arity_at survey.now.definitions.items survey.now.names.items definition.now start }
{
    let name = survey.names.get(definition.name as usize)?;
    let count = count_of(name, &survey.definitions)?;
    if definition.parameters.len() == count {
        return None;
    }
    Some(start)
}

// How many parameters the name has, if it is defined.
fn count_of(name: &Name, definitions: &[Definition]) -> Option<usize>
    ensures { result ≡ count_of definitions.now (standing name.now) }
{
    if name.known.is_some() {
        return Some(0);
    }
    let first = definitions.get(name.first?)?;
    Some(first.parameters.len())
}
