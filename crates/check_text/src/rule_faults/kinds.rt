//! Definitions of another kind than their names have, a type's or a group's.

ghost use Rattle.std.specs.Prelude.{◌≡◌, Some, if◌then◌else◌, not, slice_get};
ghost use Rattle.cddl_language.specs.Faults.{IsKindClash, Specification};
ghost use Rattle.cddl_language.specs.Reading.{name_at, rules_of};
ghost use Rattle.check_text.specs.RuleFaults.Kinds.{IsClashAt};
ghost use Rattle.lists.specs.Least.{IsLeast};
ghost use Rattle.check_reading.specs.Survey.Survey.{IsSurvey, defined_in};
ghost use Rattle.tree_nodes.specs.Syntax.Syntax.{Rule};
ghost use Rattle.tree_nodes.specs.View.{view};
ghost use Rattle.tree_nodes.specs.declared.tree.Tree.{Tree};

use crate::rule_faults::start::start_if;
use check_reading::survey::Survey;
use check_terms::Terms;
use lists::lesser;

/// The least offset of a definition of another kind than its name has, a type's or a group's, if there is one (RFC 8610 sections
/// 2.2.2 and 3.9).
///
/// It takes a time in proportion to the text.
pub fn kind_clash(terms: &Terms<'_>, survey: &Survey) -> Option<usize>
    ensures { (s : Specification) (tree : Tree) → s.tree ≡ view tree → IsSurvey terms.now tree survey.now → IsLeast (IsKindClash s) result }
{
    let mut least = None;
    for (place, start) in survey.starts.iter().enumerate() {
        least = lesser(least, clash_at(terms, survey, place, *start));
    }
    least
}

// The offset of the rule at this place, if its definition is of another kind than its name.
pub(crate) fn clash_at(
    terms: &Terms<'_>,
    survey: &Survey,
    place: usize,
    start: usize,
) -> Option<usize>
    ensures { (tree : Tree) (r : Rule) → IsSurvey terms.now tree survey.now → slice_get (rules_of (view tree)) place ≡ Some r → start ≡ name_at r → IsLeast (IsClashAt (defined_in tree) r) result }
{
    let definition = survey.definitions.get(place)?;
    let gives_group = survey.kinds.is_group_definition(terms, definition);
    let is_group = survey.kinds.is_group(definition.name);
    start_if(start, differ(gives_group, is_group))
}

fn differ(first: bool, second: bool) -> bool
    ensures { result ≡ (if first then not second else second) }
{
    first != second
}
