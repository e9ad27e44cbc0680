//! Names with a wrong number of arguments.

ghost use Rattle.std.specs.Prelude.{◌≡◌, if◌then◌else◌, Some, slice_get};
ghost use Rattle.cddl_language.specs.Reading.{rules_of};
ghost use Rattle.check_reading.specs.Survey.Survey.{defined_in};
ghost use Rattle.check_reading.specs.Words.{IsSaid, Said};
ghost use Rattle.check_terms.specs.Table.{Table};
ghost use Rattle.check_text.specs.SiteFaults.Marks.{has_mark};
ghost use Rattle.check_text.specs.SiteFaults.Names.{count_there};
ghost use Rattle.check_text.specs.SiteFaults.Reads.{IsRead};
ghost use Rattle.check_text.specs.SiteFaults.Words.{IsToldAtWord, is_other_than};
ghost use Rattle.check_text.specs.declared.site_faults.code.SiteCode.TheVariants.{Arity};
ghost use Rattle.lists.specs.Least.{IsLeast};
ghost use Rattle.tree_nodes.specs.Syntax.Syntax.{Rule};
ghost use Rattle.tree_nodes.specs.View.{view};
ghost use Rattle.tree_nodes.specs.declared.tree.Tree.{Tree};

use crate::site_faults::marks::{Mark, is_marked};
use crate::site_faults::names::{is_name, parameter_count};
use check_reading::survey::Survey;
use check_reading::words::Word;
use indexmap::IndexSet;

// The offset of the word, if it is a name with a wrong number of arguments.
pub(crate) fn wrong_arity_at(survey: &Survey, marks: &IndexSet<Mark>, word: Word) -> Option<usize>
    ensures { (t : Table) (tree : Tree) (r : Rule) (x : Said) → IsRead t tree survey.now marks.now.keys → slice_get (rules_of (view tree)) word.rule ≡ Some r → IsSaid t word x → IsLeast (IsToldAtWord Arity (defined_in tree) r x) result }
{
    if !is_name(word.role) {
        return None;
    }
    if is_other_than(count_wanted(survey, marks, word), word.arguments) {
        Some(word.at)
    } else {
        None
    }
}

// How many arguments the name has to have, if any number is wrong.
fn count_wanted(survey: &Survey, marks: &IndexSet<Mark>, word: Word) -> Option<usize>
    ensures { result ≡ (if has_mark marks.now.keys word.rule word.text then Some 0 else count_there survey.now.definitions.items (slice_get survey.now.names.items word.text)) }
{
    if is_marked(marks, word) {
        return Some(0);
    }
    parameter_count(survey, word.text)
}

fn is_other_than(wanted: Option<usize>, count: usize) -> bool
    ensures { result ≡ is_other_than wanted count }
{
    match wanted {
        Some(wanted) => count != wanted,
        None => false,
    }
}
