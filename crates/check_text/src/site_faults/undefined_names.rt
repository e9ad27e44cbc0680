//! Names that nothing defines.

ghost use Rattle.std.specs.Prelude.{◌≡◌, ◌||◌, Some, slice_get};
ghost use Rattle.cddl_language.specs.Environment.{is_socket};
ghost use Rattle.cddl_language.specs.Reading.{rules_of};
ghost use Rattle.check_reading.specs.Survey.Survey.{defined_in};
ghost use Rattle.check_reading.specs.Words.{IsSaid, Said};
ghost use Rattle.check_text.specs.SiteFaults.Marks.{has_mark};
ghost use Rattle.check_text.specs.SiteFaults.Names.{is_defined_there};
ghost use Rattle.check_text.specs.SiteFaults.Reads.{IsRead};
ghost use Rattle.check_text.specs.SiteFaults.Words.{IsToldAtWord};
ghost use Rattle.check_text.specs.declared.site_faults.code.SiteCode.TheVariants.{Undefined};
ghost use Rattle.lists.specs.Least.{IsLeast};
ghost use Rattle.tree_nodes.specs.Syntax.Syntax.{Rule};
ghost use Rattle.tree_nodes.specs.View.{view};
ghost use Rattle.tree_nodes.specs.declared.tree.Tree.{Tree};

use crate::site_faults::marks::{Mark, is_marked};
use crate::site_faults::names::{is_defined, is_name};
use check_reading::survey::Survey;
use check_reading::words::Word;
use check_terms::Terms;
use check_terms::texts::is_socket;
use indexmap::IndexSet;

// The offset of the word, if it is a name that nothing defines.
pub(crate) fn undefined_at(
    terms: &Terms<'_>,
    survey: &Survey,
    marks: &IndexSet<Mark>,
    word: Word,
) -> Option<usize>
    ensures { (tree : Tree) (r : Rule) (x : Said) → IsRead terms.now tree survey.now marks.now.keys → slice_get (rules_of (view tree)) word.rule ≡ Some r → IsSaid terms.now word x → IsLeast (IsToldAtWord Undefined (defined_in tree) r x) result }
{
    if !is_name(word.role) {
        return None;
    }
    let text = terms.text(word.text)?;
    if is_known(survey, marks, word, text) {
        return None;
    }
    Some(word.at)
}

// Whether the name is a parameter or a socket, or has a definition.
fn is_known(survey: &Survey, marks: &IndexSet<Mark>, word: Word, text: &str) -> bool
    ensures { result ≡ (has_mark marks.now.keys word.rule word.text || (is_socket text.now || is_defined_there (slice_get survey.now.names.items word.text))) }
{
    is_marked(marks, word) || is_socket(text) || is_defined(survey, word.text)
}
