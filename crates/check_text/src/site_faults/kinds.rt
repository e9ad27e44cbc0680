//! Groups where a type is demanded, and types after `&`.

ghost use Rattle.std.specs.Prelude.{◌≡◌, false, if◌then◌else◌, Some, slice_get};
ghost use Rattle.check_names.specs.Kinds.Kinds.{is_group_there};
ghost use Rattle.cddl_language.specs.Reading.{rules_of};
ghost use Rattle.check_reading.specs.Survey.Survey.{defined_in};
ghost use Rattle.check_reading.specs.Words.{IsSaid, Said};
ghost use Rattle.check_terms.specs.Table.{Table};
ghost use Rattle.check_text.specs.SiteFaults.Kinds.{is_wrong_kind};
ghost use Rattle.check_text.specs.SiteFaults.Marks.{has_mark};
ghost use Rattle.check_text.specs.SiteFaults.Reads.{IsRead};
ghost use Rattle.check_text.specs.SiteFaults.Words.{IsToldAtWord};
ghost use Rattle.check_text.specs.declared.site_faults.code.SiteCode.TheVariants.{GroupAsType};
ghost use Rattle.lists.specs.Least.{IsLeast};
ghost use Rattle.tree_nodes.specs.Syntax.Syntax.{Rule};
ghost use Rattle.tree_nodes.specs.View.{view};
ghost use Rattle.tree_nodes.specs.declared.tree.Tree.{Tree};

use crate::site_faults::marks::{Mark, is_marked};
use check_reading::survey::Survey;
use check_reading::words::{Role, Word};
use indexmap::IndexSet;

// The offset of the word, if it is a name that has to be of one kind and is of the other.
pub(crate) fn group_as_type_at(survey: &Survey, marks: &IndexSet<Mark>, word: Word) -> Option<usize>
    ensures { (t : Table) (tree : Tree) (r : Rule) (x : Said) → IsRead t tree survey.now marks.now.keys → slice_get (rules_of (view tree)) word.rule ≡ Some r → IsSaid t word x → IsLeast (IsToldAtWord GroupAsType (defined_in tree) r x) result }
{
    if is_wrong_kind(word.role, is_group(survey, marks, word)) {
        Some(word.at)
    } else {
        None
    }
}

// Whether the name is a group's, where it may be a parameter.
fn is_group(survey: &Survey, marks: &IndexSet<Mark>, word: Word) -> bool
    ensures { result ≡ (if has_mark marks.now.keys word.rule word.text then false else is_group_there survey.now.kinds word.text) }
{
    !is_marked(marks, word) && survey.kinds.is_group(word.text)
}

// Whether a word that is this may not be the name of a group, or of a type.
fn is_wrong_kind(role: Role, is_group: bool) -> bool
    ensures { result ≡ is_wrong_kind role is_group }
{
    match role {
        Role::Name { demanded } => demanded && is_group,
        Role::ChosenFrom => !is_group,
        _ => false,
    }
}
