//! Where `~` unwraps nothing, or a group where a type is demanded.

ghost use Rattle.std.specs.Prelude.{◌≡◌, IfOk, None, Some, if◌then◌else◌, option_map, slice_get};
ghost use Rattle.check_names.specs.Kinds.Kinds.{shape_there, sort_in};
ghost use Rattle.cddl_language.specs.Reading.{rules_of};
ghost use Rattle.check_reading.specs.Survey.Survey.{IsSurvey, defined_in};
ghost use Rattle.check_reading.specs.Words.{IsSaid, Said};
ghost use Rattle.check_terms.specs.Table.{Table};
ghost use Rattle.check_text.specs.SiteFaults.Marks.{has_mark};
ghost use Rattle.check_text.specs.SiteFaults.Reads.{IsRead};
ghost use Rattle.check_text.specs.SiteFaults.Told.{Among, AreSpoken};
ghost use Rattle.check_text.specs.SiteFaults.Unwrapped.{IsWrongTilde, is_wrong};
ghost use Rattle.lists.specs.Least.{IsLeast};
ghost use Rattle.tree_nodes.specs.Syntax.Syntax.{Rule};
ghost use Rattle.tree_nodes.specs.View.{view};
ghost use Rattle.tree_nodes.specs.declared.tree.Tree.{Tree};

use crate::site_faults::marks::{Mark, is_marked, marks_of};
use check_names::kinds::Shape;
use check_reading::survey::Survey;
use check_reading::words::{Role, Word};
use indexmap::IndexSet;
use lists::lesser;
use std::alloc::{AllocError, Global};

/// The least offset, among these words, of a `~` that unwraps nothing, or a group where a type is demanded (RFC 8610 section
/// 3.7). What `~` of a name gives has one sort for all arguments, and a parameter gives nothing.
///
/// It takes a time in proportion to these words and the parameters of all rules. An error comes only where memory is refused.
pub fn wrong_tilde(
    alloc: Global,
    survey: &Survey,
    words: &[Word],
) -> Result<Option<usize>, AllocError>
    ensures { IfOk result (λ o. (t : Table) (tree : Tree) → IsSurvey t tree survey.now → AreSpoken t (rules_of (view tree)) words.now → IsLeast (Among t (rules_of (view tree)) (IsWrongTilde (defined_in tree)) words.now) o) }
{
    let marks = marks_of(alloc, &survey.definitions)?;
    let mut least = None;
    for word in words {
        least = lesser(least, wrong_tilde_at(survey, &marks, *word));
    }
    Ok(least)
}

// The offset of the `~` before the name, if it is wrong.
pub(crate) fn wrong_tilde_at(survey: &Survey, marks: &IndexSet<Mark>, word: Word) -> Option<usize>
    ensures { (t : Table) (tree : Tree) (r : Rule) (x : Said) → IsRead t tree survey.now marks.now.keys → slice_get (rules_of (view tree)) word.rule ≡ Some r → IsSaid t word x → IsLeast (IsWrongTilde (defined_in tree) r x) result }
{
    let Role::Unwrapped { demanded, tilde } = word.role else {
        return None;
    };
    if is_wrong(demanded, unwrapped(survey, marks, word)) {
        Some(tilde)
    } else {
        None
    }
}

// What `~` of the name gives, where it may be a parameter.
fn unwrapped(survey: &Survey, marks: &IndexSet<Mark>, word: Word) -> Option<Shape>
    ensures { option_map sort_in result ≡ (if has_mark marks.now.keys word.rule word.text then None else shape_there survey.now.kinds word.text) }
{
    if is_marked(marks, word) {
        return None;
    }
    survey.kinds.opened(word.text)
}

fn is_wrong(demanded: bool, unwrapped: Option<Shape>) -> bool
    ensures { result ≡ is_wrong demanded (option_map sort_in unwrapped) }
{
    match unwrapped {
        None => true,
        Some(Shape::Group) => demanded,
        Some(Shape::Content) => false,
    }
}
