//! The least offset of a code at the words of a text.

ghost use Rattle.std.specs.Prelude.{◌≡◌, IfOk, Some, slice_get};
ghost use Rattle.cddl_language.specs.Faults.{Specification};
ghost use Rattle.cddl_language.specs.Reading.{rules_of};
ghost use Rattle.check_reading.specs.Survey.Survey.{IsSurvey, defined_in};
ghost use Rattle.check_reading.specs.Words.{IsSaid, Said};
ghost use Rattle.check_text.specs.SiteFaults.Reads.{IsRead};
ghost use Rattle.check_text.specs.SiteFaults.Words.{IsToldAtSites, IsToldAtWord};
ghost use Rattle.lists.specs.Least.{IsLeast};
ghost use Rattle.tree_nodes.specs.Syntax.Syntax.{Rule};
ghost use Rattle.tree_nodes.specs.View.{view};
ghost use Rattle.tree_nodes.specs.declared.tree.Tree.{Tree};

use crate::site_faults::arity::wrong_arity_at;
use crate::site_faults::code::SiteCode;
use crate::site_faults::controls::unknown_control_at;
use crate::site_faults::hashes::bad_hash_at;
use crate::site_faults::kinds::group_as_type_at;
use crate::site_faults::marks::{Mark, marks_of};
use crate::site_faults::undefined_names::undefined_at;
use check_reading::survey::Survey;
use check_reading::words::Word;
use check_reading::words::laws::words_stand;
use check_sites::sites::laws::found_sites;
use check_terms::Terms;
use indexmap::IndexSet;
use lists::lesser;
use std::alloc::{AllocError, Global};

/// The least offset at which this code stands at a word of the text.
///
/// It takes a time in proportion to the words, their texts and the parameters of all rules. An error comes only where memory is
/// refused.
pub fn site_fault(
    alloc: Global,
    terms: &Terms<'_>,
    survey: &Survey,
    code: SiteCode,
) -> Result<Option<usize>, AllocError>
    ensures { IfOk result (λ o. (s : Specification) (tree : Tree) → s.tree ≡ view tree → IsSurvey terms.now tree survey.now → IsLeast (IsToldAtSites code s) o) }
{
    found_sites();
    words_stand();
    let marks = marks_of(alloc, &survey.definitions)?;
    let mut least = None;
    for word in &survey.words {
        least = lesser(least, wrong_at(terms, survey, &marks, *word, code));
    }
    Ok(least)
}

// The offset of the word, if this code stands there.
pub(crate) fn wrong_at(
    terms: &Terms<'_>,
    survey: &Survey,
    marks: &IndexSet<Mark>,
    word: Word,
    code: SiteCode,
) -> Option<usize>
    ensures { (tree : Tree) (r : Rule) (x : Said) → IsRead terms.now tree survey.now marks.now.keys → slice_get (rules_of (view tree)) word.rule ≡ Some r → IsSaid terms.now word x → IsLeast (IsToldAtWord code (defined_in tree) r x) result }
{
    match code {
        SiteCode::Undefined => undefined_at(terms, survey, marks, word),
        SiteCode::Arity => wrong_arity_at(survey, marks, word),
        SiteCode::GroupAsType => group_as_type_at(survey, marks, word),
        SiteCode::HashForm => bad_hash_at(terms, word),
        SiteCode::UnknownControl => unknown_control_at(terms, word),
    }
}
