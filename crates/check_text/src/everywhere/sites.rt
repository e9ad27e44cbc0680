//! All offsets of what is reported at words.

ghost use Rattle.std.specs.Prelude.{◌≡◌, IfOk};
ghost use Rattle.cddl_language.specs.Faults.{Specification};
ghost use Rattle.check_reading.specs.Survey.Survey.{IsSurvey};
ghost use Rattle.all_offsets.specs.Offsets.{AreOf};
ghost use Rattle.check_text.specs.SiteFaults.Words.{IsToldAtSites};
ghost use Rattle.tree_nodes.specs.View.{view};
ghost use Rattle.tree_nodes.specs.declared.tree.Tree.{Tree};

use crate::site_faults::{SiteCode, marks_of, wrong_at};
use all_offsets::push_found;
use check_reading::survey::Survey;
use check_reading::words::laws::words_stand;
use check_sites::sites::laws::found_sites;
use check_terms::Terms;
use std::alloc::{AllocError, Global};

// All offsets at which this code stands at a word, in the order of the words. It takes a time in proportion to these, their texts
// and the parameters of all rules.
pub(crate) fn at_sites(
    alloc: Global,
    terms: &Terms<'_>,
    survey: &Survey,
    code: SiteCode,
) -> Result<Vec<usize>, AllocError>
    ensures { IfOk result (λ v. (s : Specification) (tree : Tree) → s.tree ≡ view tree → IsSurvey terms.now tree survey.now → AreOf (IsToldAtSites code s) v.items) }
{
    found_sites();
    words_stand();
    let marks = marks_of(alloc, &survey.definitions)?;
    let mut offsets = Vec::new(alloc);
    for word in &survey.words {
        let wrong = wrong_at(terms, survey, &marks, *word, code);
        push_found(&mut offsets, wrong)?;
    }
    Ok(offsets)
}
