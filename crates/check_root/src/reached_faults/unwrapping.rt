//! What `~` unwraps, and C11 as a whole.

ghost use Rattle.std.specs.Prelude.{◌≡◌, IfOk};
ghost use Rattle.all_offsets.specs.Offsets.{AreOffsets};
ghost use Rattle.cddl_language.specs.Faults.{HasNotUnwrappable, Specification, rules};
ghost use Rattle.cddl_language.specs.Terms.{Text};
ghost use Rattle.check_reached.specs.Reached.{AreReachedWords};
ghost use Rattle.check_root.specs.ReachedFaults.Choices.{ChoosesFromNone};
ghost use Rattle.check_root.specs.ReachedFaults.Unwrapping.{OpensWrongly};
ghost use Rattle.check_terms.specs.Table.{Table};
ghost use Rattle.lists.specs.Least.{IsLeast};
ghost use Rattle.check_reading.specs.Survey.Survey.{IsSurvey};
ghost use Rattle.tree_nodes.specs.View.{view};
ghost use Rattle.tree_nodes.specs.declared.tree.Tree.{Tree};

use all_offsets::of_both;
use cddl_language::live::reached_sites;
use check_reading::survey::Survey;
use check_reading::words::Word;
use check_text::everywhere::wrong_tildes;
use check_text::site_faults::wrong_tilde;
use lists::lesser;
use std::alloc::{AllocError, Global};

/// The least offset of a `~`, at a site that is reached, that unwraps nothing, or a group where a type is demanded (RFC 8610 section
/// 3.7). The words are those of the sites that are reached.
///
/// It takes a time in proportion to the words and the parameters of all rules. An error comes only where memory is refused.
pub fn not_unwrapped(
    alloc: Global,
    survey: &Survey,
    reached: &[Word],
) -> Result<Option<usize>, AllocError>
    ensures { IfOk result (λ o. (t : Table) (tree : Tree) (s : Specification) (root : Text) → s.tree ≡ view tree → IsSurvey t tree survey.now → AreReachedWords (rules s) root t reached.now → IsLeast (OpensWrongly s root) o) }
{
    reached_sites();
    wrong_tilde(alloc, survey, reached)
}

/// All offsets of such a `~`, in ascending order, each once.
///
/// It takes a time of n log n for the n words, and the parameters of all rules. An error comes only where memory is refused.
pub fn all_not_unwrapped(
    alloc: Global,
    survey: &Survey,
    reached: &[Word],
) -> Result<Vec<usize>, AllocError>
    ensures { IfOk result (λ v. (t : Table) (tree : Tree) (s : Specification) (root : Text) → s.tree ≡ view tree → IsSurvey t tree survey.now → AreReachedWords (rules s) root t reached.now → AreOffsets (OpensWrongly s root) v.items) }
{
    reached_sites();
    wrong_tildes(alloc, survey, reached)
}

/// All offsets of C11, those of `~` and those of `&`, in ascending order, each once. An error comes only where memory is refused.
pub fn all_not_unwrappable(opens: Vec<usize>, chooses: &[usize]) -> Result<Vec<usize>, AllocError>
    ensures { IfOk result (λ v. (s : Specification) (root : Text) → AreOffsets (OpensWrongly s root) opens.items → AreOffsets (ChoosesFromNone s root) chooses.now → AreOffsets (HasNotUnwrappable s root) v.items) }
{
    let both = of_both(opens, chooses)?;
    Ok(both)
}

/// The least offset of C11, of those of `~` and of `&`.
pub fn not_unwrappable(opens: Option<usize>, chooses: Option<usize>) -> Option<usize>
    ensures { (s : Specification) (root : Text) → IsLeast (OpensWrongly s root) opens → IsLeast (ChoosesFromNone s root) chooses → IsLeast (HasNotUnwrappable s root) result }
{
    lesser(opens, chooses)
}
