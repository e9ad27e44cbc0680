//! All offsets of `~` that unwraps nothing, or a group where a type is demanded.

ghost use Rattle.std.specs.Prelude.{◌≡◌, IfOk};
ghost use Rattle.all_offsets.specs.Offsets.{AreOffsets};
ghost use Rattle.cddl_language.specs.Reading.{rules_of};
ghost use Rattle.check_reading.specs.Survey.Survey.{IsSurvey, defined_in};
ghost use Rattle.check_terms.specs.Table.{Table};
ghost use Rattle.check_text.specs.SiteFaults.Told.{Among, AreSpoken};
ghost use Rattle.check_text.specs.SiteFaults.Unwrapped.{IsWrongTilde};
ghost use Rattle.tree_nodes.specs.View.{view};
ghost use Rattle.tree_nodes.specs.declared.tree.Tree.{Tree};

use crate::site_faults::{marks_of, wrong_tilde_at};
use all_offsets::{push_found, sort};
use check_reading::survey::Survey;
use check_reading::words::Word;
use std::alloc::{AllocError, Global};

/// All offsets, among these words, of a `~` that unwraps nothing, or a group where a type is demanded (RFC 8610 section 3.7), in
/// ascending order, each once.
///
/// It takes a time of n log n for these n words, and the parameters of all rules. An error comes only where memory is refused.
pub fn wrong_tildes(
    alloc: Global,
    survey: &Survey,
    words: &[Word],
) -> Result<Vec<usize>, AllocError>
    ensures { IfOk result (λ v. (t : Table) (tree : Tree) → IsSurvey t tree survey.now → AreSpoken t (rules_of (view tree)) words.now → AreOffsets (Among t (rules_of (view tree)) (IsWrongTilde (defined_in tree)) words.now) v.items) }
{
    let marks = marks_of(alloc, &survey.definitions)?;
    let mut offsets = Vec::new(alloc);
    for word in words {
        let wrong = wrong_tilde_at(survey, &marks, *word);
        push_found(&mut offsets, wrong)?;
    }
    sort(&mut offsets);
    Ok(offsets)
}
