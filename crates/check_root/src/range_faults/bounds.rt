//! Occurrences with a minimum over their maximum.

ghost use Rattle.std.specs.Prelude.{◌≡◌, ◌↔◌, IfOk, IsTrue, slice_get};
ghost use Rattle.cddl_language.specs.Faults.{IsOver};
ghost use Rattle.cddl_language.specs.Numbers.{least_in, most_in};
ghost use Rattle.check_root.specs.RangeFaults.Bounds.{AreSmall, IsOverWord, IsSmall};
ghost use Rattle.all_offsets.specs.Offsets.{AreOffsets, IsAmong};
ghost use Rattle.lists.specs.Least.{IsLeast};
ghost use Rattle.check_terms.specs.Texts.Occurrence.{IsTooGreat};

use all_offsets::{push_found, sort};
use check_reading::words::{Role, Word};
use check_terms::Terms;
use check_terms::texts::occurrence_of;
use lists::lesser;
use std::alloc::{AllocError, Global};

// The least offset of an occurrence with a minimum over its maximum, among these words.
pub(crate) fn bad_bounds(terms: &Terms<'_>, reached: &[Word]) -> Option<usize>
    ensures { AreSmall terms.now.texts reached.now → IsLeast (IsAmong (IsOverWord terms.now.texts) reached.now) result }
{
    let mut least = None;
    for word in reached {
        least = lesser(least, bad_bounds_at(terms, *word));
    }
    least
}

// All offsets of these, in ascending order, each once.
pub(crate) fn all_bad_bounds(
    alloc: Global,
    terms: &Terms<'_>,
    reached: &[Word],
) -> Result<Vec<usize>, AllocError>
    ensures { IfOk result (λ v. AreSmall terms.now.texts reached.now → AreOffsets (IsAmong (IsOverWord terms.now.texts) reached.now) v.items) }
{
    let mut offsets = Vec::new(alloc);
    for word in reached {
        push_found(&mut offsets, bad_bounds_at(terms, *word))?;
    }
    sort(&mut offsets);
    Ok(offsets)
}

fn bad_bounds_at(terms: &Terms<'_>, word: Word) -> Option<usize>
    ensures { IsSmall terms.now.texts word → IsLeast (IsOverWord terms.now.texts word) result }
{
    let Role::Occurrence = word.role else {
        return None;
    };
    if is_over(terms.text(word.text)?) {
        Some(word.at)
    } else {
        None
    }
}

// Whether the text says a minimum over its maximum. The numbers of a token are below 2^64.
fn is_over(text: &str) -> bool
    ensures { (IsTooGreat text.now → ⊥) → IsTrue result ↔ IsOver (least_in text.now) (most_in text.now) }
{
    match occurrence_of(text) {
        Some(occurrence) => occurrence.is_over(),
        None => false,
    }
}
