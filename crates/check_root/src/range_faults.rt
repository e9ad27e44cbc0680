//! What is wrong with ranges and occurrences at the sites that a root reaches.
mod bounds;
mod ends;

ghost use Rattle.std.specs.Prelude.{◌≡◌, IfOk};
ghost use Rattle.all_offsets.specs.Offsets.{AreOffsets};
ghost use Rattle.cddl_language.specs.Faults.{HasBadRange, Specification, definitions, rules};
ghost use Rattle.cddl_language.specs.Literals.{AreRight, AreTokens, Values};
ghost use Rattle.cddl_language.specs.Terms.{Text};
ghost use Rattle.check_literals.specs.Literals.{AreLiterals};
ghost use Rattle.cddl_language.specs.Live.Live.{IsClear};
ghost use Rattle.check_reached.specs.Asked.{AreAsked};
ghost use Rattle.check_reached.specs.Reached.{AreReachedWords};
ghost use Rattle.lists.specs.Least.{IsLeast};

use crate::range_faults::bounds::{all_bad_bounds, bad_bounds};
use crate::range_faults::ends::{all_bad_ends, bad_end};
use all_offsets::of_both;
use cddl_language::live::reached_parts;
use cddl_language::numbers_are_spelled;
use cddl_language::written::{operand_values, site_tokens};
use cddl_literal::ends_in_ascii;
use check_literals::Literals;
use check_reached::Asked;
use check_reading::words::Word;
use check_terms::Terms;
use check_terms::laws::equal_numbers;
use lists::lesser;
use std::alloc::{AllocError, Global};

/// The least offset of an end of a range that is no whole number (RFC 8610 section 2.2.2.1), or of an occurrence with a minimum
/// over its maximum (section 3.2).
///
/// The rows and the words are of this table, the words those of the sites that are reached. It takes a time in proportion to what
/// is asked and to the texts of the occurrences.
pub fn bad_range(
    terms: &Terms<'_>,
    literals: &Literals,
    asked: &[Asked],
    reached: &[Word],
) -> Option<usize>
    ensures { (s : Specification) (root : Text) (worth : Values) → AreTokens s.tree → AreRight s.tree worth → IsClear s → AreReachedWords (rules s) root terms.now reached.now → AreLiterals (definitions s) root worth terms.now literals.now → AreAsked (rules s) root terms.now asked.now → IsLeast (HasBadRange s worth root) result }
{
    equal_numbers(terms);
    reached_parts();
    operand_values();
    site_tokens();
    numbers_are_spelled();
    ends_in_ascii();
    let end = bad_end(terms, literals, asked);
    lesser(end, bad_bounds(terms, reached))
}

/// All offsets of such ends and occurrences, in ascending order, each once.
///
/// The rows and the words are of this table. It takes a time of n log n for n questions and words, and the texts of the
/// occurrences. An error comes only where memory is refused.
pub fn all_bad_range(
    alloc: Global,
    terms: &Terms<'_>,
    literals: &Literals,
    asked: &[Asked],
    reached: &[Word],
) -> Result<Vec<usize>, AllocError>
    ensures { IfOk result (λ v. (s : Specification) (root : Text) (worth : Values) → AreTokens s.tree → AreRight s.tree worth → IsClear s → AreReachedWords (rules s) root terms.now reached.now → AreLiterals (definitions s) root worth terms.now literals.now → AreAsked (rules s) root terms.now asked.now → AreOffsets (HasBadRange s worth root) v.items) }
{
    equal_numbers(terms);
    reached_parts();
    operand_values();
    site_tokens();
    numbers_are_spelled();
    ends_in_ascii();
    let ends = all_bad_ends(alloc, terms, literals, asked)?;
    let bounds = all_bad_bounds(alloc, terms, reached)?;
    let both = of_both(ends, &bounds)?;
    Ok(both)
}
