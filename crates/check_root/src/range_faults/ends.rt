//! Ends of ranges that are no whole numbers.

ghost use Rattle.std.specs.Prelude.{◌≡◌, IfOk, List};
ghost use Rattle.std.specs.Option.{option_map};
ghost use Rattle.cddl_language.specs.Literals.{Values};
ghost use Rattle.cddl_language.specs.Terms as L;
ghost use Rattle.cddl_language.specs.Terms.{Text};
ghost use Rattle.cddl_literal.specs.Literals.{view};
ghost use Rattle.check_literals.specs.Literals.{AreLiterals, literal_at};
ghost use Rattle.check_root.specs.RangeFaults.Ends as by;
ghost use Rattle.check_root.specs.RangeFaults.Ends.{AreEnds, AsksWhole, IsBadEnd, IsEnd};
ghost use Rattle.all_offsets.specs.Offsets.{AreOffsets, IsAmong};
ghost use Rattle.lists.specs.Least.{IsLeast};

use all_offsets::{push_found, sort};
use cddl_literal::Literal;
use check_literals::Literals;
use check_reached::{Asked, Question};
use check_terms::Terms;
use check_terms::laws::equal_numbers;
use lists::lesser;
use std::alloc::{AllocError, Global};

// The least offset of what was asked whether it is a whole number, and is none.
pub(crate) fn bad_end(terms: &Terms<'_>, literals: &Literals, asked: &[Asked]) -> Option<usize>
    ensures { (xs : List L.Definition) (root : Text) (worth : Values) → AreLiterals xs root worth terms.now literals.now → AreEnds xs root worth terms.now asked.now → IsLeast (IsAmong (IsBadEnd xs worth terms.now) asked.now) result }
{
    let mut least = None;
    for question in asked {
        least = lesser(least, bad_end_at(terms, literals, *question));
    }
    least
}

// All offsets of these, in ascending order, each once.
pub(crate) fn all_bad_ends(
    alloc: Global,
    terms: &Terms<'_>,
    literals: &Literals,
    asked: &[Asked],
) -> Result<Vec<usize>, AllocError>
    ensures { IfOk result (λ v. (xs : List L.Definition) (root : Text) (worth : Values) → AreLiterals xs root worth terms.now literals.now → AreEnds xs root worth terms.now asked.now → AreOffsets (IsAmong (IsBadEnd xs worth terms.now) asked.now) v.items) }
{
    let mut offsets = Vec::new(alloc);
    for question in asked {
        push_found(&mut offsets, bad_end_at(terms, literals, *question))?;
    }
    sort(&mut offsets);
    Ok(offsets)
}

fn bad_end_at(terms: &Terms<'_>, literals: &Literals, asked: Asked) -> Option<usize>
    ensures { (xs : List L.Definition) (root : Text) (worth : Values) → AreLiterals xs root worth terms.now literals.now → (AsksWhole asked → IsEnd xs root worth terms.now asked.row) → IsLeast (IsBadEnd xs worth terms.now asked) result }
{
    equal_numbers(terms);
    match asked.question {
        Question::IsWhole if !is_whole_at(literals, asked.row) => Some(asked.at),
        _ => None,
    }
}

// Whether the type of this row is a whole number.
fn is_whole_at(literals: &Literals, row: u32) -> bool
    ensures { result ≡ by.is_whole (literal_at literals.now row) }
{
    is_whole(literals.get(row))
}

fn is_whole(literal: Option<&Literal>) -> bool
    ensures { result ≡ by.is_whole (option_map (λ l. view l.now) literal.entry) }
{
    matches!(literal, Some(Literal::Uint(_) | Literal::Nint(_)))
}
