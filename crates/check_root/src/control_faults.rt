//! What is wrong with the sides of controls that a root reaches: with what items are compared with, with controllers of `.size`
//! and `.bits`, and with what literals are computed from.
mod computations;
mod controllers;
mod operands;

ghost use Rattle.std.specs.Prelude.{IfOk};
ghost use Rattle.all_offsets.specs.Offsets.{AreOffsets};
ghost use Rattle.cddl_language.specs.Faults.{HasBadController, HasNotLiteral, Specification, definitions, rules};
ghost use Rattle.cddl_language.specs.Literals.{AreRight, Values};
ghost use Rattle.cddl_language.specs.Terms.{Text};
ghost use Rattle.check_literals.specs.Literals.{AreLiterals};
ghost use Rattle.cddl_language.specs.Live.Live.{IsClear};
ghost use Rattle.check_reached.specs.Asked.{AreAsked};
ghost use Rattle.check_literals.specs.Sizes.Sizes.{AreControllers};
ghost use Rattle.lists.specs.Least.{IsLeast};

use crate::control_faults::controllers::{Wrong, all_wrong, least_wrong};
use cddl_language::live::reached_parts;
use cddl_language::written::operand_values;
use check_literals::Literals;
use check_literals::sizes::Controllers;
use check_reached::Asked;
use check_terms::Terms;
use check_terms::laws::equal_numbers;
use std::alloc::{AllocError, Global};

/// The least offset of what is no literal as a control asks for: a controller of `.eq`, `.ne`, `.lt`, `.le`, `.gt` or `.ge` that
/// is no literal (RFC 8610 section 3.8.6); a side of `.plus` that is no whole number, or a side of `.cat` or `.det` that is no
/// string; or the right side where a sum is out of range or a join is too long (RFC 9165 section 2).
///
/// The rows are of this table. It takes a time in proportion to what is asked and to the names of the controls.
pub fn not_literal(terms: &Terms<'_>, literals: &Literals, asked: &[Asked]) -> Option<usize>
    ensures { (s : Specification) (root : Text) (worth : Values) → AreRight s.tree worth → IsClear s → AreLiterals (definitions s) root worth terms.now literals.now → AreAsked (rules s) root terms.now asked.now → IsLeast (HasNotLiteral s worth root) result }
{
    equal_numbers(terms);
    reached_parts();
    operand_values();
    least_wrong(terms, literals, asked, Wrong::NotLiteral)
}

/// All offsets of what is no such literal, in ascending order, each once.
///
/// The rows are of this table. It takes a time of n log n for n questions, and the names of the controls. An error comes only
/// where memory is refused.
pub fn all_not_literal(
    alloc: Global,
    terms: &Terms<'_>,
    literals: &Literals,
    asked: &[Asked],
) -> Result<Vec<usize>, AllocError>
    ensures { IfOk result (λ v. (s : Specification) (root : Text) (worth : Values) → AreRight s.tree worth → IsClear s → AreLiterals (definitions s) root worth terms.now literals.now → AreAsked (rules s) root terms.now asked.now → AreOffsets (HasNotLiteral s worth root) v.items) }
{
    equal_numbers(terms);
    reached_parts();
    operand_values();
    all_wrong(alloc, terms, literals, asked, Wrong::NotLiteral)
}

/// The least offset of a controller that is not as its control asks for: one of `.lt`, `.le`, `.gt` or `.ge` that is a literal
/// and no whole number (RFC 8610 section 3.8.6); one of `.size` or `.bits` that has no members as they have to be (sections 3.8.1
/// and 3.8.2); or the right side of `.cat` or `.det` where the join is to be a text and is not UTF-8 (RFC 9165 section 2.2).
///
/// The rows and the controllers are of this table. It takes a time in proportion to what is asked.
pub fn bad_controller(
    terms: &Terms<'_>,
    literals: &Literals,
    controllers: &Controllers,
    asked: &[Asked],
) -> Option<usize>
    ensures { (s : Specification) (root : Text) (worth : Values) → AreRight s.tree worth → IsClear s → AreLiterals (definitions s) root worth terms.now literals.now → AreControllers (definitions s) root worth terms.now controllers.now → AreAsked (rules s) root terms.now asked.now → IsLeast (HasBadController s worth root) result }
{
    equal_numbers(terms);
    reached_parts();
    operand_values();
    least_wrong(terms, literals, asked, Wrong::BadController(controllers))
}

/// All offsets of such controllers, in ascending order, each once.
///
/// The rows and the controllers are of this table. It takes a time of n log n for n questions. An error comes only where memory
/// is refused.
pub fn all_bad_controller(
    alloc: Global,
    terms: &Terms<'_>,
    literals: &Literals,
    controllers: &Controllers,
    asked: &[Asked],
) -> Result<Vec<usize>, AllocError>
    ensures { IfOk result (λ v. (s : Specification) (root : Text) (worth : Values) → AreRight s.tree worth → IsClear s → AreLiterals (definitions s) root worth terms.now literals.now → AreControllers (definitions s) root worth terms.now controllers.now → AreAsked (rules s) root terms.now asked.now → AreOffsets (HasBadController s worth root) v.items) }
{
    equal_numbers(terms);
    reached_parts();
    operand_values();
    all_wrong(
        alloc,
        terms,
        literals,
        asked,
        Wrong::BadController(controllers),
    )
}
