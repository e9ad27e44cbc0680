//! What is wrong with what stands beside controls, by rows.

ghost use Rattle.std.specs.Prelude.{◌≡◌, IfOk, List, Some, true};
ghost use Rattle.std.specs.Option.{option_map};
ghost use Rattle.check_root.specs.ControlFaults.Controllers as by;
ghost use Rattle.check_root.specs.ControlFaults.Controllers.{AreFlags, AreThere, IsThere, IsWrong, has_members, is_asked, membership_asked};
ghost use Rattle.cddl_language.specs.Literals.{Values};
ghost use Rattle.cddl_language.specs.Terms as L;
ghost use Rattle.cddl_language.specs.Terms.{Text};
ghost use Rattle.cddl_literal.specs.Literals.{view};
ghost use Rattle.check_literals.specs.Literals.{AreLiterals};
ghost use Rattle.all_offsets.specs.Offsets.{AreOffsets, IsAmong};
ghost use Rattle.check_literals.specs.Sizes.Sizes.{flag_at, flags_of};
ghost use Rattle.lists.specs.Least.{IsLeast};

use crate::control_faults::computations::is_wrong_control;
use crate::control_faults::operands::{is_number, is_string};
use all_offsets::{push_found, sort};
use cddl_literal::Literal;
use check_literals::Literals;
use check_literals::sizes::Controllers;
use check_reached::{Asked, Question};
use check_terms::Terms;
use check_terms::laws::equal_numbers;
use check_terms::texts::Membership;
use lists::lesser;
use std::alloc::{AllocError, Global};

/// What can be wrong with what stands beside a control.
#[derive(Clone, Copy)]
pub(crate) enum Wrong<'f> {
    /// It is no literal, or none that the control takes, or both sides make one that is out of range.
    NotLiteral,
    /// It is a literal and no whole number, where the order of numbers is asked; or it is none of these controllers, where
    /// members are asked; or both sides make a text that is not UTF-8.
    BadController(&'f Controllers),
}

// The least offset at which this is wrong.
pub(crate) fn least_wrong(
    terms: &Terms<'_>,
    literals: &Literals,
    asked: &[Asked],
    wrong: Wrong<'_>,
) -> Option<usize>
    ensures { (xs : List L.Definition) (root : Text) (worth : Values) → AreLiterals xs root worth terms.now literals.now → AreFlags xs root worth terms.now wrong.entry → AreThere xs root worth terms.now asked.now → IsLeast (IsAmong (IsWrong xs worth terms.now wrong.entry) asked.now) result }
{
    let mut least = None;
    for question in asked {
        least = lesser(least, wrong_at(terms, literals, *question, wrong));
    }
    least
}

// All offsets at which this is wrong, in ascending order, each once.
pub(crate) fn all_wrong(
    alloc: Global,
    terms: &Terms<'_>,
    literals: &Literals,
    asked: &[Asked],
    wrong: Wrong<'_>,
) -> Result<Vec<usize>, AllocError>
    ensures { IfOk result (λ v. (xs : List L.Definition) (root : Text) (worth : Values) → AreLiterals xs root worth terms.now literals.now → AreFlags xs root worth terms.now wrong.entry → AreThere xs root worth terms.now asked.now → AreOffsets (IsAmong (IsWrong xs worth terms.now wrong.entry) asked.now) v.items) }
{
    let mut offsets = Vec::new(alloc);
    for question in asked {
        push_found(&mut offsets, wrong_at(terms, literals, *question, wrong))?;
    }
    sort(&mut offsets);
    Ok(offsets)
}

fn wrong_at(terms: &Terms<'_>, literals: &Literals, asked: Asked, wrong: Wrong<'_>) -> Option<usize>
    ensures { (xs : List L.Definition) (root : Text) (worth : Values) → AreLiterals xs root worth terms.now literals.now → AreFlags xs root worth terms.now wrong.entry → (is_asked asked.question ≡ true → IsThere xs root worth terms.now asked) → IsLeast (IsWrong xs worth terms.now wrong.entry asked) result }
{
    equal_numbers(terms);
    if is_wrong(terms, literals, asked, wrong) {
        Some(asked.at)
    } else {
        None
    }
}

// Whether it is wrong with what is asked of.
fn is_wrong(terms: &Terms<'_>, literals: &Literals, asked: Asked, wrong: Wrong<'_>) -> bool
    ensures { result ≡ by.is_wrong_row terms.now literals.now wrong.entry asked.question asked.row }
{
    match asked.question {
        Question::Computes => is_wrong_control(terms, literals, asked.row, wrong),
        question => is_wrong_type(wrong, question, literals.get(asked.row), asked.row),
    }
}

// Whether it is wrong with the type of this row, which is this literal, or none.
fn is_wrong_type(wrong: Wrong<'_>, question: Question, literal: Option<&Literal>, row: u32) -> bool
    ensures { result ≡ by.is_wrong_type wrong.entry question (option_map (λ l. view l.now) literal.entry) (has_members wrong.entry question row) }
{
    match wrong {
        Wrong::NotLiteral => is_wrong_literal(question, literal),
        Wrong::BadController(controllers) => {
            is_bad_controller(
                question,
                literal,
                is_flagged(flags_for(controllers, question), row),
            )
        }
    }
}

fn is_wrong_literal(question: Question, literal: Option<&Literal>) -> bool
    ensures { result ≡ by.is_wrong_literal question (option_map (λ l. view l.now) literal.entry) }
{
    match question {
        Question::IsLiteral | Question::IsNumber => literal.is_none(),
        Question::IsAddend => !is_number(literal),
        Question::IsString => !is_string(literal),
        _ => false,
    }
}

// The flags of the controllers for which it is asked.
fn flags_for(controllers: &Controllers, question: Question) -> &[bool]
    ensures { result.now ≡ flags_of controllers.now (membership_asked question) }
{
    match question {
        Question::HasBits => controllers.of(Membership::Bits),
        _ => controllers.of(Membership::Size),
    }
}

fn is_bad_controller(question: Question, literal: Option<&Literal>, has_members: bool) -> bool
    ensures { result ≡ by.is_bad_controller question (option_map (λ l. view l.now) literal.entry) has_members }
{
    match question {
        Question::IsNumber => literal.is_some() && !is_number(literal),
        Question::HasSizes | Question::HasBits => !has_members,
        _ => false,
    }
}

fn is_flagged(flags: &[bool], row: u32) -> bool
    ensures { result ≡ flag_at flags.now row }
{
    match flags.get(row as usize) {
        Some(flag) => *flag,
        None => false,
    }
}
