//! What literals are.

ghost use Rattle.std.specs.Prelude.{◌≡◌, is_some};
ghost use Rattle.std.specs.Option.{option_map};
ghost use Rattle.cddl_language.specs.Controls.{join, sum};
ghost use Rattle.cddl_language.specs.Faults as F;
ghost use Rattle.cddl_language.specs.Literals.{whole};
ghost use Rattle.cddl_literal.specs.Literals.{view};
ghost use Rattle.cddl_literal.specs.declared.operators.Joining.{Joining};
ghost use Rattle.check_terms.specs.Texts.Controls.{computation_view};

use cddl_literal::Literal;
use check_terms::texts::Computation;

// Whether it is a literal, and a whole number.
pub(crate) fn is_number(literal: Option<&Literal>) -> bool
    ensures addend { result ≡ F.is_operand sum (option_map (λ l. view l.now) literal.entry) }
    ensures whole { result ≡ is_some (whole (option_map (λ l. view l.now) literal.entry)) }
{
    matches!(literal, Some(Literal::Uint(_) | Literal::Nint(_)))
}

// Whether it is a literal, and a string.
pub(crate) fn is_string(literal: Option<&Literal>) -> bool
    ensures { (j : Joining) → result ≡ F.is_operand (join j) (option_map (λ l. view l.now) literal.entry) }
{
    matches!(literal, Some(Literal::Text(_) | Literal::Bytes(_)))
}

// Whether it is a literal that the computation takes.
pub(crate) fn is_operand(computation: Computation, literal: Option<&Literal>) -> bool
    ensures { result ≡ F.is_operand (computation_view computation) (option_map (λ l. view l.now) literal.entry) }
{
    match computation {
        Computation::Sum => is_number(literal),
        Computation::Join(_) => is_string(literal),
    }
}
