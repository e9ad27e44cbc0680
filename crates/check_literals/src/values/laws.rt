//! Laws of written literals.

ghost use Rattle.std.specs.Prelude.{◌≡◌, Option, Some};
ghost use Rattle.cddl_literal.specs.Numbers.{Meaning};
ghost use Rattle.cddl_language.specs.Terms.{Literal};
ghost use Rattle.cddl_language.specs.Literals.{Means};
ghost use Rattle.check_literals.specs.Values.Values.{Answers};

/// A literal has one value at most.
pub fn one_value()
    ensures value { (w : Literal) (m n : Meaning) → Means w m → Means w n → n ≡ m }
    ensures answer { (w : Literal) (m : Meaning) (o : Option Meaning) → Means w m → Answers (Means w) o → o ≡ Some m }
{
    cddl_literal::one_meaning();
}
