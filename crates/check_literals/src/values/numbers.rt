//! Numbers, where they are spelled rightly.

ghost use Rattle.std.specs.Prelude.{◌≡◌, ℕ, ◌≤◌, Bool, false, length, IsTrue};
ghost use Rattle.std.specs.Option.{option_map};
ghost use Rattle.cddl_literal.specs.Bytes.{IsRun};
ghost use Rattle.cddl_literal.specs.Literals.{view};
ghost use Rattle.cddl_literal.specs.Numbers.{IsNumber, IsSigned, IsUint};
ghost use Rattle.check_literals.specs.Values.Digits.{is_digit_in};
ghost use Rattle.check_literals.specs.Values.Values.{Answers};

use cddl_literal::{
    Literal, byte_at, is_b, is_binary_digit, is_digit, is_hex_digit, is_x, number_of,
};

/// What digits count in.
#[derive(Clone, Copy)]
pub(crate) enum Base {
    Binary,
    Decimal,
    Hexadecimal,
}

fn is_digit_in(base: Base, b: u8) -> bool
    ensures { result ≡ is_digit_in base b }
{
    match base {
        Base::Binary => is_binary_digit(b),
        Base::Decimal => is_digit(b),
        Base::Hexadecimal => is_hex_digit(b),
    }
}

// Whether from an offset to the end are digits, one at least.
fn are_digits(source: &[u8], from: usize, base: Base) -> bool
    ensures yes { IsTrue result → IsRun (is_digit_in base) source.now from (length source.now) }
    ensures otherwise { result ≡ false → IsRun (is_digit_in base) source.now from (length source.now) → ⊥ }
{
    let mut i = from;
    while i < source.len() {
        if !is_digit_in(base, source[i]) {
            return false;
        }
        i += 1;
    }
    from < source.len()
}

// Whether a uint is from an offset to the end.
fn is_uint(source: &[u8], from: usize) -> bool
    requires { from ≤ 1 }
    ensures yes { IsTrue result → (n : ℕ) × IsUint source.now from (length source.now) n }
    ensures otherwise { result ≡ false → (n : ℕ) → IsUint source.now from (length source.now) n → ⊥ }
{
    if byte_at(source, from) != b'0' {
        return are_digits(source, from, Base::Decimal);
    }
    let letter = byte_at(source, from + 1);
    if is_x(letter) {
        are_digits(source, from + 2, Base::Hexadecimal)
    } else if is_b(letter) {
        are_digits(source, from + 2, Base::Binary)
    } else {
        source.len() == from + 1
    }
}

// Whether the text is a uint, with a `-` before it or not.
fn is_signed(source: &[u8]) -> bool
    ensures yes { IsTrue result → (minus : Bool) × (n : ℕ) × IsSigned minus source.now 0 (length source.now) n }
    ensures otherwise { result ≡ false → (minus : Bool) (n : ℕ) → IsSigned minus source.now 0 (length source.now) n → ⊥ }
{
    if byte_at(source, 0) == b'-' {
        is_uint(source, 1)
    } else {
        is_uint(source, 0)
    }
}

// The number that the text is, if it is one that is not too large.
pub(crate) fn number_in(source: &[u8]) -> Option<Literal>
    ensures { Answers (IsNumber source.now 0 (length source.now)) (option_map view result) }
{
    if !is_signed(source) {
        return None;
    }
    number_of(source, 0, source.len())
}
