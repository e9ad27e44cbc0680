//! Numbers and occurrences.

ghost use Rattle.std.specs.Prelude.{◌≡◌, ℕ, Bool, ◌+◌, ◌^◌, ◌<◌, ◌≤◌, ◌⊎◌, true, false, length, slice_index, IsTrue};
ghost use Rattle.cddl_literal.specs.Bytes.{IsAt, is_decimal_digit};
ghost use Rattle.cddl_literal.specs.Numbers.{Meaning, IsSigned, IsNumber, IsTooLarge};
ghost use Rattle.cddl_token.specs.Numbers.{IsPrefix, IsBound};
ghost use Rattle.cddl_token.specs.Shapes.{marks_radix, IsLongestBound, BeginsOccur};
ghost use Rattle.cddl_token.specs.Spelling.{Reading, Spells};
ghost use Rattle.cddl_token.specs.Tokens.{IsRead};

use crate::numbers::{Radix, Shape, digits_end, shape_at};
use crate::{Code, Fault, Kind};
use cddl_literal::{byte_at, is_b, is_digit, is_x, number_of, uint_of};

// Where the uint with a prefix ends that begins here. Without digits it is the prefix's `0` alone.
fn prefixed_uint_end(source: &[u8], at: usize, radix: Radix) -> usize
    requires begins { IsPrefix (marks_radix radix) source.now at }
    requires within { at + 2 ≤ length source.now }
    ensures bound { IsLongestBound source.now at result }
    ensures in_source { result ≤ length source.now }
{
    let end = digits_end(source, at + 2, radix);
    if end == at + 2 { at + 1 } else { end }
}

// Where the uint that begins here ends, or this offset where none does.
pub(crate) fn uint_end(source: &[u8], at: usize) -> usize
    requires { at ≤ length source.now }
    ensures bound { IsLongestBound source.now at result }
    ensures in_source { result ≤ length source.now }
{
    if byte_at(source, at) != b'0' {
        return digits_end(source, at, Radix::Decimal);
    }
    let letter = byte_at(source, at + 1);
    if is_x(letter) {
        prefixed_uint_end(source, at, Radix::Hexadecimal)
    } else if is_b(letter) {
        prefixed_uint_end(source, at, Radix::Binary)
    } else {
        at + 1
    }
}

// Whether a uint or nothing counts less than 2^64.
pub(crate) fn fits(source: &[u8], from: usize, to: usize) -> bool
    requires within { to ≤ length source.now }
    requires spelled { (n : ℕ) × IsBound source.now from to n }
    ensures yes { IsTrue result → (n : ℕ) → IsBound source.now from to n → n < 2 ^ 64 }
    ensures otherwise { result ≡ false → (n : ℕ) → IsBound source.now from to n → 2 ^ 64 ≤ n }
{
    if from == to {
        return true;
    }
    match uint_of(source, from, to) {
        Some(_) => true,
        None => false,
    }
}

// Whether both bounds of an occurrence count less than 2^64.
fn both_fit(source: &[u8], at: usize, star: usize, end: usize) -> bool
    requires within { star < end }
    requires in_source { end ≤ length source.now }
    requires low { (n : ℕ) × IsBound source.now at star n }
    requires high { (n : ℕ) × IsBound source.now (star + 1) end n }
    ensures yes { IsTrue result → ((n : ℕ) → IsBound source.now at star n → n < 2 ^ 64) × ((n : ℕ) → IsBound source.now (star + 1) end n → n < 2 ^ 64) }
    ensures otherwise { result ≡ false → ((n : ℕ) → IsBound source.now at star n → 2 ^ 64 ≤ n) ⊎ ((n : ℕ) → IsBound source.now (star + 1) end n → 2 ^ 64 ≤ n) }
{
    if !fits(source, at, star) {
        return false;
    }
    fits(source, star + 1, end)
}

// The occurrence whose `*` is at `star`.
pub(crate) fn occur_at(source: &[u8], at: usize, star: usize) -> Result<(Kind, usize), Fault>
    requires within { star < length source.now }
    requires sign { IsAt "*" source.now star }
    requires before { BeginsOccur source.now at star }
    ensures { IsRead source.now at result }
{
    let end = uint_end(source, star + 1);
    if both_fit(source, at, star, end) {
        Ok((Kind::Occur, end))
    } else {
        Err(Fault {
            code: Code::NumberTooLarge,
            at,
        })
    }
}

// Whether a number is not too large.
fn number_fits(source: &[u8], from: usize, to: usize) -> bool
    requires within { to ≤ length source.now }
    requires spelled { (minus : Bool) × (n : ℕ) × IsSigned minus source.now from to n }
    ensures yes { IsTrue result → (m : Meaning) × IsNumber source.now from to m }
    ensures otherwise { result ≡ false → IsTooLarge source.now from to }
{
    number_of(source, from, to).is_some()
}

// The number that is here, if it is not too large.
fn number_or_fault(source: &[u8], at: usize, end: usize) -> Result<(Kind, usize), Fault>
    requires within { end ≤ length source.now }
    requires spelled { (minus : Bool) × (n : ℕ) × IsSigned minus source.now at end n }
    requires longest { (q : Reading) (m : ℕ) → Spells q source.now at m → m ≤ end }
    ensures { IsRead source.now at result }
{
    if number_fits(source, at, end) {
        Ok((Kind::Number, end))
    } else {
        Err(Fault {
            code: Code::NumberTooLarge,
            at,
        })
    }
}

// What begins with `-`.
pub(crate) fn negative_at(source: &[u8], at: usize) -> Result<(Kind, usize), Fault>
    requires begins { IsAt "-" source.now at }
    requires within { at < length source.now }
    ensures { IsRead source.now at result }
{
    if !is_digit(byte_at(source, at + 1)) {
        return Err(Fault {
            code: Code::BadNumber,
            at,
        });
    }
    let (shape, end) = shape_at(source, at + 1);
    match shape {
        Shape::Uint => number_or_fault(source, at, end),
        Shape::Misspelled => Err(Fault {
            code: Code::BadNumber,
            at,
        }),
        Shape::Float => Err(Fault {
            code: Code::FloatLiteral,
            at,
        }),
    }
}

// What begins with a digit.
pub(crate) fn digit_at(source: &[u8], at: usize) -> Result<(Kind, usize), Fault>
    requires begins { is_decimal_digit (slice_index source.now at) ≡ true }
    requires within { at < length source.now }
    ensures { IsRead source.now at result }
{
    let (shape, end) = shape_at(source, at);
    match shape {
        Shape::Uint => {
            if byte_at(source, end) == b'*' {
                occur_at(source, at, end)
            } else {
                number_or_fault(source, at, end)
            }
        }
        Shape::Misspelled => Err(Fault {
            code: Code::BadNumber,
            at,
        }),
        Shape::Float => Err(Fault {
            code: Code::FloatLiteral,
            at,
        }),
    }
}
