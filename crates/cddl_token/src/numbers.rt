//! The digits of numbers, and what is spelled wrongly among them.

ghost use Rattle.std.specs.Prelude.{◌≡◌, ℕ, ◌+◌, ◌<◌, ◌≤◌, true, false, length, slice_index, MatchOption, IsTrue};
ghost use Rattle.cddl_literal.specs.Bytes.{Each, IsAt, is_b, is_decimal_digit, is_x};
ghost use Rattle.cddl_token.specs.Bytes.{is_e, is_p, is_sign};
ghost use Rattle.cddl_token.specs.Numbers.{IsPrefix, IsExponent};
ghost use Rattle.cddl_token.specs.Shapes.{is_digit_in, marks_exponent, IsDecimalTail, IsHexFraction, IsHexTail, IsLongestShape};

use cddl_literal::{byte_at, is_b, is_binary_digit, is_digit, is_hex_digit, is_x};

/// What the digits of a number begin with says how they are read.
#[derive(Clone, Copy, Debug, PartialEq, Eq)]
pub(crate) enum Radix {
    Binary,
    Decimal,
    Hexadecimal,
}

/// What may begin with a digit.
#[derive(Clone, Copy, Debug, PartialEq, Eq)]
pub(crate) enum Shape {
    Uint,
    Misspelled,
    Float,
}

// Whether a byte is a digit.
fn is_digit_in(radix: Radix, b: u8) -> bool
    ensures { result ≡ is_digit_in radix b }
{
    match radix {
        Radix::Binary => is_binary_digit(b),
        Radix::Decimal => is_digit(b),
        Radix::Hexadecimal => is_hex_digit(b),
    }
}

// Whether a byte begins the exponent of a number in this radix.
fn marks_exponent(radix: Radix, b: u8) -> bool
    ensures { result ≡ marks_exponent radix b }
{
    match radix {
        Radix::Hexadecimal => b == b'p' || b == b'P',
        _ => b == b'e' || b == b'E',
    }
}

// Whether a byte is `+` or `-`.
fn is_sign(b: u8) -> bool
    ensures { result ≡ is_sign b }
{
    b == b'+' || b == b'-'
}

// Where the digits that begin here end.
pub(crate) fn digits_end(source: &[u8], at: usize, radix: Radix) -> usize
    requires { at ≤ length source.now }
    ensures from { at ≤ result }
    ensures in_source { result ≤ length source.now }
    ensures each { Each (is_digit_in radix) source.now at result }
    ensures stops { is_digit_in radix (slice_index source.now result) ≡ false }
{
    let mut i = at;
    while i < source.len() && is_digit_in(radix, source[i]) {
        i += 1;
    }
    i
}

// Where the exponent that begins here ends.
fn exponent_end(source: &[u8], at: usize, radix: Radix) -> Option<usize>
    requires { at ≤ length source.now }
    ensures { MatchOption result ((m : ℕ) → IsExponent (marks_exponent radix) source.now at m → ⊥) (λ e. IsExponent (marks_exponent radix) source.now at e × (e ≤ length source.now)) }
{
    if !marks_exponent(radix, byte_at(source, at)) {
        return None;
    }
    let next = byte_at(source, at + 1);
    if is_digit(next) {
        return Some(at + 2);
    }
    if is_sign(next) && is_digit(byte_at(source, at + 2)) {
        return Some(at + 3);
    }
    None
}

// Where the `.` and the digit end that are here.
fn fraction_end(source: &[u8], at: usize) -> Option<usize>
    requires { at ≤ length source.now }
    ensures { MatchOption result (IsAt "." source.now at → is_decimal_digit (slice_index source.now (at + 1)) ≡ true → ⊥) (λ e. IsAt "." source.now at × (is_decimal_digit (slice_index source.now (at + 1)) ≡ true) × (e ≡ at + 2) × (e ≤ length source.now)) }
{
    if byte_at(source, at) == b'.' && is_digit(byte_at(source, at + 1)) {
        Some(at + 2)
    } else {
        None
    }
}

// Where what shows a float after a decimal ends.
fn decimal_tail_end(source: &[u8], at: usize) -> Option<usize>
    requires { at ≤ length source.now }
    ensures { MatchOption result ((m : ℕ) → IsDecimalTail source.now at m → ⊥) (λ e. IsDecimalTail source.now at e × (e ≤ length source.now)) }
{
    match exponent_end(source, at, Radix::Decimal) {
        Some(end) => Some(end),
        None => fraction_end(source, at),
    }
}

// Where the `.`, hex digits and exponent end that are here.
fn hex_fraction_end(source: &[u8], at: usize) -> Option<usize>
    requires { at ≤ length source.now }
    ensures { MatchOption result ((m : ℕ) → IsHexFraction source.now at m → ⊥) (λ e. IsHexFraction source.now at e × (e ≤ length source.now)) }
{
    if byte_at(source, at) != b'.' {
        return None;
    }
    let end = digits_end(source, at + 1, Radix::Hexadecimal);
    if end == at + 1 {
        return None;
    }
    exponent_end(source, end, Radix::Hexadecimal)
}

// Where what shows a float after hex digits ends.
fn hex_tail_end(source: &[u8], at: usize) -> Option<usize>
    requires { at ≤ length source.now }
    ensures { MatchOption result ((m : ℕ) → IsHexTail source.now at m → ⊥) (λ e. IsHexTail source.now at e × (e ≤ length source.now)) }
{
    match exponent_end(source, at, Radix::Hexadecimal) {
        Some(end) => Some(end),
        None => hex_fraction_end(source, at),
    }
}

// What begins with `0x`, and its end.
fn hex_shape_at(source: &[u8], at: usize) -> (Shape, usize)
    requires begins { IsPrefix is_x source.now at }
    requires within { at + 2 ≤ length source.now }
    ensures longest { IsLongestShape result.0 source.now at result.1 }
    ensures in_source { result.1 ≤ length source.now }
{
    let end = digits_end(source, at + 2, Radix::Hexadecimal);
    if end == at + 2 {
        return (Shape::Misspelled, end);
    }
    match hex_tail_end(source, end) {
        Some(tail) => (Shape::Float, tail),
        None => (Shape::Uint, end),
    }
}

// What begins with `0b`, and its end.
fn binary_shape_at(source: &[u8], at: usize) -> (Shape, usize)
    requires begins { IsPrefix is_b source.now at }
    requires within { at + 2 ≤ length source.now }
    ensures longest { IsLongestShape result.0 source.now at result.1 }
    ensures in_source { result.1 ≤ length source.now }
{
    let end = digits_end(source, at + 2, Radix::Binary);
    if end == at + 2 {
        (Shape::Misspelled, end)
    } else {
        (Shape::Uint, end)
    }
}

// Whether digits begin with a 0 and go on.
fn has_zero_first(source: &[u8], from: usize, end: usize) -> bool
    requires some { from < end }
    requires within { end ≤ length source.now }
    ensures yes { IsTrue result → IsAt "0" source.now from × (from + 1 < end) }
    ensures otherwise { result ≡ false → IsAt "0" source.now from → end ≡ from + 1 }
{
    source[from] == b'0' && from + 1 < end
}

// What begins with a decimal, and its end.
fn decimal_shape_at(source: &[u8], at: usize) -> (Shape, usize)
    requires begins { is_decimal_digit (slice_index source.now at) ≡ true }
    requires no_hex { IsPrefix is_x source.now at → ⊥ }
    requires no_binary { IsPrefix is_b source.now at → ⊥ }
    requires within { at < length source.now }
    ensures longest { IsLongestShape result.0 source.now at result.1 }
    ensures in_source { result.1 ≤ length source.now }
{
    let end = digits_end(source, at, Radix::Decimal);
    match decimal_tail_end(source, end) {
        Some(tail) => (Shape::Float, tail),
        None => {
            if has_zero_first(source, at, end) {
                (Shape::Misspelled, end)
            } else {
                (Shape::Uint, end)
            }
        }
    }
}

// What begins with a digit, and its end.
pub(crate) fn shape_at(source: &[u8], at: usize) -> (Shape, usize)
    requires begins { is_decimal_digit (slice_index source.now at) ≡ true }
    requires within { at < length source.now }
    ensures longest { IsLongestShape result.0 source.now at result.1 }
    ensures in_source { result.1 ≤ length source.now }
{
    if source[at] != b'0' {
        return decimal_shape_at(source, at);
    }
    let letter = byte_at(source, at + 1);
    if is_x(letter) {
        hex_shape_at(source, at)
    } else if is_b(letter) {
        binary_shape_at(source, at)
    } else {
        decimal_shape_at(source, at)
    }
}
