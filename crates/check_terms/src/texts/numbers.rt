//! Numbers.

ghost use Rattle.std.specs.Prelude.{◌≡◌, ◌<◌, ◌≤◌, ◌^◌, SomeIff};
ghost use Rattle.cddl_literal.specs.Numbers.{digit_value, number_after};
ghost use Rattle.cddl_language.specs.Numbers.{uint_in};

use cddl_literal::{is_b, is_x};

/// The number that a text spells, in decimal digits, after `0x` in hex digits, or after `0b` in binary ones, if it is below
/// 2^64 (RFC 8610, appendix B: uint). No text is 0, and so is each byte that is no digit.
pub fn uint(text: &str) -> Option<u64>
    ensures { SomeIff result (uint_in text.now < 2 ^ 64) (uint_in text.now) }
{
    number_in(text.as_bytes())
}

// The same, of bytes.
pub(crate) fn number_in(text: &[u8]) -> Option<u64>
    ensures { SomeIff result (uint_in text.now < 2 ^ 64) (uint_in text.now) }
{
    match text {
        [_, sign, digits @ ..] if is_x(*sign) => number(digits, 16),
        [_, sign, digits @ ..] if is_b(*sign) => number(digits, 2),
        _ => number(text, 10),
    }
}

// The number that digits stand for, if it is below 2^64.
fn number(digits: &[u8], base: u128) -> Option<u64>
    requires some { 1 ≤ base }
    requires small { base ≤ 16 }
    ensures { SomeIff result (number_after base 0 digits.now < 2 ^ 64) (number_after base 0 digits.now) }
{
    let mut number: u128 = 0;
    for digit in digits {
        number = number * base + u128::from(digit_value(*digit));
        if number >= 1 << 64 {
            return None;
        }
    }
    Some(number as u64)
}

// The value of a hex digit, of either case, or 0.
#[tactic(auto, unfolding(cddl_literal::specs::Numbers::digit_value))]
pub(crate) fn digit_value(byte: u8) -> u8
    ensures value { result ≡ digit_value byte }
    ensures small { result < 16 }
{
    match byte {
        b'0'..=b'9' => byte - b'0',
        b'A'..=b'F' => byte - b'A' + 10,
        b'a'..=b'f' => byte - b'a' + 10,
        _ => 0,
    }
}
