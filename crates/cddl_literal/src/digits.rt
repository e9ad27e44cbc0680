//! The numbers that digits stand for.

ghost use Rattle.std.specs.Prelude.{◌≡◌, ℕ, ◌+◌, ◌<◌, ◌≤◌, ◌^◌, true, false, length, slice_index, SomeIff};
ghost use Rattle.hex.specs.Hex.{is_hex_digit};
ghost use Rattle.cddl_literal.specs.Bytes.{Each};
ghost use Rattle.cddl_literal.specs.Numbers.{digit_value, number_after};

use super::bytes::is_hex_digit;

// The value of a hex digit, of either case, or 0.
#[tactic(auto, unfolding(crate::specs::Numbers::digit_value))]
pub(crate) fn digit_value(b: u8) -> u32
    ensures value { result ≡ digit_value b }
    ensures small { result < 16 }
{
    if b >= b'A' && b <= b'F' {
        u32::from(b - b'A') + 10
    } else if b >= b'a' && b <= b'f' {
        u32::from(b - b'a') + 10
    } else if b >= b'0' && b <= b'9' {
        u32::from(b - b'0')
    } else {
        0
    }
}

// Where the hex digits that begin here end.
pub(crate) fn hex_end(source: &[u8], at: usize) -> usize
    requires { at ≤ length source.now }
    ensures from { at ≤ result }
    ensures in_source { result ≤ length source.now }
    ensures each { Each is_hex_digit source.now at result }
    ensures stops { is_hex_digit (slice_index source.now result) ≡ false }
{
    let mut i = at;
    while i < source.len() && is_hex_digit(source[i]) {
        i += 1;
    }
    i
}

// The number that digits stand for, up to 2^64.
pub(crate) fn number(digits: &[u8], base: u128) -> Option<u128>
    requires some { 1 ≤ base }
    requires small { base ≤ 16 }
    ensures { SomeIff result (number_after base 0 digits.now ≤ 2 ^ 64) (number_after base 0 digits.now) }
{
    let mut number: u128 = 0;
    for b in digits {
        number = number * base + u128::from(digit_value(*b));
        if number > 1 << 64 {
            return None;
        }
    }
    Some(number)
}
