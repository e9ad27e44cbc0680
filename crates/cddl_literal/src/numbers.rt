//! Numbers.

ghost use Rattle.std.specs.Prelude.{◌≡◌, ℕ, ◌+◌, ◌<◌, ◌≤◌, ◌^◌, Bool, length, slice_index, SomeIff};
ghost use Rattle.std.specs.Option.{option_map};
ghost use Rattle.cddl_literal.specs.Literals.{view};
ghost use Rattle.cddl_literal.specs.Numbers.{Meaning, IsUint, IsSigned, IsNumber, signed};

use super::Literal;
use super::digits::number;

// The uint from one offset to another, if it is at most 2^64.
fn magnitude(source: &[u8], from: usize, to: usize) -> Option<u128>
    requires within { to ≤ length source.now }
    requires spelled { (n : ℕ) × IsUint source.now from to n }
    ensures { (n : ℕ) → IsUint source.now from to n → SomeIff result (n ≤ 2 ^ 64) n }
{
    if source[from] != b'0' || to < from + 2 {
        number(&source[from..to], 10)
    } else if source[from + 1] == b'x' || source[from + 1] == b'X' {
        number(&source[from + 2..to], 16)
    } else {
        number(&source[from + 2..to], 2)
    }
}

/// The uint from one offset to another, if it is below 2^64 (RFC 8610, appendix B).
pub fn uint_of(source: &[u8], from: usize, to: usize) -> Option<u64>
    requires within { to ≤ length source.now }
    requires spelled { (n : ℕ) × IsUint source.now from to n }
    ensures { (n : ℕ) → IsUint source.now from to n → SomeIff result (n < 2 ^ 64) n }
{
    let number = magnitude(source, from, to)?;
    u64::try_from(number).ok()
}

/// The number from one offset to another, maybe with a `-` before it, if it is not too large: from -2^64
/// to 2^64 - 1.
pub fn number_of(source: &[u8], from: usize, to: usize) -> Option<Literal>
    requires within { to ≤ length source.now }
    requires spelled { (minus : Bool) × (n : ℕ) × IsSigned minus source.now from to n }
    ensures { (minus : Bool) (n : ℕ) → IsSigned minus source.now from to n → option_map view result ≡ signed minus n }
{
    if source[from] != b'-' {
        let number = uint_of(source, from, to)?;
        return Some(Literal::Uint(number));
    }
    let number = magnitude(source, from + 1, to)?;
    if number == 0 {
        Some(Literal::Uint(0))
    } else {
        Some(Literal::Nint((number - 1) as u64))
    }
}

/// What a number stands for, given from its first byte to its last.
pub fn number_value(text: &[u8]) -> Literal
    requires { (m : Meaning) × IsNumber text.now 0 (length text.now) m }
    ensures { (m : Meaning) → IsNumber text.now 0 (length text.now) m → view result ≡ m }
{
    match number_of(text, 0, text.len()) {
        Some(literal) => literal,
        None => unreachable!(),
    }
}
