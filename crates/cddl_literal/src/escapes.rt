//! Escapes in strings.

ghost use Rattle.std.specs.Prelude.{◌≡◌, ℕ, ◌+◌, ◌<◌, ◌≤◌, length, slice_index, MatchOption, SomeIff, ◌≢◌};
ghost use Rattle.std.specs.Char.{IsScalar};
ghost use Rattle.cddl_literal.specs.Bytes.{IsAt};
ghost use Rattle.cddl_literal.specs.Numbers.{number_after};
ghost use Rattle.cddl_literal.specs.Escapes.{letter_in, IsUnit};
ghost use Rattle.cddl_literal.specs.Answers.{IsEscapeAt};

use super::Quote;
use super::bytes::byte_at;
use super::digits::{digit_value, hex_end, number};

/// An escape in a string.
#[derive(Clone, Copy, Debug, PartialEq, Eq)]
pub struct Escape {
    /// The offset after its last byte.
    pub end: usize,
    /// The character that it means.
    pub scalar: char,
}

// The character that a letter after a backslash means.
fn letter_in(quote: Quote, b: u8) -> Option<char>
    ensures { result ≡ letter_in quote b }
{
    match b {
        b'\'' => match quote {
            Quote::Double => None,
            Quote::Single => Some('\''),
        },
        b'"' => Some('"'),
        b'/' => Some('/'),
        b'\\' => Some('\\'),
        b'b' => Some('\u{8}'),
        b'f' => Some('\u{c}'),
        b'n' => Some('\n'),
        b'r' => Some('\r'),
        b't' => Some('\t'),
        _ => None,
    }
}

// The number of the `\u` and four hex digits that are here.
fn unit_at(source: &[u8], at: usize) -> Option<u32>
    requires { at ≤ length source.now }
    ensures { MatchOption result ((n : ℕ) → IsUnit source.now at n → ⊥) (λ n. IsUnit source.now at n × (at + 6 ≤ length source.now) × (n < 65536)) }
{
    if byte_at(source, at) != b'\\' || byte_at(source, at + 1) != b'u' {
        return None;
    }
    if hex_end(source, at + 2) < at + 6 {
        return None;
    }
    let high = digit_value(source[at + 2]) * 16 + digit_value(source[at + 3]);
    let low = digit_value(source[at + 4]) * 16 + digit_value(source[at + 5]);
    Some(high * 256 + low)
}

// The character whose number the hex digits give.
fn scalar_of(digits: &[u8]) -> Option<char>
    ensures { SomeIff result (IsScalar (number_after 16 0 digits.now)) (number_after 16 0 digits.now) }
{
    let code = number(digits, 16)?;
    if code > 0x10_ffff {
        return None;
    }
    char::from_u32(code as u32)
}

// The escape of `\u` with braces that is here.
fn braced_at(source: &[u8], at: usize, quote: Quote) -> Option<Escape>
    requires within { at + 3 ≤ length source.now }
    requires backslash { IsAt "\\" source.now at }
    requires letter { IsAt "u" source.now (at + 1) }
    requires brace { IsAt "{" source.now (at + 2) }
    ensures { IsEscapeAt quote source.now at result }
{
    let end = hex_end(source, at + 3);
    if end == at + 3 || byte_at(source, end) != b'}' {
        return None;
    }
    match scalar_of(&source[at + 3..end]) {
        Some(scalar) => Some(Escape {
            end: end + 1,
            scalar,
        }),
        None => None,
    }
}

// The escape of one or two `\u` with four hex digits each that is here.
fn units_at(source: &[u8], at: usize, quote: Quote) -> Option<Escape>
    requires within { at + 2 ≤ length source.now }
    requires backslash { IsAt "\\" source.now at }
    requires letter { IsAt "u" source.now (at + 1) }
    requires no_brace { slice_index source.now (at + 2) ≢ 123 }
    ensures { IsEscapeAt quote source.now at result }
{
    let first = unit_at(source, at)?;
    if let Some(scalar) = char::from_u32(first) {
        return Some(Escape {
            end: at + 6,
            scalar,
        });
    }
    if first >= 0xdc00 {
        return None;
    }
    let second = unit_at(source, at + 6)?;
    if second < 0xdc00 || second >= 0xe000 {
        return None;
    }
    let scalar = char::from_u32(0x10000 + (first - 0xd800) * 1024 + (second - 0xdc00))?;
    Some(Escape {
        end: at + 12,
        scalar,
    })
}

/// The escape that is here, in a string in such quotes (RFC 9682, section 2.1).
pub fn escape_at(source: &[u8], at: usize, quote: Quote) -> Option<Escape>
    ensures { IsEscapeAt quote source.now at result }
{
    if byte_at(source, at) != b'\\' {
        return None;
    }
    if byte_at(source, at + 1) != b'u' {
        let scalar = letter_in(quote, byte_at(source, at + 1))?;
        return Some(Escape {
            end: at + 2,
            scalar,
        });
    }
    if byte_at(source, at + 2) == b'{' {
        braced_at(source, at, quote)
    } else {
        units_at(source, at, quote)
    }
}
