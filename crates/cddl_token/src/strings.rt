//! Strings.

ghost use Rattle.std.specs.Prelude.{◌≡◌, ℕ, ◌+◌, ◌<◌, ◌≤◌, true, false, length, slice_index, IsTrue, MatchOption};
ghost use Rattle.cddl_literal.specs.Bytes.{IsAt};
ghost use Rattle.cddl_literal.specs.Strings.{quote_byte};
ghost use Rattle.cddl_literal.specs.Prefixed.{Opens};
ghost use Rattle.cddl_literal.specs.declared.Coding.TheVariants.{Hex, Base64};
ghost use Rattle.cddl_token.specs.Strings.{StopsAt, OpensPrefixed};
ghost use Rattle.cddl_token.specs.Tokens.{IsRead, IsFound};

use crate::{Code, Fault, Kind, Refusal};
use cddl_literal::{Coding, Quote, byte_at, bytes_between, characters_end, coded_end, is_b, is_h};
use std::alloc::Global;

// The quote that closes a string.
fn quote_byte(quote: Quote) -> u8
    ensures { result ≡ quote_byte quote }
{
    match quote {
        Quote::Double => b'"',
        Quote::Single => b'\'',
    }
}

// Why the string that opens at `at` can't be read on from here, where its characters stop.
fn stop_at(source: &[u8], at: usize, here: usize) -> Fault
    requires { here ≤ length source.now }
    ensures { StopsAt source.now at here result.code result.at }
{
    if here == source.len() {
        Fault {
            code: Code::Unclosed,
            at,
        }
    } else if source[here] == b'\\' {
        Fault {
            code: Code::BadEscape,
            at: here,
        }
    } else {
        Fault {
            code: Code::BadCharacter,
            at: here,
        }
    }
}

// The text string or plain byte string that opens here, and its end.
pub(crate) fn quoted_at(source: &[u8], at: usize, quote: Quote) -> Result<(Kind, usize), Fault>
    requires begins { slice_index source.now at ≡ quote_byte quote }
    requires within { at < length source.now }
    ensures { IsRead source.now at result }
{
    let end = characters_end(source, at + 1, quote);
    if byte_at(source, end) != quote_byte(quote) {
        return Err(stop_at(source, at, end));
    }
    match quote {
        Quote::Double => Ok((Kind::Text, end + 1)),
        Quote::Single => Ok((Kind::Bytes, end + 1)),
    }
}

// Whether `h'` is here.
fn opens_hex(source: &[u8], at: usize) -> bool
    requires { at < length source.now }
    ensures yes { IsTrue result → Opens Hex source.now at (at + 2) × (at + 2 ≤ length source.now) }
    ensures otherwise { result ≡ false → (p : ℕ) → Opens Hex source.now at p → ⊥ }
{
    is_h(source[at]) && byte_at(source, at + 1) == b'\''
}

// Whether `64'` is here.
fn has_64(source: &[u8], at: usize) -> bool
    requires { at ≤ length source.now }
    ensures yes { IsTrue result → IsAt "6" source.now at × IsAt "4" source.now (at + 1) × IsAt "'" source.now (at + 2) × (at + 3 ≤ length source.now) }
    ensures otherwise { result ≡ false → IsAt "6" source.now at → IsAt "4" source.now (at + 1) → IsAt "'" source.now (at + 2) → ⊥ }
{
    byte_at(source, at) == b'6'
        && byte_at(source, at + 1) == b'4'
        && byte_at(source, at + 2) == b'\''
}

// Whether `b64'` is here.
fn opens_base64(source: &[u8], at: usize) -> bool
    requires { at < length source.now }
    ensures yes { IsTrue result → Opens Base64 source.now at (at + 4) × (at + 4 ≤ length source.now) }
    ensures otherwise { result ≡ false → (p : ℕ) → Opens Base64 source.now at p → ⊥ }
{
    is_b(source[at]) && has_64(source, at + 1)
}

// The prefix of a byte string that is here, and the offset after its quote.
pub(crate) fn prefix_at(source: &[u8], at: usize) -> Option<(Coding, usize)>
    requires { at < length source.now }
    ensures { MatchOption result (OpensPrefixed source.now at → ⊥) (λ p. Opens p.0 source.now at p.1 × (p.1 ≤ length source.now)) }
{
    if opens_hex(source, at) {
        Some((Coding::Hex, at + 2))
    } else if opens_base64(source, at) {
        Some((Coding::Base64, at + 4))
    } else {
        None
    }
}

// The byte string with prefix whose inside begins at `start`.
pub(crate) fn prefixed_at(
    alloc: Global,
    source: &[u8],
    at: usize,
    coding: Coding,
    start: usize,
) -> Result<(Kind, usize), Refusal>
    requires opens { Opens coding source.now at start }
    requires within { start ≤ length source.now }
    ensures { IsFound source.now at result }
{
    let end = coded_end(source, start);
    if byte_at(source, end) != b'\'' {
        let fault = stop_at(source, at, end);
        return Err(Refusal::At(fault.code, fault.at));
    }
    match bytes_between(alloc, coding, source, start, end) {
        Ok(Some(_)) => Ok((Kind::Bytes, end + 1)),
        Ok(None) => Err(Refusal::At(Code::BadBytes, at)),
        Err(_) => Err(Refusal::Memory),
    }
}
