//! Text strings and plain byte strings.

ghost use Rattle.std.specs.Prelude.{◌≡◌, ℕ, ◌+◌, ◌<◌, ◌≤◌, true, false, length, slice_index, IsTrue, IfOk, List, ◌-◌};
ghost use Rattle.std.specs.String.{string_bytes};
ghost use Rattle.cddl_literal.specs.Literals.{IsText};
ghost use Rattle.cddl_literal.specs.Prefixed.{IsCrLf};
ghost use Rattle.cddl_literal.specs.Bytes.{Each};
ghost use Rattle.cddl_literal.specs.Strings.{quote_byte, is_plain, Characters, HoldsCharacters, IsFurthest};

use super::Quote;
use super::bytes::is_cr_lf;
use super::escapes::escape_at;
use std::alloc::{AllocError, Global};

// A byte that stands for itself.
fn is_plain(quote: Quote, b: u8) -> bool
    ensures { result ≡ is_plain quote b }
{
    match quote {
        Quote::Double => b >= 32 && b != b'\\' && b != 127 && b != b'"',
        Quote::Single => (b >= 32 && b != b'\\' && b != 127 && b != b'\'') || b == b'\n',
    }
}

// Where the bytes that begin here and stand for themselves end.
fn plain_end(source: &[u8], at: usize, quote: Quote) -> usize
    requires { at ≤ length source.now }
    ensures from { at ≤ result }
    ensures in_source { result ≤ length source.now }
    ensures each { Each (is_plain quote) source.now at result }
    ensures stops { is_plain quote (slice_index source.now result) ≡ false }
{
    let mut i = at;
    while i < source.len() && is_plain(quote, source[i]) {
        i += 1;
    }
    i
}

// Whether a carriage return and a line feed are here, in a string that may hold them.
fn is_line(source: &[u8], at: usize, quote: Quote) -> bool
    ensures yes { IsTrue result → (quote ≡ Quote.Single) × IsCrLf source.now at }
    ensures inside { IsTrue result → at + 1 < length source.now }
    ensures no_line { result ≡ false → quote ≡ Quote.Single → IsCrLf source.now at → ⊥ }
{
    match quote {
        Quote::Double => false,
        Quote::Single => is_cr_lf(source, at),
    }
}

/// Where the characters that begin here stop, in a string in such quotes: where it closes, at a
/// backslash that begins no escape, at a character that it may not hold, or at the source's end (RFC 8610,
/// appendix B; RFC 9682, section 2.1).
pub fn characters_end(source: &[u8], at: usize, quote: Quote) -> usize
    requires { at ≤ length source.now }
    ensures furthest { IsFurthest (HoldsCharacters quote source.now at) result }
    ensures in_source { result ≤ length source.now }
{
    let mut i = at;
    while i < source.len() {
        if is_plain(quote, source[i]) {
            i += 1;
        } else if let Some(escape) = escape_at(source, i, quote) {
            i = escape.end;
        } else if is_line(source, i, quote) {
            i += 2;
        } else {
            break;
        }
    }
    i
}

// The value of the characters from one offset to another, between quotes.
pub(crate) fn characters_between(
    alloc: Global,
    text: &str,
    from: usize,
    to: usize,
    quote: Quote,
) -> Result<String, AllocError>
    requires inside { 0 < from }
    requires opens { slice_index text.now (from - 1) ≡ quote_byte quote }
    requires closes { slice_index text.now to ≡ quote_byte quote }
    requires within { to < length text.now }
    requires holds { HoldsCharacters quote text.now from to }
    ensures { (v : List ℕ) → Characters quote text.now from to v → IfOk result (λ t. string_bytes t ≡ v) }
{
    let source = text.as_bytes();
    let mut out = String::new(alloc);
    let mut i = from;
    while i < to {
        if let Some(escape) = escape_at(source, i, quote) {
            out.push(escape.scalar)?;
            i = escape.end;
        } else if is_line(source, i, quote) {
            out.push('\n')?;
            i += 2;
        } else {
            let end = plain_end(source, i, quote);
            out.push_str(&text[i..end])?;
            i = end;
        }
    }
    Ok(out)
}

/// The characters of a text string, from its opening to its closing quote.
///
/// # Errors
///
/// `AllocError` where memory runs out.
pub fn text_value(alloc: Global, text: &str) -> Result<String, AllocError>
    requires { (v : List ℕ) × IsText text.now 0 (length text.now) v }
    ensures { (v : List ℕ) → IsText text.now 0 (length text.now) v → IfOk result (λ t. string_bytes t ≡ v) }
{
    characters_between(alloc, text, 1, text.len() - 1, Quote::Double)
}
