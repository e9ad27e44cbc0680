//! Text strings and byte strings, where they are spelled rightly.

ghost use Rattle.std.specs.Prelude.{◌≡◌, ℕ, ◌≤◌, List, false, length, IfOk, IsTrue};
ghost use Rattle.std.specs.Option.{option_map};
ghost use Rattle.std.specs.String.{string_bytes};
ghost use Rattle.cddl_literal.specs.Literals.{IsBytes, IsText};
ghost use Rattle.cddl_literal.specs.Prefixed.{Opens};
ghost use Rattle.cddl_literal.specs.Strings.{IsQuoted, quote_byte};
ghost use Rattle.cddl_literal.specs.declared.Coding.TheVariants as CodingV;
ghost use Rattle.check_literals.specs.Values.Values.{Answers, IsCoded};

use cddl_literal::{
    Coding, Quote, byte_at, bytes_between, bytes_value, characters_end, closes_at_stop, coded_end,
    is_b, is_h, one_meaning, text_value,
};
use std::alloc::{AllocError, Global};

fn quote_byte(quote: Quote) -> u8
    ensures { result ≡ quote_byte quote }
{
    match quote {
        Quote::Double => b'"',
        Quote::Single => b'\'',
    }
}

// Whether the text is a string in such quotes.
fn is_quoted(source: &[u8], quote: Quote) -> bool
    ensures yes { IsTrue result → (v : List ℕ) × IsQuoted quote source.now 0 (length source.now) v }
    ensures otherwise { result ≡ false → (v : List ℕ) → IsQuoted quote source.now 0 (length source.now) v → ⊥ }
{
    closes_at_stop();
    let sign = quote_byte(quote);
    if source.is_empty() || source[0] != sign {
        return false;
    }
    let end = characters_end(source, 1, quote);
    if byte_at(source, end) != sign {
        return false;
    }
    source.len() - end == 1
}

// The value of a text string, if the text is one.
pub(crate) fn text_in(alloc: Global, text: &str) -> Result<Option<String>, AllocError>
    ensures { IfOk result (λ o. Answers (IsText text.now 0 (length text.now)) (option_map string_bytes o)) }
{
    if !is_quoted(text.as_bytes(), Quote::Double) {
        return Ok(None);
    }
    let value = text_value(alloc, text)?;
    Ok(Some(value))
}

// Whether the text begins with `h'`.
fn opens_hex(source: &[u8]) -> bool
    ensures yes { IsTrue result → Opens CodingV.Hex source.now 0 2 }
    ensures within { IsTrue result → 2 ≤ length source.now }
    ensures otherwise { result ≡ false → (e : ℕ) → Opens CodingV.Hex source.now 0 e → ⊥ }
{
    is_h(byte_at(source, 0)) && byte_at(source, 1) == b'\''
}

// Whether the text begins with `b64'`.
fn opens_base64(source: &[u8]) -> bool
    ensures yes { IsTrue result → Opens CodingV.Base64 source.now 0 4 }
    ensures within { IsTrue result → 4 ≤ length source.now }
    ensures otherwise { result ≡ false → (e : ℕ) → Opens CodingV.Base64 source.now 0 e → ⊥ }
{
    is_b(byte_at(source, 0))
        && byte_at(source, 1) == b'6'
        && byte_at(source, 2) == b'4'
        && byte_at(source, 3) == b'\''
}

// The bytes of a string with such a prefix, whose quote is before `start`, if the text is one.
fn coded_in(
    alloc: Global,
    coding: Coding,
    source: &[u8],
    start: usize,
) -> Result<Option<Vec<u8>>, AllocError>
    requires opens { Opens coding source.now 0 start }
    requires within { start ≤ length source.now }
    ensures { IfOk result (λ o. Answers (IsCoded source.now) (option_map (λ v. v.items) o)) }
{
    closes_at_stop();
    one_meaning();
    let end = coded_end(source, start);
    if byte_at(source, end) != b'\'' {
        return Ok(None);
    }
    if source.len() - end != 1 {
        return Ok(None);
    }
    bytes_between(alloc, coding, source, start, end)
}

// The bytes of a string with prefix, if the text is one.
fn prefixed_in(alloc: Global, source: &[u8]) -> Result<Option<Vec<u8>>, AllocError>
    ensures { IfOk result (λ o. Answers (IsCoded source.now) (option_map (λ v. v.items) o)) }
{
    if opens_hex(source) {
        coded_in(alloc, Coding::Hex, source, 2)
    } else if opens_base64(source) {
        coded_in(alloc, Coding::Base64, source, 4)
    } else {
        Ok(None)
    }
}

// The value of a byte string, plain or with prefix, if the text is one.
pub(crate) fn bytes_in(alloc: Global, text: &str) -> Result<Option<Vec<u8>>, AllocError>
    ensures { IfOk result (λ o. Answers (IsBytes text.now 0 (length text.now)) (option_map (λ v. v.items) o)) }
{
    let source = text.as_bytes();
    if !is_quoted(source, Quote::Single) {
        return prefixed_in(alloc, source);
    }
    let value = bytes_value(alloc, text)?;
    Ok(Some(value))
}
