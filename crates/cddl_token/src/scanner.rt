//! The scanner: gaps and tokens by turns.

ghost use Rattle.std.specs.Prelude.{◌≡◌, ℕ, ◌+◌, ◌-◌, ◌<◌, ◌≤◌, false, true, length, slice_index, slice_range, map, All, MatchResult};
ghost use Rattle.cddl_literal.specs.Bytes.{IsAt};
ghost use Rattle.cddl_token.specs.Bytes.{is_ealpha};
ghost use Rattle.cddl_token.specs.Tokens.{StartsNoGap, IsRead, IsFound, Tokenized};
ghost use Rattle.cddl_token.specs.Answers.{span, IsReadFrom, StopsScan};

use crate::bytes::is_ealpha;
use crate::gaps::gap_end;
use crate::hashes::hash_at;
use crate::names::{dot_at, name_at};
use crate::signs::{equals_at, single_at, slash_at};
use crate::strings::{prefix_at, prefixed_at, quoted_at};
use crate::uints::{digit_at, negative_at, occur_at};
use crate::{Code, Fault, Kind, Refusal, Token};
use cddl_literal::{Quote, is_digit};
use std::alloc::Global;

// The name or the byte string with prefix that begins here, and its end.
fn word_at(alloc: Global, source: &[u8], at: usize) -> Result<(Kind, usize), Refusal>
    requires begins { is_ealpha (slice_index source.now at) ≡ true }
    requires within { at < length source.now }
    ensures { IsFound source.now at result }
{
    match prefix_at(source, at) {
        Some((coding, start)) => prefixed_at(alloc, source, at, coding, start),
        None => Ok(name_at(source, at)),
    }
}

// The token that begins here with no letter, and its end.
fn sign_at(source: &[u8], at: usize) -> Result<(Kind, usize), Fault>
    requires within { at < length source.now }
    requires no_gap { StartsNoGap source.now at }
    requires no_comment { IsAt ";" source.now at → ⊥ }
    requires no_letter { is_ealpha (slice_index source.now at) ≡ false }
    ensures { IsRead source.now at result }
{
    let first = source[at];
    if is_digit(first) {
        return digit_at(source, at);
    }
    match first {
        b'-' => negative_at(source, at),
        b'*' => occur_at(source, at, at),
        b'"' => quoted_at(source, at, Quote::Double),
        b'\'' => quoted_at(source, at, Quote::Single),
        b'#' => hash_at(source, at),
        b'=' => Ok(equals_at(source, at)),
        b'/' => Ok(slash_at(source, at)),
        b'.' => dot_at(source, at),
        _ => match single_at(source, at) {
            Some(kind) => Ok((kind, at + 1)),
            None => Err(Fault {
                code: Code::BadCharacter,
                at,
            }),
        },
    }
}

// The token that begins here, and its end.
fn token_at(alloc: Global, source: &[u8], at: usize) -> Result<(Kind, usize), Refusal>
    requires within { at < length source.now }
    requires no_gap { StartsNoGap source.now at }
    requires no_comment { IsAt ";" source.now at → ⊥ }
    ensures { IsFound source.now at result }
{
    if is_ealpha(source[at]) {
        return word_at(alloc, source, at);
    }
    match sign_at(source, at) {
        Ok(found) => Ok(found),
        Err(fault) => Err(Refusal::At(fault.code, fault.at)),
    }
}

// The part of a text from one offset to another, with ASCII on the inner side of both.
fn text_between(text: &str, start: usize, end: usize) -> &str
    requires past { start < end }
    requires within { end ≤ length text.now }
    requires first { slice_index text.now start < 128 }
    requires last { slice_index text.now (end - 1) < 128 }
    ensures { result.now ≡ slice_range text.now start end }
{
    &text[start..end]
}

// The tokens of a source, which `text` is too.
pub(crate) fn scan<'s>(
    alloc: Global,
    source: &[u8],
    text: &'s str,
) -> Result<Vec<Token<'s>>, Refusal>
    requires { text.now ≡ source.now }
    ensures { MatchResult result (λ v. Tokenized source.now 0 (map span v.items) × All (IsReadFrom source.now) v.items) (λ e. StopsScan source.now e) }
{
    let mut out = Vec::new(alloc);
    let mut at = 0;
    loop {
        let start = match gap_end(source, at) {
            Ok(start) => start,
            Err(fault) => return Err(Refusal::At(fault.code, fault.at)),
        };
        if start == source.len() {
            let last = Token {
                kind: Kind::End,
                start,
                end: start,
                text: "",
            };
            match out.push(last) {
                Ok(()) => return Ok(out),
                Err(_) => return Err(Refusal::Memory),
            }
        }
        let (kind, end) = token_at(alloc, source, start)?;
        match out.push(Token {
            kind,
            start,
            end,
            text: text_between(text, start, end),
        }) {
            Ok(()) => at = end,
            Err(_) => return Err(Refusal::Memory),
        }
    }
}
