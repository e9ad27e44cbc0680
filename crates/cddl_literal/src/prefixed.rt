//! Byte strings in hex and base64.

ghost use Rattle.std.specs.Prelude.{◌≡◌, ℕ, ◌+◌, ◌<◌, ◌≤◌, ◌↔◌, List, map, true, false, length, slice_index, IsTrue, IfOk, MatchResult, ◌≢◌};
ghost use Rattle.std.specs.List.{list_any};
ghost use Rattle.base64.specs.declared.decode.DecodeAllocError.{DecodeAllocError};
ghost use Rattle.std.specs.Option.{option_map};
ghost use Rattle.cddl_literal.specs.Bytes.{IsAt};
ghost use Rattle.cddl_literal.specs.Strings.{IsFurthest};
ghost use Rattle.cddl_literal.specs.Prefixed.{Coded, HoldsCoded, IsCommentTo, EndsComment, is_in_inner_comment, standard_letter, is_padding, hex_bytes, base64_bytes, coded_bytes};

use super::Coding;
use super::bytes::{byte_at, is_blank, is_cr_lf, is_in_comment};
use base64::DecodeAllocError;
use base64::engine::general_purpose::{STANDARD, STANDARD_NO_PAD};
use hex::FromHexError;
use std::alloc::{AllocError, Global};

// Whether a comment inside a byte string may hold a byte.
fn is_in_inner_comment(b: u8) -> bool
    ensures { result ≡ is_in_inner_comment b }
{
    is_in_comment(b) && b != b'\'' && b != b'\\'
}

// Where the comment that begins here ends, or holds what it may not.
fn comment_stop(source: &[u8], at: usize) -> usize
    requires begins { IsAt ";" source.now at }
    requires within { at < length source.now }
    ensures comment { IsCommentTo source.now at result }
    ensures stops { is_in_inner_comment (slice_index source.now result) ≡ false }
    ensures in_source { result ≤ length source.now }
{
    let mut i = at + 1;
    while i < source.len() && is_in_inner_comment(source[i]) {
        i += 1;
    }
    i
}

// Whether a line ends here, or the string.
fn ends_comment(source: &[u8], at: usize) -> bool
    ensures yes { IsTrue result → EndsComment source.now at }
    ensures goes_on { result ≡ false → EndsComment source.now at → ⊥ }
{
    let b = byte_at(source, at);
    b == b'\n' || b == b'\'' || is_cr_lf(source, at)
}

/// Where what begins here stops, inside a byte string with prefix: where the string closes, at a
/// backslash, at what a comment may not hold, or at the source's end. White space and comments may be
/// in it (RFC 8610, section 3.1).
pub fn coded_end(source: &[u8], at: usize) -> usize
    requires { at ≤ length source.now }
    ensures furthest { IsFurthest (HoldsCoded source.now at) result }
    // A comment that reaches the closing quote ends there.
    ensures closed { IsAt "'" source.now result → (d : List ℕ) × Coded source.now at result d }
    ensures in_source { result ≤ length source.now }
{
    let mut i = at;
    while i < source.len() {
        let b = source[i];
        if b == b';' {
            let stop = comment_stop(source, i);
            if !ends_comment(source, stop) {
                return stop;
            }
            i = stop;
        } else if is_blank(b) {
            i += 1;
        } else if is_cr_lf(source, i) {
            i += 2;
        } else if b == b'\'' || b == b'\\' {
            return i;
        } else {
            i += 1;
        }
    }
    i
}

// What is from one offset to another, without white space and comments.
fn coded_between(
    alloc: Global,
    source: &[u8],
    from: usize,
    to: usize,
) -> Result<Vec<u8>, AllocError>
    requires within { to ≤ length source.now }
    requires holds { (d : List ℕ) × Coded source.now from to d }
    ensures { (d : List ℕ) → Coded source.now from to d → IfOk result (λ v. v.items ≡ d) }
{
    let mut out = Vec::new(alloc);
    let mut i = from;
    while i < to {
        let b = source[i];
        if b == b';' {
            i = comment_stop(source, i);
        } else if is_blank(b) {
            i += 1;
        } else if is_cr_lf(source, i) {
            i += 2;
        } else {
            out.push(b)?;
            i += 1;
        }
    }
    Ok(out)
}

// A letter of the alphabet for URLs as one of the standard alphabet.
fn standard_letter(b: u8) -> u8
    ensures { result ≡ standard_letter b }
{
    if b == b'-' {
        b'+'
    } else if b == b'_' {
        b'/'
    } else {
        b
    }
}

// The bytes that hex digits stand for, if they do.
fn hex_bytes(alloc: Global, digits: &[u8]) -> Result<Option<Vec<u8>>, AllocError>
    ensures { IfOk result (λ o. option_map (λ v. v.items) o ≡ hex_bytes digits.now) }
{
    match hex::decode(alloc, digits) {
        Ok(bytes) => Ok(Some(bytes)),
        Err(error) => match error {
            FromHexError::OutOfMemory => Err(AllocError),
            _ => Ok(None),
        },
    }
}

// Whether `=` is among the letters.
fn has_padding(letters: &[u8]) -> bool
    ensures { result ≡ list_any is_padding letters.now }
{
    letters.iter().any(|b| *b == b'=')
}

// The letters in the standard alphabet.
fn standard_letters(alloc: Global, letters: &[u8]) -> Result<Vec<u8>, AllocError>
    ensures { IfOk result (λ v. v.items ≡ map standard_letter letters.now) }
{
    letters.iter().map(|b| standard_letter(*b)).collect(alloc)
}

// The bytes that a decoder answers, or none where the text was at fault.
fn unless_faulty(answer: Result<Vec<u8>, DecodeAllocError>) -> Result<Option<Vec<u8>>, AllocError>
    ensures { IfOk result (λ o. MatchResult answer (λ v. o ≡ Some v) (λ e. (o ≡ None) × (e ≢ DecodeAllocError.OutOfMemory))) }
{
    match answer {
        Ok(bytes) => Ok(Some(bytes)),
        Err(DecodeAllocError::OutOfMemory) => Err(AllocError),
        Err(DecodeAllocError::DecodeError(_)) => Ok(None),
    }
}

// The bytes that letters in base64 stand for, if they do.
fn base64_bytes(alloc: Global, letters: &[u8]) -> Result<Option<Vec<u8>>, AllocError>
    ensures { IfOk result (λ o. option_map (λ v. v.items) o ≡ base64_bytes letters.now) }
{
    let standard = standard_letters(alloc, letters)?;
    if has_padding(letters) {
        unless_faulty(STANDARD.decode(alloc, &standard))
    } else {
        unless_faulty(STANDARD_NO_PAD.decode(alloc, &standard))
    }
}

/// The bytes of what is between the quotes of a byte string with prefix, or none where it is no hex or
/// base64 (RFC 4648, sections 4, 5 and 8).
///
/// # Errors
///
/// `AllocError` where memory runs out.
pub fn bytes_between(
    alloc: Global,
    coding: Coding,
    source: &[u8],
    from: usize,
    to: usize,
) -> Result<Option<Vec<u8>>, AllocError>
    requires within { to ≤ length source.now }
    requires holds { (d : List ℕ) × Coded source.now from to d }
    ensures { (d : List ℕ) → Coded source.now from to d → IfOk result (λ o. option_map (λ v. v.items) o ≡ coded_bytes coding d) }
{
    let characters = coded_between(alloc, source, from, to)?;
    match coding {
        Coding::Hex => hex_bytes(alloc, &characters),
        Coding::Base64 => base64_bytes(alloc, &characters),
    }
}
