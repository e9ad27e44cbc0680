//! The part of a text that a refusal is about.

ghost use Rattle.std.specs.Prelude.{◌≡◌, ℕ, ◌≤◌, length, map, IfOk, IfSome};
ghost use Rattle.cddl_token.specs.Answers.{span, InOrder};
ghost use Rattle.cddl_explain.specs.Parts.{has_token, is_end, is_open, part_of_token, place, shape_of, token_part, AreTokens, IsFlawed, IsPart, IsWithin};

use crate::stops::{Stop, run_end};
use cddl_token::{Code, Kind, Refusal, Token, tokens};
use std::alloc::{AllocError, Global};

/// A part of a text.
#[derive(Clone, Copy, Debug, PartialEq, Eq)]
pub(crate) struct Part {
    /// The offset of its first byte.
    pub(crate) from: usize,
    /// The offset after its last byte.
    pub(crate) to: usize,
    /// Whether it stands for the end of the text.
    pub(crate) ends: bool,
}

/// What of a text that has no tokens a fault is in.
#[derive(Clone, Copy, Debug, PartialEq, Eq)]
pub(crate) enum Shape {
    /// One character.
    Character,
    /// The rest of a line.
    Rest,
    /// A number.
    Word,
    /// A prefixed string.
    Quoted,
    /// Nothing that could be shown.
    Nothing,
}

// The tokens of a text, and none where it has none.
pub(crate) fn tokens_of<'s>(alloc: Global, text: &'s [u8]) -> Result<Vec<Token<'s>>, AllocError>
    ensures tokens { IfOk result (λ v. AreTokens text.now v.items) }
    ensures in_order { IfOk result (λ v. InOrder 0 (length text.now) (map span v.items)) }
{
    match tokens(alloc, text) {
        Ok(found) => Ok(found),
        Err(Refusal::At(_, _)) => Ok(Vec::new(alloc)),
        Err(Refusal::Memory) => Err(AllocError),
    }
}

// The part of the text that a refusal with this code at this offset is about.
pub(crate) fn part_of(code: Code, text: &[u8], offset: usize, tokens: &[Token<'_>]) -> Part
    requires { InOrder 0 (length text.now) (map span tokens.now) }
    ensures part { IsPart code text.now offset tokens.now result }
    ensures within { IsWithin (length text.now) result }
{
    let at = offset.min(text.len());
    if !has_token(code) {
        return place(at);
    }
    match token_part(tokens, offset) {
        Some(part) => part,
        None => flawed_part(code, text, at),
    }
}

fn place(at: usize) -> Part
    ensures { result ≡ place at }
{
    Part {
        from: at,
        to: at,
        ends: false,
    }
}

// Whether the offset of a refusal with this code is that of a token.
fn has_token(code: Code) -> bool
    ensures { result ≡ has_token code }
{
    !matches!(code, Code::NoRoot | Code::TooManyInstances)
}

// The part of the token that begins at an offset, if one does.
fn token_part(tokens: &[Token<'_>], offset: usize) -> Option<Part>
    ensures part { result ≡ token_part offset 0 tokens.now }
    ensures within { (end : ℕ) → InOrder 0 end (map span tokens.now) → IfSome result (IsWithin end) }
{
    let mut before = 0;
    for token in tokens {
        if token.start == offset {
            return Some(part_of_token(before, token));
        }
        before = token.end;
    }
    None
}

fn part_of_token(before: usize, token: &Token<'_>) -> Part
    ensures { result ≡ part_of_token before token.now }
{
    if is_end(token.kind) {
        return Part {
            from: before,
            to: before,
            ends: true,
        };
    }
    let to = if is_open(token.kind) {
        token.start.max(token.end.saturating_sub(1))
    } else {
        token.end
    };
    Part {
        from: token.start,
        to,
        ends: false,
    }
}

pub(crate) fn is_open(kind: Kind) -> bool
    ensures { result ≡ is_open kind }
{
    matches!(kind, Kind::NameOpen)
}

fn is_end(kind: Kind) -> bool
    ensures { result ≡ is_end kind }
{
    matches!(kind, Kind::End)
}

// The part with a fault for which a text has no tokens.
fn flawed_part(code: Code, text: &[u8], at: usize) -> Part
    requires { at ≤ length text.now }
    ensures part { IsFlawed (shape_of code) text.now at result }
    ensures within { IsWithin (length text.now) result }
{
    match shape_of(code) {
        Shape::Character => run(
            text,
            at,
            text.len().min(at.saturating_add(1)),
            Stop::Character,
        ),
        Shape::Rest => run(text, at, at, Stop::Line),
        Shape::Word => run(text, at, at, Stop::Word),
        Shape::Quoted => quoted(text, at),
        Shape::Nothing => place(at),
    }
}

// What a refusal with this code, of a text that has no tokens, is about.
fn shape_of(code: Code) -> Shape
    ensures { result ≡ shape_of code }
{
    match code {
        Code::BadCharacter | Code::BadEscape => Shape::Character,
        Code::Unclosed => Shape::Rest,
        Code::BadNumber | Code::FloatLiteral | Code::NumberTooLarge => Shape::Word,
        Code::BadBytes => Shape::Quoted,
        _ => Shape::Nothing,
    }
}

// From an offset to the end of the run that begins at it, or after it.
fn run(text: &[u8], from: usize, begin: usize, stop: Stop) -> Part
    requires in_order { from ≤ begin }
    requires within { begin ≤ length text.now }
    ensures part { Rattle.cddl_explain.specs.Parts.IsRun stop text.now begin from result }
    ensures within { IsWithin (length text.now) result }
{
    let to = run_end(text, begin, stop);
    Part {
        from,
        to,
        ends: false,
    }
}

// A string in single quotes, with its prefix.
fn quoted(text: &[u8], from: usize) -> Part
    requires { from ≤ length text.now }
    ensures part { IsFlawed Shape.Quoted text.now from result }
    ensures within { IsWithin (length text.now) result }
{
    let opened = run_end(text, from, Stop::Quote);
    let inside = text.len().min(opened.saturating_add(1));
    let closed = run_end(text, inside, Stop::Quote);
    Part {
        from,
        to: text.len().min(closed.saturating_add(1)),
        ends: false,
    }
}
