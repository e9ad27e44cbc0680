//! Calls of `cddl_token`: the tokens of sources, the values of those that are literals, and what is refused.

ghost use Rattle.std.specs.Prelude.{◌<◌, All, vec_len};
ghost use Rattle.cddl_token.specs.Answers.{IsAnswered};

use call_lines::{bytes, count, first, push_no_memory, push_none, push_space};
use cddl_token::{Code, Literal, Refusal, Token, tokens, value};
use std::alloc::{AllocError, Global};

pub(crate) fn answer(
    alloc: Global,
    name: &str,
    words: &str,
    out: &mut String,
) -> Result<(), AllocError> {
    match name {
        "tokens" | "values" => answer_of_source(alloc, name, words, out),
        "refusal" => push_made_refusal(alloc, words, out),
        "code" => match codes().get(count(words)) {
            Some(code) => out.push_str(code.to_string(alloc)?.as_str()),
            None => out.push_str("none"),
        },
        _ => out.push_str("no such call"),
    }
}

// The kinds of the tokens of a source, or the values of its literals; or why it has no tokens.
fn answer_of_source(
    alloc: Global,
    name: &str,
    words: &str,
    out: &mut String,
) -> Result<(), AllocError> {
    let source = bytes(alloc, words)?;
    match tokens(alloc, &source) {
        Ok(found) => match name {
            "tokens" => push_kinds(alloc, &found, out),
            _ => push_values(alloc, &found, out),
        },
        Err(refusal) => push_refusal(alloc, refusal, out),
    }
}

fn push_kinds(alloc: Global, found: &[Token<'_>], out: &mut String) -> Result<(), AllocError> {
    for token in found {
        let kind = token.kind;
        push_space(out)?;
        out.push_str(format!(in alloc; "{kind:?}")?.as_str())?;
    }
    Ok(())
}

pub(crate) fn push_refusal(
    alloc: Global,
    refusal: Refusal,
    out: &mut String,
) -> Result<(), AllocError> {
    match refusal {
        Refusal::Memory => push_no_memory(out),
        Refusal::At(_, _) => out.push_str(refusal.to_string(alloc)?.as_str()),
    }
}

// What a token of a list stands for.
fn value_at(alloc: Global, found: &Vec<Token<'_>>, i: usize) -> Result<Option<Literal>, AllocError>
    requires within { i < vec_len found.now }
    requires answered { All IsAnswered found.now.items }
{
    value(alloc, &found[i])
}

// What the tokens that are literals stand for.
fn push_values(alloc: Global, found: &Vec<Token<'_>>, out: &mut String) -> Result<(), AllocError>
    requires { All IsAnswered found.now.items }
{
    for i in 0..found.len() {
        push_value(alloc, value_at(alloc, found, i), out)?;
    }
    push_none(out)
}

fn push_value(
    alloc: Global,
    value: Result<Option<Literal>, AllocError>,
    out: &mut String,
) -> Result<(), AllocError> {
    match value {
        Ok(Some(literal)) => push_literal(alloc, &literal, out),
        Ok(None) => Ok(()),
        Err(_) => push_no_memory(out),
    }
}

pub(crate) fn push_literal(
    alloc: Global,
    literal: &Literal,
    out: &mut String,
) -> Result<(), AllocError> {
    push_space(out)?;
    out.push_str(format!(in alloc; "{literal:?}")?.as_str())
}

// The line of a refusal for want of memory, or of the code of this number at a byte.
fn push_made_refusal(alloc: Global, words: &str, out: &mut String) -> Result<(), AllocError> {
    let (code, at) = first(words);
    let refusal = match codes().get(count(code)) {
        Some(found) if code != "memory" => Refusal::At(*found, count(at)),
        _ => Refusal::Memory,
    };
    out.push_str(refusal.to_string(alloc)?.as_str())
}

static CODES: [Code; 29] = [
    Code::NotUtf8,
    Code::BadCharacter,
    Code::Unclosed,
    Code::BadEscape,
    Code::BadNumber,
    Code::FloatLiteral,
    Code::NumberTooLarge,
    Code::BadBytes,
    Code::SourceTooLong,
    Code::Unexpected,
    Code::TooNested,
    Code::Duplicate,
    Code::KindClash,
    Code::Undefined,
    Code::Arity,
    Code::NoRoot,
    Code::BadRoot,
    Code::GroupAsType,
    Code::HashForm,
    Code::UnknownControl,
    Code::TooManyInstances,
    Code::NotUnwrappable,
    Code::Recursion,
    Code::NotLiteral,
    Code::BadRange,
    Code::BadController,
    Code::NoKey,
    Code::MapShape,
    Code::TooManyAlternatives,
];

fn codes() -> &'static [Code] {
    &CODES
}
