//! Where the rule of a name is.

ghost use Rattle.std.specs.Prelude.{◌≡◌, [], length, string_bytes, IfOk};
ghost use Rattle.cddl_explain.specs.Origins.{first_rule, place_words, IsOrigin, IsToldAt};

use crate::rules::{begins_rule, name_of_token};
use cddl_token::Token;
use std::alloc::{AllocError, Global};
use text_position::position_of;

// Where the first rule of a name is, unless that is here: words after what is wrong, or none.
pub(crate) fn origin_hint(
    alloc: Global,
    text: &[u8],
    here: usize,
    tokens: &[Token<'_>],
    name: &str,
) -> Result<String, AllocError>
    ensures { IfOk result (λ told. IsOrigin text.now here tokens.now name.now (string_bytes told)) }
{
    match first_rule(tokens, name).first() {
        Some(rule) => told_at(alloc, text, here, rule.start),
        None => Ok(String::new(alloc)),
    }
}

fn told_at(alloc: Global, text: &[u8], here: usize, start: usize) -> Result<String, AllocError>
    ensures { IfOk result (λ told. IsToldAt text.now here start (string_bytes told)) }
{
    if start == here {
        return Ok(String::new(alloc));
    }
    let position = position_of(text, start);
    place_words(alloc, position.line, position.column)
}

fn place_words(alloc: Global, line: usize, column: usize) -> Result<String, AllocError>
    ensures { IfOk result (λ told. string_bytes told ≡ place_words line column) }
{
    format!(in alloc; "; the first rule of this name is in line {line}, column {column}")
}

// The tokens from the first rule of a name on, and none where it has no rule.
pub(crate) fn first_rule<'t, 's>(tokens: &'t [Token<'s>], name: &str) -> &'t [Token<'s>]
    ensures { result.now ≡ first_rule name.now tokens.now }
{
    'rule: for k in 0..tokens.len() {
        if begins_rule(tokens, k) && *name_of_token(tokens[k].text) == *name {
            return &tokens[k..];
        }
    }
    &tokens[..0]
}
