//! What could be meant by a root that is none: words after what is wrong.

ghost use Rattle.std.specs.Prelude.{◌≡◌, ◌<◌, ◌==◌, ◌&&◌, drop, length, option_map, string_bytes, IfOk};
ghost use Rattle.cddl_explain.specs.Rules.{begins_rule};
ghost use Rattle.cddl_explain.specs.Roots.{begins_container, ends_as_key, first_container, is_arrow, is_container, is_equals, other_words, root_words};

use crate::arity::count_after;
use crate::meant::is_plain;
use crate::parts::is_open;
use crate::rules::begins_rule;
use cddl_token::{Kind, Token};
use std::alloc::{AllocError, Global};

pub(crate) const ANOTHER_ROOT: &str = "; --root names another root";

pub(crate) const TYPE_OR_ROOT: &str =
    "; `[ ]` round it makes an array, and `{ }` a map; --root names another root";

// Of a root that begins with the tokens `here`, with the name of a rule that could be meant and does not begin at the offset.
pub(crate) fn root_words(
    alloc: Global,
    tokens: &[Token<'_>],
    at: usize,
    here: &[Token<'_>],
) -> Result<String, AllocError>
    ensures { IfOk result (λ told. string_bytes told ≡ root_words (first_container at tokens.now) here.now) }
{
    match first_container(tokens, at) {
        Some(name) => format!(in alloc; "; did you mean --root {name}?"),
        None => other_words(alloc, here),
    }
}

fn other_words(alloc: Global, here: &[Token<'_>]) -> Result<String, AllocError>
    ensures { IfOk result (λ told. string_bytes told ≡ other_words here.now) }
{
    match here.first() {
        Some(first) if !is_open(first.kind) => format!(in alloc; "{TYPE_OR_ROOT}"),
        _ => format!(in alloc; "{ANOTHER_ROOT}"),
    }
}

// The name of the first rule that is an array, a map or a tag and does not begin here.
fn first_container<'s>(tokens: &[Token<'s>], here: usize) -> Option<&'s str>
    ensures { option_map (λ n. n.now) result ≡ first_container here tokens.now }
{
    'rule: for k in 0..tokens.len() {
        if begins_container(here, &tokens[k..]) {
            return Some(tokens[k].text);
        }
    }
    None
}

// Whether a rule begins that is an array, a map or a tag, and not here.
fn begins_container(here: usize, tokens: &[Token<'_>]) -> bool
    ensures { result ≡ begins_container here tokens.now }
{
    match tokens {
        [name, sign, body, rest @ ..] => {
            name.start != here
                && is_plain(name.kind)
                && is_equals(sign.kind)
                && is_container(body.kind)
                && !ends_as_key(rest)
        }
        _ => false,
    }
}

// Whether a bracket that goes on with these tokens stands in a key: an arrow comes outside of brackets before the next rule.
fn ends_as_key(tokens: &[Token<'_>]) -> bool
    ensures { result ≡ ends_as_key 1 tokens.now }
{
    let mut depth = 1;
    'token: for k in 0..tokens.len() {
        let kind = tokens[k].kind;
        if is_outer_arrow(kind, depth) {
            return true;
        }
        if begins_outer_rule(tokens, k, depth) {
            return false;
        }
        depth = count_after(kind, depth);
    }
    false
}

fn is_outer_arrow(kind: Kind, depth: usize) -> bool
    ensures { result ≡ (depth == 0 && is_arrow kind) }
{
    depth == 0 && is_arrow(kind)
}

fn begins_outer_rule(tokens: &[Token<'_>], k: usize, depth: usize) -> bool
    requires { k < length tokens.now }
    ensures { result ≡ (depth == 0 && begins_rule (drop k tokens.now)) }
{
    depth == 0 && begins_rule(tokens, k)
}

fn is_arrow(kind: Kind) -> bool
    ensures { result ≡ is_arrow kind }
{
    matches!(kind, Kind::Arrow)
}

fn is_equals(kind: Kind) -> bool
    ensures { result ≡ is_equals kind }
{
    matches!(kind, Kind::Assign)
}

fn is_container(kind: Kind) -> bool
    ensures { result ≡ is_container kind }
{
    matches!(kind, Kind::BracketOpen | Kind::BraceOpen | Kind::TagOpen)
}
