//! The names that a text defines, by its tokens.

ghost use Rattle.std.specs.Prelude.{◌≡◌, ◌<◌, drop, length, IfOk};
ghost use Rattle.cddl_explain.specs.Rules.{assigns, begins_rule, closes, head_of, in_list_of, is_assignment, name_of_token, rule_names};
ghost use Rattle.near_words.specs.Near.{texts};

use cddl_token::{Kind, Token};
use std::alloc::{AllocError, Global};

/// How a rule may begin.
#[derive(Clone, Copy, Debug, PartialEq, Eq)]
pub(crate) enum Head {
    /// With a name.
    Plain,
    /// With a name and `<`.
    Generic,
    /// Not so.
    Other,
}

/// What a token is in a list of parameters.
#[derive(Clone, Copy, Debug, PartialEq, Eq)]
pub(crate) enum InList {
    /// Its end.
    Last,
    /// A name or a comma.
    Within,
    /// What stands in none.
    Foreign,
}

// The names of the rules, in order, as often as they stand.
pub(crate) fn rule_names<'s>(
    alloc: Global,
    tokens: &[Token<'s>],
) -> Result<Vec<&'s str>, AllocError>
    ensures { IfOk result (λ names. texts names.items ≡ rule_names tokens.now) }
{
    let mut names = Vec::new(alloc);
    'rule: for k in 0..tokens.len() {
        if begins_rule(tokens, k) {
            names.push(name_of_token(tokens[k].text))?;
        }
    }
    Ok(names)
}

// The name that a token is, by its text.
pub(crate) fn name_of_token(text: &str) -> &str
    ensures { result.now ≡ name_of_token text.now }
{
    match text.split_once('<') {
        Some((name, _)) => name,
        None => text,
    }
}

// Whether a rule begins at this token.
pub(crate) fn begins_rule(tokens: &[Token<'_>], k: usize) -> bool
    requires { k < length tokens.now }
    ensures { result ≡ begins_rule (drop k tokens.now) }
{
    let after = &tokens[k + 1..];
    match head_of(tokens[k].kind) {
        Head::Plain => assigns(after),
        Head::Generic => closes(after),
        Head::Other => false,
    }
}

// Whether a list of parameters ends, and an assignment comes right after it.
fn closes(tokens: &[Token<'_>]) -> bool
    ensures { result ≡ closes tokens.now }
{
    'token: for k in 0..tokens.len() {
        match in_list_of(tokens[k].kind) {
            InList::Last => return assigns(&tokens[k + 1..]),
            InList::Within => {}
            InList::Foreign => return false,
        }
    }
    false
}

// Whether the first token is an assignment.
pub(crate) fn assigns(tokens: &[Token<'_>]) -> bool
    ensures { result ≡ assigns tokens.now }
{
    match tokens.first() {
        Some(first) => is_assignment(first.kind),
        None => false,
    }
}

pub(crate) fn is_assignment(kind: Kind) -> bool
    ensures { result ≡ is_assignment kind }
{
    matches!(kind, Kind::Assign | Kind::TypeAssign | Kind::GroupAssign)
}

pub(crate) fn in_list_of(kind: Kind) -> InList
    ensures { result ≡ in_list_of kind }
{
    match kind {
        Kind::AngleClose => InList::Last,
        Kind::Name | Kind::Comma => InList::Within,
        _ => InList::Foreign,
    }
}

fn head_of(kind: Kind) -> Head
    ensures { result ≡ head_of kind }
{
    match kind {
        Kind::Name => Head::Plain,
        Kind::NameOpen => Head::Generic,
        _ => Head::Other,
    }
}
