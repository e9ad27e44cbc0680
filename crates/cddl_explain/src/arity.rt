//! How many arguments or parameters a name has, and how many it is to have.

ghost use Rattle.std.specs.Prelude.{◌≡◌, ◌+◌, ◌<◌, ◌≤◌, ◌==◌, ◌&&◌, [], length, string_bytes, IfOk};
ghost use Rattle.near_words.specs.Near.{texts};
ghost use Rattle.tree_nodes.specs.Syntax.Answers.{opened_after};
ghost use Rattle.cddl_explain.specs.Arity.{arity, arity_of_name, arity_words, bearer_of, bearer_words, commas, counted, has_parameter, is_among, is_comma, last_rule, lists, one_where};

use crate::known::prelude_names;
use crate::origins::first_rule;
use crate::parts::is_open;
use crate::predicates::ARITY;
use crate::rules::{InList, begins_rule, in_list_of, name_of_token};
use cddl_token::{Kind, Token};
use std::alloc::{AllocError, Global};

/// What says how many arguments or parameters a name is to have.
#[derive(Clone, Copy, Debug, PartialEq, Eq)]
pub(crate) enum Bearer {
    /// It is a parameter: none.
    Parameter,
    /// The prelude has the name: none.
    Prelude,
    /// Its first rule has so many parameters.
    Rule(usize),
}

// What is wrong with the name that the first of the tokens `here` is, of all tokens, where those before it are these.
pub(crate) fn arity_of_name(
    alloc: Global,
    before: &[Token<'_>],
    here: &[Token<'_>],
    tokens: &[Token<'_>],
) -> Result<String, AllocError>
    ensures { IfOk result (λ told. string_bytes told ≡ arity_of_name before.now here.now tokens.now) }
{
    let Some(first) = here.first() else {
        return format!(in alloc; "{ARITY}");
    };
    let name = name_of_token(first.text);
    let count = arity(here);
    if begins_rule(here, 0) {
        let bearer = bearer_of(name, &[], tokens);
        return arity_words(alloc, count, "parameter", bearer);
    }
    let bearer = bearer_of(name, last_rule(before), tokens);
    arity_words(alloc, count, "argument", bearer)
}

fn arity_words(
    alloc: Global,
    count: usize,
    noun: &str,
    bearer: Bearer,
) -> Result<String, AllocError>
    ensures { IfOk result (λ told. string_bytes told ≡ arity_words count noun.now bearer) }
{
    let counted = counted(alloc, count, noun)?;
    let bearer = bearer_words(alloc, bearer)?;
    format!(in alloc; "has {counted} here, but {bearer}")
}

fn bearer_words(alloc: Global, bearer: Bearer) -> Result<String, AllocError>
    ensures { IfOk result (λ told. string_bytes told ≡ bearer_words bearer) }
{
    match bearer {
        Bearer::Parameter => format!(in alloc; "is a parameter and takes none"),
        Bearer::Prelude => format!(in alloc; "is of the prelude and takes none"),
        Bearer::Rule(count) => {
            let counted = counted(alloc, count, "parameter")?;
            format!(in alloc; "its first rule has {counted}")
        }
    }
}

fn counted(alloc: Global, count: usize, noun: &str) -> Result<String, AllocError>
    ensures { IfOk result (λ told. string_bytes told ≡ counted count noun.now) }
{
    match count {
        0 => format!(in alloc; "no {noun}s"),
        1 => format!(in alloc; "1 {noun}"),
        _ => format!(in alloc; "{count} {noun}s"),
    }
}

// What says how many a name is to have, where the tokens of the rule round it are these.
fn bearer_of(name: &str, around: &[Token<'_>], tokens: &[Token<'_>]) -> Bearer
    ensures { result ≡ bearer_of name.now around.now tokens.now }
{
    if has_parameter(name, around) {
        Bearer::Parameter
    } else if is_among(name, prelude_names()) {
        Bearer::Prelude
    } else {
        Bearer::Rule(arity(first_rule(tokens, name)))
    }
}

fn is_among(name: &str, names: &[&str]) -> bool
    ensures { result ≡ is_among name.now (texts names.now) }
{
    'known: for k in 0..names.len() {
        if *names[k] == *name {
            return true;
        }
    }
    false
}

// The tokens from the last rule on that begins among these, and none where none does.
fn last_rule<'t, 's>(tokens: &'t [Token<'s>]) -> &'t [Token<'s>]
    ensures { result.now ≡ last_rule [] tokens.now }
{
    let mut found = &tokens[..0];
    'rule: for k in 0..tokens.len() {
        if begins_rule(tokens, k) {
            found = &tokens[k..];
        }
    }
    found
}

// Whether the rule that begins with these tokens has this parameter.
fn has_parameter(name: &str, rule: &[Token<'_>]) -> bool
    ensures { result ≡ has_parameter name.now rule.now }
{
    match rule.split_first() {
        Some((first, rest)) => is_open(first.kind) && lists(name, rest),
        None => false,
    }
}

// Whether a list of parameters that goes on with these tokens has this name.
fn lists(name: &str, tokens: &[Token<'_>]) -> bool
    ensures { result ≡ lists name.now tokens.now }
{
    'token: for k in 0..tokens.len() {
        match in_list_of(tokens[k].kind) {
            InList::Last | InList::Foreign => return false,
            InList::Within => {
                if *tokens[k].text == *name {
                    return true;
                }
            }
        }
    }
    false
}

// How many arguments or parameters the name has that the first of these tokens is.
fn arity(tokens: &[Token<'_>]) -> usize
    ensures { result ≡ arity tokens.now }
{
    match tokens.first() {
        Some(first) if is_open(first.kind) => parted(tokens),
        _ => 0,
    }
}

// One more than the commas inside the opening token that is the first of these.
fn parted(tokens: &[Token<'_>]) -> usize
    ensures { result ≡ 1 + commas 0 tokens.now }
{
    let mut depth = 0;
    let mut count = 1;
    'token: for k in 0..tokens.len() {
        let kind = tokens[k].kind;
        count += parts(kind, depth);
        depth = count_after(kind, depth);
        if depth == 0 {
            return count;
        }
    }
    count
}

// How many arguments a token ends, of so many that are open before it: a comma at the depth of one ends one.
fn parts(kind: Kind, depth: usize) -> usize
    ensures parts { result ≡ one_where (depth == 1 && is_comma kind) }
    ensures one { result ≤ 1 }
    ensures inside { result ≤ depth }
{
    usize::from(depth == 1 && is_comma(kind))
}

fn is_comma(kind: Kind) -> bool
    ensures { result ≡ is_comma kind }
{
    matches!(kind, Kind::Comma)
}

// How many are open after a token, of so many before it.
pub(crate) fn count_after(kind: Kind, count: usize) -> usize
    requires { count < usize.MAX }
    ensures after { result ≡ opened_after kind count }
    ensures few { result ≤ count + 1 }
{
    match kind {
        Kind::ParenOpen
        | Kind::BracketOpen
        | Kind::BraceOpen
        | Kind::NameOpen
        | Kind::TagOpen
        | Kind::TagHeadOpen
        | Kind::SimpleHeadOpen => count + 1,
        Kind::ParenClose | Kind::BracketClose | Kind::BraceClose | Kind::AngleClose => {
            count.saturating_sub(1)
        }
        _ => count,
    }
}
