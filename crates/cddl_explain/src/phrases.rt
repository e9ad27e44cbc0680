//! What the kinds of tokens are called.

ghost use Rattle.std.specs.Prelude.{◌≡◌, count_by, string_bytes, IfOk};
ghost use Rattle.near_words.specs.Near.{texts};
ghost use Rattle.cddl_explain.specs.Expected.{begins_entry, begins_type, belongs, collection_of, expected_words, is_name, parted, parting, phrase_of, phrases_of, single_phrases};

use cddl_token::Kind;
use std::alloc::{AllocError, Global};

/// Kinds that are reported together.
#[derive(Clone, Copy, Debug, PartialEq, Eq)]
pub(crate) enum Collection {
    /// With which an entry begins.
    Entry,
    /// With which a type begins.
    Type,
    /// Both forms of a name.
    Name,
    /// No kinds.
    Nothing,
}

// What these kinds are called.
pub(crate) fn phrases_of(alloc: Global, kinds: &[Kind]) -> Result<Vec<&'static str>, AllocError>
    ensures { IfOk result (λ phrases. texts phrases.items ≡ phrases_of kinds.now) }
{
    let collection = collection_of(kinds);
    let mut phrases = single_phrases(alloc, collection, kinds)?;
    match collection {
        Collection::Entry => phrases.push("an entry")?,
        Collection::Type => phrases.push("a type")?,
        Collection::Name => phrases.push("a name")?,
        Collection::Nothing => {}
    }
    Ok(phrases)
}

// What those of these kinds are called that are not reported together.
fn single_phrases(
    alloc: Global,
    collection: Collection,
    kinds: &[Kind],
) -> Result<Vec<&'static str>, AllocError>
    ensures { IfOk result (λ phrases. texts phrases.items ≡ single_phrases collection kinds.now) }
{
    let mut phrases = Vec::new(alloc);
    'kind: for k in 0..kinds.len() {
        if !belongs(collection, kinds[k]) {
            phrases.push(phrase_of(kinds[k]))?;
        }
    }
    Ok(phrases)
}

// What is reported together of these kinds, of which none is there twice.
fn collection_of(kinds: &[Kind]) -> Collection
    ensures { result ≡ collection_of kinds.now }
{
    if count_in(Collection::Entry, kinds) == 15 {
        Collection::Entry
    } else if count_in(Collection::Type, kinds) == 14 {
        Collection::Type
    } else if count_in(Collection::Name, kinds) == 2 {
        Collection::Name
    } else {
        Collection::Nothing
    }
}

// How many of these kinds are reported together so.
fn count_in(collection: Collection, kinds: &[Kind]) -> usize
    ensures { result ≡ count_by (belongs collection) kinds.now }
{
    let mut count = 0;
    'kind: for k in 0..kinds.len() {
        if belongs(collection, kinds[k]) {
            count += 1;
        }
    }
    count
}

fn belongs(collection: Collection, kind: Kind) -> bool
    ensures { result ≡ belongs collection kind }
{
    match collection {
        Collection::Entry => begins_entry(kind),
        Collection::Type => begins_type(kind),
        Collection::Name => is_name(kind),
        Collection::Nothing => false,
    }
}

// Whether a type may begin with a token of the kind.
pub(crate) fn begins_type(kind: Kind) -> bool
    ensures { result ≡ begins_type kind }
{
    matches!(
        kind,
        Kind::Name
            | Kind::NameOpen
            | Kind::Number
            | Kind::Text
            | Kind::Bytes
            | Kind::Hash
            | Kind::TagOpen
            | Kind::TagHeadOpen
            | Kind::SimpleHeadOpen
            | Kind::ParenOpen
            | Kind::BracketOpen
            | Kind::BraceOpen
            | Kind::Tilde
            | Kind::Ampersand
    )
}

fn begins_entry(kind: Kind) -> bool
    ensures { result ≡ begins_entry kind }
{
    matches!(kind, Kind::Occur) || begins_type(kind)
}

fn is_name(kind: Kind) -> bool
    ensures { result ≡ is_name kind }
{
    matches!(kind, Kind::Name | Kind::NameOpen)
}

// What a token of the kind is called.
fn phrase_of(kind: Kind) -> &'static str
    ensures { result.now ≡ phrase_of kind }
{
    match kind {
        Kind::Name => "a name",
        Kind::NameOpen => "a name with `<`",
        Kind::Control => "a control",
        Kind::Number => "a number",
        Kind::Occur => "an occurrence",
        Kind::Text => "a text",
        Kind::Bytes => "a byte string",
        Kind::Hash => "`#`",
        Kind::TagOpen => "`#6(`",
        Kind::TagHeadOpen => "`#6.<`",
        Kind::SimpleHeadOpen => "`#7.<`",
        Kind::Assign => "`=`",
        Kind::TypeAssign => "`/=`",
        Kind::GroupAssign => "`//=`",
        Kind::Slash => "`/`",
        Kind::DoubleSlash => "`//`",
        Kind::Range => "`..`",
        Kind::RangeBelow => "`...`",
        Kind::Arrow => "`=>`",
        Kind::Cut => "`^`",
        Kind::Colon => "`:`",
        Kind::Comma => "`,`",
        Kind::ParenOpen => "`(`",
        Kind::ParenClose => "`)`",
        Kind::BracketOpen => "`[`",
        Kind::BracketClose => "`]`",
        Kind::BraceOpen => "`{`",
        Kind::BraceClose => "`}`",
        Kind::AngleClose => "`>`",
        Kind::Tilde => "`~`",
        Kind::Ampersand => "`&`",
        Kind::End => "the end of the text",
    }
}

// These phrases, parted by commas, and the last by `or`.
pub(crate) fn expected_words(alloc: Global, phrases: &[&str]) -> Result<String, AllocError>
    ensures { IfOk result (λ told. string_bytes told ≡ expected_words (texts phrases.now)) }
{
    let Some((first, rest)) = phrases.split_first() else {
        return Ok(String::new(alloc));
    };
    let parted = parted(alloc, rest)?;
    format!(in alloc; "; expected {first}{parted}")
}

// Each of these phrases after what parts it from the one before.
fn parted(alloc: Global, phrases: &[&str]) -> Result<String, AllocError>
    ensures { IfOk result (λ told. string_bytes told ≡ parted (texts phrases.now)) }
{
    let mut told = String::new(alloc);
    'phrase: for k in 0..phrases.len() {
        told.push_str(parting(&phrases[k + 1..]))?;
        told.push_str(phrases[k])?;
    }
    Ok(told)
}

fn parting(later: &[&str]) -> &'static str
    ensures { result.now ≡ parting (texts later.now) }
{
    if later.is_empty() { " or " } else { ", " }
}
