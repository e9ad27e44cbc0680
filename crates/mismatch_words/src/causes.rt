//! What is wrong with what is at a place.

ghost use Rattle.std.specs.Prelude.{◌≡◌, ◌++◌, ◌∷◌, [], IfOk, codes, string_bytes};
ghost use Rattle.mismatch_words.specs.Causes.{few_words, greedy_words, key_words, later_words, many_words, missing_words, said};

use std::alloc::{AllocError, Global};

/// What is wrong with what is at a place.
#[derive(Clone, Copy, Debug, PartialEq, Eq)]
pub enum Cause {
    /// It is not of the type.
    Value,
    /// The array lacks a member of the type. Its last one may have been taken by an entry before, which need not have taken it.
    MemberMissing { greedy: bool },
    /// It is a member after all that the array may have.
    MemberTooMuch,
    /// It is the key of a pair that belongs to no entry of the map.
    PairStray,
    /// The map has so many pairs with a key of the type, and more are wanted, at least so many. Where the type stands nowhere in the
    /// text, as an argument in the place of a parameter, no text of it is given.
    KeyTooFew { count: u64, least: u64 },
    /// The same, where fewer are wanted, at most so many. A later entry may have the same key.
    KeyTooMany { count: u64, most: u64, later: bool },
    /// It is a byte string that does not hold one item.
    NoItem,
    /// It is a byte string that does not hold a sequence of items.
    NoSequence,
}

// What is said of it, behind the name of the rule, where the type is written so.
pub(crate) fn said(alloc: Global, cause: Cause, written: &str) -> Result<String, AllocError>
    ensures { IfOk result (λ words. string_bytes words ≡ said cause written.now) }
{
    match cause {
        Cause::Value => format!(in alloc; "wants {written}"),
        Cause::MemberMissing { greedy } => missing_words(alloc, greedy, written),
        Cause::MemberTooMuch => format!(in alloc; "wants no member here"),
        Cause::PairStray => format!(in alloc; "has no entry for this pair"),
        Cause::KeyTooFew { count, least } => few_words(alloc, count, least, written),
        Cause::KeyTooMany { count, most, later } => many_words(alloc, count, most, later, written),
        Cause::NoItem => format!(in alloc; "wants {written}, and it holds no item"),
        Cause::NoSequence => format!(in alloc; "wants {written}, and it holds no sequence"),
    }
}

fn few_words(alloc: Global, count: u64, least: u64, written: &str) -> Result<String, AllocError>
    ensures { IfOk result (λ words. string_bytes words ≡ few_words count least written.now) }
{
    if count == 0 {
        let key = key_words(alloc, ":", written)?;
        format!(in alloc; "is missing {key}")
    } else {
        let key = key_words(alloc, "", written)?;
        format!(in alloc; "wants at least {least} of {key}, and has {count}")
    }
}

// The key, with this after the word. Nothing is written where the key stands nowhere in the text.
fn key_words(alloc: Global, colon: &str, written: &str) -> Result<String, AllocError>
    ensures { IfOk result (λ words. string_bytes words ≡ key_words colon.now written.now) }
{
    if written.is_empty() {
        return String::from_str(alloc, "a key");
    }
    format!(in alloc; "the key{colon} {written}")
}

fn missing_words(alloc: Global, greedy: bool, written: &str) -> Result<String, AllocError>
    ensures { IfOk result (λ words. string_bytes words ≡ missing_words greedy written.now) }
{
    let advice = greedy_words(greedy);
    format!(in alloc; "is missing: {written}{advice}")
}

fn many_words(
    alloc: Global,
    count: u64,
    most: u64,
    later: bool,
    written: &str,
) -> Result<String, AllocError>
    ensures { IfOk result (λ words. string_bytes words ≡ many_words count most later written.now) }
{
    let key = key_words(alloc, "", written)?;
    let mut words = format!(in alloc; "wants at most {most} of {key}, and has {count}")?;
    words.push_str(later_words(later))?;
    Ok(words)
}

fn greedy_words(greedy: bool) -> &'static str
    ensures { result.now ≡ greedy_words greedy }
{
    if greedy {
        " (an entry before it takes what it can and gives nothing back)"
    } else {
        ""
    }
}

fn later_words(later: bool) -> &'static str
    ensures { result.now ≡ later_words later }
{
    if later {
        " (a later entry has the same key, but each pair goes to the first one that takes it)"
    } else {
        ""
    }
}
