//! What was perhaps meant.

ghost use Rattle.std.specs.Prelude.{◌≡◌, ◌<◌, length, option_map, string_bytes, All, IfOk};
ghost use Rattle.cddl_token.specs.declared.Token.{Token as AToken};
ghost use Rattle.near_words.specs.Near.{texts};
ghost use Rattle.cddl_explain.specs.Hints.{defined_names, hint_of, part_text, IsChoiceHint, IsHint, IsHintAmong, IsKindHint, IsNameHint, IsTokenHint};
ghost use Rattle.cddl_explain.specs.Known.{control_names as known_controls};
ghost use Rattle.cddl_explain.specs.Meant.{character_words};
ghost use Rattle.cddl_explain.specs.Origins.{IsOrigin};
ghost use Rattle.cddl_explain.specs.Parts.{IsWithin};

use crate::expected::expectation;
use crate::known::{control_names, prelude_names};
use crate::meant::{
    COMES_BACK, FLOATS, INSTANCES, character_words, choice_words, comment_words, entry_words,
    name_words, reading_words, round_words, tag_words,
};
use crate::origins::origin_hint;
use crate::parts::Part;
use crate::roots::root_words;
use crate::rules::rule_names;
use crate::spots::passed;
use cddl_token::{Code, Token};
use near_words::nearest;
use std::alloc::{AllocError, Global};

// What is said where no control is near.
pub(crate) const KNOWN: &str =
    "; known are .default, .and, .within, .cbor, .cborseq, .eq, .ne, .lt, .le, .gt, .ge, .size, .bits, .plus, .cat and .det";

// What was perhaps meant in place of what a refusal with this code is about: words after what is wrong, or none.
pub(crate) fn hint(
    alloc: Global,
    code: Code,
    text: &[u8],
    part: Part,
    tokens: &[Token<'_>],
    root: Option<&str>,
) -> Result<String, AllocError>
    requires { IsWithin (length text.now) part }
    ensures { IfOk result (λ told. IsHint code text.now part tokens.now (option_map (λ r. r.now) root.entry) (string_bytes told)) }
{
    let (before, after) = tokens.split_at(passed(tokens, part.from));
    match (code, root) {
        (Code::BadCharacter, _) => character_hint(alloc, text, part),
        (Code::FloatLiteral, _) => format!(in alloc; "{FLOATS}"),
        (Code::Unexpected, _) => token_hint(alloc, before, part.from, after),
        (Code::Undefined, _) => name_hint(alloc, text, part, after, tokens),
        (Code::UnknownControl, _) => control_hint(alloc, text, part),
        (Code::NoRoot, Some(name)) => defined_hint(alloc, name, "", tokens),
        (Code::BadRoot, _) => root_words(alloc, tokens, part.from, after),
        (Code::HashForm, _) => tag_words(alloc, after),
        (Code::NoKey, _) => entry_words(alloc, after),
        (Code::Duplicate, _) => choice_hint(alloc, text, part, after, tokens),
        (Code::KindClash | Code::Arity, _) => rule_hint(alloc, text, part, tokens),
        (Code::GroupAsType, _) => kind_hint(alloc, text, part, before, tokens),
        (Code::TooManyInstances, _) => format!(in alloc; "{INSTANCES}"),
        (Code::Recursion, _) => format!(in alloc; "{COMES_BACK}"),
        _ => Ok(String::new(alloc)),
    }
}

fn character_hint(alloc: Global, text: &[u8], part: Part) -> Result<String, AllocError>
    requires { IsWithin (length text.now) part }
    ensures { IfOk result (λ told. string_bytes told ≡ character_words (part_text text.now part)) }
{
    let character = String::from_utf8_lossy(alloc, &text[part.from..part.to])?;
    let words = character_words(character.as_str());
    format!(in alloc; "{words}")
}

// Which tokens may come in place of the first of those after a place, how the one before it is read, and how a comment begins.
fn token_hint(
    alloc: Global,
    before: &[Token<'_>],
    at: usize,
    after: &[Token<'_>],
) -> Result<String, AllocError>
    requires { All (λ (t : AToken). t.start < at) before.now }
    ensures { IfOk result (λ told. IsTokenHint before.now after.now (string_bytes told)) }
{
    let expected = expectation(alloc, before, at)?;
    let reading = reading_words(alloc, before.last(), after)?;
    let comment = comment_words(after);
    format!(in alloc; "{expected}{reading}{comment}")
}

fn kind_hint(
    alloc: Global,
    text: &[u8],
    part: Part,
    before: &[Token<'_>],
    tokens: &[Token<'_>],
) -> Result<String, AllocError>
    requires { IsWithin (length text.now) part }
    ensures { IfOk result (λ told. IsKindHint text.now part before.now tokens.now (string_bytes told)) }
{
    let origin = rule_hint(alloc, text, part, tokens)?;
    let round = round_words(before.last());
    format!(in alloc; "{origin}{round}")
}

fn choice_hint(
    alloc: Global,
    text: &[u8],
    part: Part,
    after: &[Token<'_>],
    tokens: &[Token<'_>],
) -> Result<String, AllocError>
    requires { IsWithin (length text.now) part }
    ensures { IfOk result (λ told. IsChoiceHint text.now part after.now tokens.now (string_bytes told)) }
{
    let origin = rule_hint(alloc, text, part, tokens)?;
    let choice = choice_words(alloc, after)?;
    format!(in alloc; "{origin}{choice}")
}

fn name_hint(
    alloc: Global,
    text: &[u8],
    part: Part,
    after: &[Token<'_>],
    tokens: &[Token<'_>],
) -> Result<String, AllocError>
    requires { IsWithin (length text.now) part }
    ensures { IfOk result (λ told. IsNameHint text.now part after.now tokens.now (string_bytes told)) }
{
    let name = String::from_utf8_lossy(alloc, &text[part.from..part.to])?;
    let other = name_words(alloc, name.as_str(), after)?;
    defined_hint(alloc, name.as_str(), other.as_str(), tokens)
}

fn rule_hint(
    alloc: Global,
    text: &[u8],
    part: Part,
    tokens: &[Token<'_>],
) -> Result<String, AllocError>
    requires { IsWithin (length text.now) part }
    ensures { IfOk result (λ told. IsOrigin text.now part.from tokens.now (part_text text.now part) (string_bytes told)) }
{
    let name = String::from_utf8_lossy(alloc, &text[part.from..part.to])?;
    origin_hint(alloc, text, part.from, tokens, name.as_str())
}

fn control_hint(alloc: Global, text: &[u8], part: Part) -> Result<String, AllocError>
    requires { IsWithin (length text.now) part }
    ensures { IfOk result (λ told. IsHintAmong known_controls (part_text text.now part) KNOWN.now (string_bytes told)) }
{
    let name = String::from_utf8_lossy(alloc, &text[part.from..part.to])?;
    let found = nearest(alloc, name.as_str(), control_names())?;
    hint_of(alloc, KNOWN, found)
}

fn defined_hint(
    alloc: Global,
    name: &str,
    other: &str,
    tokens: &[Token<'_>],
) -> Result<String, AllocError>
    ensures { IfOk result (λ told. IsHintAmong (defined_names tokens.now) name.now other.now (string_bytes told)) }
{
    let names = defined_names(alloc, tokens)?;
    let found = nearest(alloc, name, names.as_slice())?;
    hint_of(alloc, other, found)
}

fn defined_names<'s>(alloc: Global, tokens: &[Token<'s>]) -> Result<Vec<&'s str>, AllocError>
    ensures { IfOk result (λ names. texts names.items ≡ defined_names tokens.now) }
{
    let mut names = rule_names(alloc, tokens)?;
    names.extend_from_slice(prelude_names())?;
    Ok(names)
}

fn hint_of(alloc: Global, other: &str, found: Option<&str>) -> Result<String, AllocError>
    ensures { IfOk result (λ told. string_bytes told ≡ hint_of other.now (option_map (λ n. n.now) found.entry)) }
{
    match found {
        Some(name) => format!(in alloc; "; did you mean `{name}`?"),
        None => format!(in alloc; "{other}"),
    }
}
