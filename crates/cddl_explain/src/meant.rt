//! What people mostly mean by what is refused: words after what is wrong, or none.

ghost use Rattle.std.specs.Prelude.{◌≡◌, option_map, option_copied, string_bytes, IfOk};
ghost use Rattle.near_words.specs.Near.{texts};
ghost use Rattle.cddl_explain.specs.Expected.{begins_type};
ghost use Rattle.cddl_explain.specs.Meant.{begins_with_dot, character_words, choice_words, comment_by, comment_words, ending, entry_words, goes_on, has_dots, is_control, is_key, is_number, is_plain, is_quote, is_tag, is_word, key_words, name_words, named_key_words, one_name_or, reading_words, round_words, tag_words};

use crate::cases::{is_ampersand, is_occur};
use crate::known::control_names;
use crate::phrases::begins_type;
use crate::rules::{assigns, begins_rule};
use cddl_token::{Kind, Token};
use std::alloc::{AllocError, Global};

pub(crate) const FLOATS: &str = "; float16, float32 and float64 match floats";

pub(crate) const KEY: &str = "; if it is a key, write `:` after it";

pub(crate) const CHOICE: &str = "; `/=` adds a choice to a type, and `//=` one to a group";

pub(crate) const ROUND: &str = "; `[ ]` round it makes an array, and `{ }` a map";

pub(crate) const COMES_BACK: &str =
    "; a type may come back in an array, a map or a tag, and a group after an entry that takes an item";

pub(crate) const INSTANCES: &str =
    "; a name that comes back to itself with other arguments each time has no end of instances";

pub(crate) const COMMENT: &str = "; a comment begins with `;`";

pub(crate) const SLASHES: &str = "; types have `/` between them, and a comment begins with `;`";

pub(crate) const BAR: &str = "; types have `/` between them";

pub(crate) const QUOTES: &str = "; a text stands between two `\"`";

pub(crate) const LEFT_QUOTE: &str = "\u{201c}";

pub(crate) const RIGHT_QUOTE: &str = "\u{201d}";

// Of a name that is not defined, with which the tokens `here` begin.
pub(crate) fn name_words(
    alloc: Global,
    name: &str,
    here: &[Token<'_>],
) -> Result<String, AllocError>
    ensures { IfOk result (λ told. string_bytes told ≡ name_words name.now here.now) }
{
    let key = key_words(alloc, here)?;
    one_name_or(alloc, name, key)
}

// Of a name that may be a range or a control without spaces; and else these words.
fn one_name_or(alloc: Global, name: &str, other: String) -> Result<String, AllocError>
    ensures { IfOk result (λ told. string_bytes told ≡ one_name_or name.now (string_bytes other)) }
{
    if has_dots(name.as_bytes()) {
        return format!(in alloc; "; `{name}` is one name: for a range, write spaces round `..`");
    }
    match ending(name, control_names()) {
        Some(control) => {
            format!(in alloc;
                "; `{name}` is one name: for a control, write a space before `{control}`"
            )
        }
        None => Ok(other),
    }
}

// Whether two dots stand in a name.
fn has_dots(name: &[u8]) -> bool
    ensures { result ≡ has_dots name.now }
{
    'byte: for k in 0..name.len() {
        if name[k] == b'.' && begins_with_dot(&name[k + 1..]) {
            return true;
        }
    }
    false
}

fn begins_with_dot(bytes: &[u8]) -> bool
    ensures { result ≡ begins_with_dot bytes.now }
{
    match bytes.first() {
        Some(byte) => *byte == b'.',
        None => false,
    }
}

// The first of these words with which a name ends.
fn ending<'w>(name: &str, words: &[&'w str]) -> Option<&'w str>
    ensures { option_map (λ w. w.now) result ≡ ending name.now (texts words.now) }
{
    'word: for k in 0..words.len() {
        if name.as_bytes().ends_with(words[k].as_bytes()) {
            return Some(words[k]);
        }
    }
    None
}

// Of what could be a key, where a type comes right after it.
pub(crate) fn key_words(alloc: Global, here: &[Token<'_>]) -> Result<String, AllocError>
    ensures { IfOk result (λ told. string_bytes told ≡ key_words here.now) }
{
    match here.split_first() {
        Some((first, rest)) if is_key(first.kind) && goes_on(rest) => format!(in alloc; "{KEY}"),
        _ => Ok(String::new(alloc)),
    }
}

// Of an entry of a map without a key, after its occurrence.
pub(crate) fn entry_words(alloc: Global, here: &[Token<'_>]) -> Result<String, AllocError>
    ensures { IfOk result (λ told. string_bytes told ≡ entry_words here.now) }
{
    match here.split_first() {
        Some((first, rest)) if is_occur(first.kind) => named_key_words(alloc, rest),
        _ => named_key_words(alloc, here),
    }
}

// Of what could be a key: a name may be a type.
fn named_key_words(alloc: Global, here: &[Token<'_>]) -> Result<String, AllocError>
    ensures { IfOk result (λ told. string_bytes told ≡ named_key_words here.now) }
{
    match here.split_first() {
        Some((first, rest)) if is_plain(first.kind) && goes_on(rest) => {
            let name = first.text;
            format!(in alloc;
                "; if `{name}` is a key, write `:` after it, or `=>` where it is a type"
            )
        }
        Some((first, rest)) if is_number(first.kind) && goes_on(rest) => {
            let number = first.text;
            format!(in alloc; "; if `{number}` is a key, write `:` after it")
        }
        _ => key_words(alloc, here),
    }
}

fn is_number(kind: Kind) -> bool
    ensures { result ≡ is_number kind }
{
    matches!(kind, Kind::Number)
}

fn is_key(kind: Kind) -> bool
    ensures { result ≡ is_key kind }
{
    matches!(kind, Kind::Name | Kind::Number | Kind::Text | Kind::Bytes)
}

// Whether a type comes first, and no rule.
fn goes_on(tokens: &[Token<'_>]) -> bool
    ensures { result ≡ goes_on tokens.now }
{
    match tokens.first() {
        Some(first) => begins_type(first.kind) && !begins_rule(tokens, 0),
        None => false,
    }
}

// Of the token before those that begin with one that cannot stand there.
pub(crate) fn reading_words(
    alloc: Global,
    before: Option<&Token<'_>>,
    here: &[Token<'_>],
) -> Result<String, AllocError>
    ensures { IfOk result (λ told. string_bytes told ≡ reading_words (option_copied before.entry) here.now) }
{
    let Some(token) = before else {
        return Ok(String::new(alloc));
    };
    let text = token.text;
    if is_control(token.kind) {
        return format!(in alloc; "; nothing stands on the right of `{text}`");
    }
    if !is_plain(token.kind) {
        return Ok(String::new(alloc));
    }
    if assigns(here) {
        return format!(in alloc; "; `{text}` is read as part of the rule before it");
    }
    one_name_or(alloc, text, String::new(alloc))
}

pub(crate) fn is_control(kind: Kind) -> bool
    ensures { result ≡ is_control kind }
{
    matches!(kind, Kind::Control)
}

pub(crate) fn is_plain(kind: Kind) -> bool
    ensures { result ≡ is_plain kind }
{
    matches!(kind, Kind::Name)
}

// Of a token that cannot stand where it does, and with which a comment begins elsewhere.
pub(crate) fn comment_words(here: &[Token<'_>]) -> &'static str
    ensures { result.now ≡ comment_words here.now }
{
    match here.first() {
        Some(first) => comment_by(first.kind),
        None => "",
    }
}

fn comment_by(kind: Kind) -> &'static str
    ensures { result.now ≡ comment_by kind }
{
    match kind {
        Kind::Hash => COMMENT,
        Kind::DoubleSlash => SLASHES,
        _ => "",
    }
}

// Of a character that begins no token.
pub(crate) fn character_words(character: &str) -> &'static str
    ensures { result.now ≡ character_words character.now }
{
    if is_word(character, "|") {
        BAR
    } else if is_quote(character) {
        QUOTES
    } else {
        ""
    }
}

fn is_quote(character: &str) -> bool
    ensures { result ≡ is_quote character.now }
{
    is_word(character, LEFT_QUOTE) || is_word(character, RIGHT_QUOTE)
}

// Whether two texts are the same.
pub(crate) fn is_word(a: &str, b: &str) -> bool
    ensures { result ≡ is_word a.now b.now }
{
    *a == *b
}

// Of a name of the wrong kind, by the token before it: how a group is made a type.
pub(crate) fn round_words(before: Option<&Token<'_>>) -> &'static str
    ensures { result.now ≡ round_words (option_copied before.entry) }
{
    match before {
        Some(token) if is_ampersand(token.kind) => "",
        _ => ROUND,
    }
}

// Of a second definition.
pub(crate) fn choice_words(alloc: Global, here: &[Token<'_>]) -> Result<String, AllocError>
    ensures { IfOk result (λ told. string_bytes told ≡ choice_words here.now) }
{
    match here.first() {
        Some(_) if begins_rule(here, 0) => format!(in alloc; "{CHOICE}"),
        _ => Ok(String::new(alloc)),
    }
}

// Of a tag that holds nothing.
pub(crate) fn tag_words(alloc: Global, here: &[Token<'_>]) -> Result<String, AllocError>
    ensures { IfOk result (λ told. string_bytes told ≡ tag_words here.now) }
{
    let Some(first) = here.first() else {
        return Ok(String::new(alloc));
    };
    let text = first.text;
    if is_tag(text) {
        format!(in alloc; "; what a tag holds stands after it, as in `{text}(any)`")
    } else {
        Ok(String::new(alloc))
    }
}

fn is_tag(text: &str) -> bool
    ensures { result ≡ is_tag text.now }
{
    text.as_bytes().starts_with(b"#6")
}
