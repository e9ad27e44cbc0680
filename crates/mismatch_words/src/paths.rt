//! What is shown of a path.

ghost use Rattle.std.specs.Prelude.{◌≡◌, encode_utf8, flat_map, IfOk, string_bytes, vec_items};
ghost use Rattle.text_shown.specs.Places.{characters_of};
ghost use Rattle.mismatch_words.specs.Paths.{dots_before, last_words, path_words};

use std::alloc::{AllocError, Global};
use text_shown::push_shown;

// How many characters of a path are shown, at most.
const MOST_CHARACTERS: usize = 120;

// So many bytes have more characters than are shown, also where they begin inside of one.
const MOST_BYTES: usize = 512;

/// What is shown of a path: its last 120 characters, after `..` where it has more. Control characters and those that change the
/// order of characters are `\u` and four hex digits.
///
/// # Errors
///
/// `AllocError` where an allocation was refused.
pub fn path_words(alloc: Global, path: &[u8]) -> Result<String, AllocError>
    ensures { IfOk result (λ words. string_bytes words ≡ path_words path.now) }
{
    let end = &path[path.len().saturating_sub(MOST_BYTES)..];
    let characters = characters_of(alloc, end)?;
    last_words(alloc, characters.as_slice())
}

fn characters_of(alloc: Global, bytes: &[u8]) -> Result<Vec<char>, AllocError>
    ensures { IfOk result (λ characters. vec_items characters ≡ characters_of bytes.now) }
{
    let text = String::from_utf8_lossy(alloc, bytes)?;
    text.as_str().chars().collect(alloc)
}

fn last_words(alloc: Global, characters: &[char]) -> Result<String, AllocError>
    ensures { IfOk result (λ words. string_bytes words ≡ last_words characters.now) }
{
    let cut = characters.len().saturating_sub(MOST_CHARACTERS);
    let last = text_of(alloc, &characters[cut..])?;
    let mut words = String::new(alloc);
    words.push_str(dots_before(characters))?;
    push_shown(&mut words, last.as_str())?;
    Ok(words)
}

fn dots_before(characters: &[char]) -> &'static str
    ensures { result.now ≡ dots_before characters.now }
{
    if characters.len() > MOST_CHARACTERS {
        ".."
    } else {
        ""
    }
}

fn text_of(alloc: Global, characters: &[char]) -> Result<String, AllocError>
    ensures { IfOk result (λ text. string_bytes text ≡ flat_map encode_utf8 characters.now) }
{
    let mut text = String::new(alloc);
    for c in characters {
        text.push(*c)?;
    }
    Ok(text)
}
