//! What is shown of a place in a text.

ghost use Rattle.std.specs.Prelude.{◌≡◌, ◌≤◌, ◌++◌, flat_map, length, IfOk, OnOk, string_bytes, vec_items};
ghost use Rattle.text_shown.specs.Places.{characters_of, dots_for, line_char, marked_line, marks_for, repeated, shown_before, shown_part, IsPointedAt};

use crate::lines::{line_end, line_start};
use crate::words::push_char;
use std::alloc::{AllocError, Global};

// How many characters of a line are shown on each side of a place, at most.
const MOST_BESIDE: usize = 60;

/// What is shown of a part of a text: the line where it begins, and marks under its characters there. A part without bytes, and
/// one that begins where its line ends, has one mark, under the character that begins there, or after the last one.
///
/// A line ends with a line feed, or at a carriage return after the beginning of the part. A tab is four spaces, control
/// characters and those that change the order of characters are `\u` and four hex digits, and what is not UTF-8 is U+FFFD. Of a
/// long line the 60 characters before the part and the 60 from its beginning on are shown, and `..` for others.
///
/// # Errors
///
/// `AllocError` where an allocation was refused.
pub fn pointed_at(alloc: Global, text: &[u8], from: usize, to: usize) -> Result<String, AllocError>
    requires in_order { from ≤ to }
    requires within { to ≤ length text.now }
    ensures { IfOk result (λ shown. IsPointedAt text.now from to (string_bytes shown)) }
{
    let start = line_start(text, from);
    let end = line_end(text, from);
    let marked = to.min(end);
    marked_line(
        alloc,
        &text[start..from],
        &text[from..end],
        &text[from..marked],
    )
}

fn marked_line(alloc: Global, before: &[u8], from: &[u8], part: &[u8]) -> Result<String, AllocError>
    ensures { IfOk result (λ shown. string_bytes shown ≡ marked_line before.now from.now part.now) }
{
    let front = shown_before(alloc, before)?;
    let back = shown_part(alloc, from)?;
    let part = shown_part(alloc, part)?;
    let spaces = repeated(alloc, " ", front.as_str())?;
    let marks = marks_for(alloc, part.as_str())?;
    format!(in alloc; "{front}{back}\n{spaces}{marks}\n")
}

// A mark for each character, and one where there is none.
fn marks_for(alloc: Global, text: &str) -> Result<String, AllocError>
    ensures { IfOk result (λ marks. string_bytes marks ≡ marks_for text.now) }
{
    if text.is_empty() {
        let mut mark = String::new(alloc);
        mark.push_str("^")?;
        Ok(mark)
    } else {
        repeated(alloc, "^", text)
    }
}

fn shown_before(alloc: Global, before: &[u8]) -> Result<String, AllocError>
    ensures { IfOk result (λ shown. string_bytes shown ≡ shown_before (characters_of before.now)) }
{
    let characters = characters_of(alloc, before)?;
    let cut = characters.len().saturating_sub(MOST_BESIDE);
    let mut shown = String::new(alloc);
    shown.push_str(dots_for(characters.as_slice()))?;
    push_line(&mut shown, &characters[cut..])?;
    Ok(shown)
}

/// What is shown of a part of a text by itself: its first 60 characters as in a line, and `..` where it has more.
///
/// # Errors
///
/// `AllocError` where an allocation was refused.
pub fn shown_part(alloc: Global, part: &[u8]) -> Result<String, AllocError>
    ensures { IfOk result (λ shown. string_bytes shown ≡ shown_part part.now) }
{
    let characters = characters_of(alloc, part)?;
    let end = MOST_BESIDE.min(characters.len());
    let mut shown = String::new(alloc);
    push_line(&mut shown, &characters[..end])?;
    shown.push_str(dots_for(characters.as_slice()))?;
    Ok(shown)
}

fn characters_of(alloc: Global, bytes: &[u8]) -> Result<Vec<char>, AllocError>
    ensures { IfOk result (λ characters. vec_items characters ≡ characters_of bytes.now) }
{
    let text = String::from_utf8_lossy(alloc, bytes)?;
    text.as_str().chars().collect(alloc)
}

fn dots_for(characters: &[char]) -> &'static str
    ensures { result.now ≡ dots_for characters.now }
{
    if characters.len() > MOST_BESIDE {
        ".."
    } else {
        ""
    }
}

fn push_line(shown: &mut String, characters: &[char]) -> Result<(), AllocError>
    ensures { OnOk result (string_bytes shown.new ≡ string_bytes shown.old ++ flat_map line_char characters.now) }
{
    for c in characters {
        push_line_char(shown, *c)?;
    }
    Ok(())
}

fn push_line_char(shown: &mut String, c: char) -> Result<(), AllocError>
    ensures { OnOk result (string_bytes shown.new ≡ string_bytes shown.old ++ line_char c) }
{
    if c == '\t' {
        shown.push_str("    ")
    } else {
        push_char(shown, c)
    }
}

// The word once for each character of the text.
fn repeated(alloc: Global, word: &str, text: &str) -> Result<String, AllocError>
    ensures { IfOk result (λ words. string_bytes words ≡ repeated word.now text.now) }
{
    let mut words = String::new(alloc);
    for _c in text.chars() {
        words.push_str(word)?;
    }
    Ok(words)
}
