//! What is shown of the user's words.

ghost use Rattle.std.specs.Prelude.{◌≡◌, ◌++◌, ◌<◌, ◌^◌, OnOk, string_bytes};
ghost use Rattle.std.specs.Char.{digit_char};
ghost use Rattle.text_shown.specs.Shown.{escaped, is_bidirectional, shown, shown_char};

use std::alloc::AllocError;

/// Appends to a text what is shown of a word: its characters, but for control characters (U+0000 to U+001F, and U+007F to
/// U+009F) and those that change the order of characters (U+202A to U+202E, and U+2066 to U+2069), each of which is `\u` and
/// four hex digits. So a word ends no line, is no command to a terminal, and shows no other word.
///
/// # Errors
///
/// `AllocError` where an allocation was refused.
pub fn push_shown(text: &mut String, word: &str) -> Result<(), AllocError>
    ensures { OnOk result (string_bytes text.new ≡ string_bytes text.old ++ shown word.now) }
{
    for c in word.chars() {
        push_char(text, c)?;
    }
    Ok(())
}

// Appends what is shown of one character.
pub(crate) fn push_char(text: &mut String, c: char) -> Result<(), AllocError>
    ensures { OnOk result (string_bytes text.new ≡ string_bytes text.old ++ shown_char c) }
{
    if c.is_control() || is_bidirectional(c) {
        push_escaped(text, c)
    } else {
        text.push(c)
    }
}

fn is_bidirectional(c: char) -> bool
    ensures { result ≡ is_bidirectional c }
{
    ('\u{202a}' <= c && c <= '\u{202e}') || ('\u{2066}' <= c && c <= '\u{2069}')
}

fn push_escaped(text: &mut String, c: char) -> Result<(), AllocError>
    requires { c < 2 ^ 16 }
    ensures { OnOk result (string_bytes text.new ≡ string_bytes text.old ++ escaped c) }
{
    let code = c as u32;
    text.push_str("\\u")?;
    text.push(hex_digit(code / 4096))?;
    text.push(hex_digit(code / 256 % 16))?;
    text.push(hex_digit(code / 16 % 16))?;
    text.push(hex_digit(code % 16))
}

fn hex_digit(n: u32) -> char
    requires { n < 16 }
    ensures { result ≡ digit_char n }
{
    char::from_digit(n, 16).unwrap()
}
