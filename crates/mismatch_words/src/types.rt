//! The text of a type.

ghost use Rattle.std.specs.Prelude.{◌≡◌, ◌&&◌, nat_le, nat_lt, IfOk, string_bytes};
ghost use Rattle.mismatch_words.specs.Types.{gap, is_within, type_words};

use cddl_token::Token;
use std::alloc::{AllocError, Global};

/// The text of a type that stands from one offset to another of a text with these tokens: its tokens in one line, with a space
/// where two of them do not touch. So line ends are left out, and comments.
///
/// # Errors
///
/// `AllocError` where an allocation was refused.
pub fn type_words(
    alloc: Global,
    tokens: &[Token<'_>],
    from: usize,
    to: usize,
) -> Result<String, AllocError>
    ensures { IfOk result (λ words. string_bytes words ≡ type_words from from to tokens.now) }
{
    let mut words = String::new(alloc);
    let mut before = from;
    'token: for k in 0..tokens.len() {
        if is_within(tokens[k].start, from, to) {
            words.push_str(gap(before, tokens[k].start))?;
            words.push_str(tokens[k].text)?;
            before = tokens[k].end;
        }
    }
    Ok(words)
}

fn is_within(offset: usize, from: usize, to: usize) -> bool
    ensures { result ≡ is_within offset from to }
{
    from <= offset && offset < to
}

// What stands between two tokens, of which one ends here and the next begins there.
fn gap(end: usize, start: usize) -> &'static str
    ensures { result.now ≡ gap end start }
{
    if end < start { " " } else { "" }
}
