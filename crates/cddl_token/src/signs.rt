//! Signs of one to three bytes.

ghost use Rattle.std.specs.Prelude.{◌≡◌, ℕ, ◌+◌, ◌<◌, ◌≤◌, ◌⊎◌, true, false, length, slice_index, MatchOption};
ghost use Rattle.cddl_literal.specs.Bytes.{IsAt};
ghost use Rattle.cddl_token.specs.Tokens.{IsToken};
ghost use Rattle.cddl_token.specs.Signs.{is_single};

use crate::Kind;
use cddl_literal::byte_at;

// The sign with `/` that begins here, and its end.
pub(crate) fn slash_at(source: &[u8], at: usize) -> (Kind, usize)
    requires begins { IsAt "/" source.now at }
    requires within { at < length source.now }
    ensures token { IsToken result.0 source.now at result.1 }
    ensures in_source { result.1 ≤ length source.now }
{
    let next = byte_at(source, at + 1);
    if next == b'=' {
        (Kind::TypeAssign, at + 2)
    } else if next != b'/' {
        (Kind::Slash, at + 1)
    } else if byte_at(source, at + 2) == b'=' {
        (Kind::GroupAssign, at + 3)
    } else {
        (Kind::DoubleSlash, at + 2)
    }
}

// `=` or `=>`, and its end.
pub(crate) fn equals_at(source: &[u8], at: usize) -> (Kind, usize)
    requires begins { IsAt "=" source.now at }
    requires within { at < length source.now }
    ensures token { IsToken result.0 source.now at result.1 }
    ensures in_source { result.1 ≤ length source.now }
{
    if byte_at(source, at + 1) == b'>' {
        (Kind::Arrow, at + 2)
    } else {
        (Kind::Assign, at + 1)
    }
}

// The sign of one byte, or the occurrence `+` or `?`, that a byte is.
pub(crate) fn single_at(source: &[u8], at: usize) -> Option<Kind>
    requires within { at < length source.now }
    ensures { MatchOption result (is_single (slice_index source.now at) ≡ false) (λ kind. IsToken kind source.now at (at + 1)) }
{
    match source[at] {
        b'^' => Some(Kind::Cut),
        b':' => Some(Kind::Colon),
        b',' => Some(Kind::Comma),
        b'(' => Some(Kind::ParenOpen),
        b')' => Some(Kind::ParenClose),
        b'[' => Some(Kind::BracketOpen),
        b']' => Some(Kind::BracketClose),
        b'{' => Some(Kind::BraceOpen),
        b'}' => Some(Kind::BraceClose),
        b'>' => Some(Kind::AngleClose),
        b'~' => Some(Kind::Tilde),
        b'&' => Some(Kind::Ampersand),
        b'+' => Some(Kind::Occur),
        b'?' => Some(Kind::Occur),
        _ => None,
    }
}
