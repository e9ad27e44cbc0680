//! What begins with `#`.

ghost use Rattle.std.specs.Prelude.{◌≡◌, ℕ, ◌+◌, ◌<◌, ◌≤◌, true, false, length, slice_index, IsTrue};
ghost use Rattle.cddl_literal.specs.Bytes.{IsAt};
ghost use Rattle.cddl_token.specs.Numbers.{IsHashNumber, IsBound};
ghost use Rattle.cddl_token.specs.Shapes.{IsLongestBound, IsHashDot};
ghost use Rattle.cddl_token.specs.Tokens.{IsToken, IsRead};

use crate::uints::{fits, uint_end};
use crate::{Code, Fault, Kind};
use cddl_literal::{byte_at, is_digit};

// Whether `6` is after `#`, and `(` is here.
fn opens_tag(source: &[u8], at: usize, here: usize) -> bool
    requires { at < length source.now }
    ensures yes { IsTrue result → IsAt "6" source.now (at + 1) × IsAt "(" source.now here × (here < length source.now) }
    ensures otherwise { result ≡ false → IsAt "6" source.now (at + 1) → IsAt "(" source.now here → ⊥ }
{
    byte_at(source, at + 1) == b'6' && byte_at(source, here) == b'('
}

// What begins with `#d.` and the uint up to `end`.
fn hash_number_at(source: &[u8], at: usize, end: usize) -> Result<(Kind, usize), Fault>
    requires begins { IsHashDot source.now at }
    requires number { IsLongestBound source.now (at + 3) end }
    requires some { at + 3 < end }
    requires within { end ≤ length source.now }
    ensures { IsRead source.now at result }
{
    let opens = opens_tag(source, at, end);
    if !fits(source, at + 3, end) {
        return Err(Fault {
            code: Code::NumberTooLarge,
            at,
        });
    }
    if opens {
        Ok((Kind::TagOpen, end + 1))
    } else {
        Ok((Kind::Hash, end))
    }
}

// The token that begins with `#`, a digit and `.`.
fn hash_dot_at(source: &[u8], at: usize) -> Result<(Kind, usize), Fault>
    requires begins { IsHashDot source.now at }
    requires within { at + 3 ≤ length source.now }
    ensures { IsRead source.now at result }
{
    if byte_at(source, at + 3) == b'<' {
        return Ok(head_at(source, at));
    }
    let end = uint_end(source, at + 3);
    if end == at + 3 {
        Ok((Kind::Hash, at + 2))
    } else {
        hash_number_at(source, at, end)
    }
}

// The token that begins with `#`, a digit, `.` and `<`.
fn head_at(source: &[u8], at: usize) -> (Kind, usize)
    requires begins { IsHashDot source.now at }
    requires sign { IsAt "<" source.now (at + 3) }
    requires within { at + 4 ≤ length source.now }
    ensures token { IsToken result.0 source.now at result.1 }
    ensures in_source { result.1 ≤ length source.now }
{
    match source[at + 1] {
        b'6' => (Kind::TagHeadOpen, at + 4),
        b'7' => (Kind::SimpleHeadOpen, at + 4),
        _ => (Kind::Hash, at + 2),
    }
}

// The token that begins with `#`.
pub(crate) fn hash_at(source: &[u8], at: usize) -> Result<(Kind, usize), Fault>
    requires begins { IsAt "#" source.now at }
    requires within { at < length source.now }
    ensures { IsRead source.now at result }
{
    if !is_digit(byte_at(source, at + 1)) {
        return Ok((Kind::Hash, at + 1));
    }
    if byte_at(source, at + 2) == b'.' {
        return hash_dot_at(source, at);
    }
    if opens_tag(source, at, at + 2) {
        Ok((Kind::TagOpen, at + 3))
    } else {
        Ok((Kind::Hash, at + 2))
    }
}
