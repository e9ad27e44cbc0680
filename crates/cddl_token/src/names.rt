//! Names, and what begins with `.`.

ghost use Rattle.std.specs.Prelude.{◌≡◌, ℕ, ◌+◌, ◌-◌, ◌<◌, ◌≤◌, true, false, length, slice_index};
ghost use Rattle.cddl_literal.specs.Bytes.{IsAt};
ghost use Rattle.cddl_token.specs.Bytes.{is_ealpha};
ghost use Rattle.cddl_token.specs.Spelling.{IsId};
ghost use Rattle.cddl_token.specs.Strings.{OpensPrefixed};
ghost use Rattle.cddl_token.specs.Tokens.{IsToken, IsRead, StartsNoGap};

use crate::bytes::{is_ealpha, is_id_byte, is_mark};
use crate::{Code, Fault, Kind};
use cddl_literal::byte_at;

// Where the id that begins here ends.
pub(crate) fn id_end(source: &[u8], at: usize) -> usize
    requires begins { is_ealpha (slice_index source.now at) ≡ true }
    requires within { at < length source.now }
    ensures id { IsId source.now at result }
    ensures longest { (m : ℕ) → IsId source.now at m → m ≤ result }
    ensures in_source { result ≤ length source.now }
{
    let mut end = at + 1;
    let mut i = at + 1;
    while i < source.len() {
        let b = source[i];
        if is_mark(b) {
            i += 1;
        } else if is_id_byte(b) {
            i += 1;
            end = i;
        } else {
            break;
        }
    }
    end
}

// The name that begins here, and its end.
pub(crate) fn name_at(source: &[u8], at: usize) -> (Kind, usize)
    requires begins { is_ealpha (slice_index source.now at) ≡ true }
    requires no_string { OpensPrefixed source.now at → ⊥ }
    requires within { at < length source.now }
    ensures token { IsToken result.0 source.now at result.1 }
    ensures in_source { result.1 ≤ length source.now }
{
    let end = id_end(source, at);
    if byte_at(source, end) == b'<' {
        (Kind::NameOpen, end + 1)
    } else {
        (Kind::Name, end)
    }
}

// The control or the dots that begin here, and their end.
pub(crate) fn dot_at(source: &[u8], at: usize) -> Result<(Kind, usize), Fault>
    requires begins { IsAt "." source.now at }
    requires within { at < length source.now }
    requires no_gap { StartsNoGap source.now at }
    ensures { IsRead source.now at result }
{
    let next = byte_at(source, at + 1);
    if is_ealpha(next) {
        return Ok((Kind::Control, id_end(source, at + 1)));
    }
    if next != b'.' {
        Err(Fault {
            code: Code::BadCharacter,
            at,
        })
    } else if byte_at(source, at + 2) == b'.' {
        Ok((Kind::RangeBelow, at + 3))
    } else {
        Ok((Kind::Range, at + 2))
    }
}
