//! What byte strings stand for, from their opening to their closing sign.

ghost use Rattle.std.specs.Prelude.{◌≡◌, ℕ, ◌+◌, ◌-◌, ◌<◌, ◌≤◌, List, Some, length, slice_index, IfOk};
ghost use Rattle.cddl_literal.specs.Strings.{IsQuoted};
ghost use Rattle.cddl_literal.specs.Prefixed.{Opens, IsPrefixed, coded_bytes};
ghost use Rattle.cddl_literal.specs.Literals.{IsBytes};

use super::bytes::is_h;
use super::strings::characters_between;
use super::{Coding, Quote, bytes_between};
use std::alloc::{AllocError, Global};

// The bytes of a plain byte string.
fn plain_value(alloc: Global, text: &str) -> Result<Vec<u8>, AllocError>
    requires { (v : List ℕ) × IsQuoted Quote.Single text.now 0 (length text.now) v }
    ensures { (v : List ℕ) → IsQuoted Quote.Single text.now 0 (length text.now) v → IfOk result (λ b. b.items ≡ v) }
{
    let characters = characters_between(alloc, text, 1, text.len() - 1, Quote::Single)?;
    Ok(characters.into_bytes())
}

// The bytes of a byte string with prefix, whose quote is before `start`.
fn prefixed_value(
    alloc: Global,
    coding: Coding,
    source: &[u8],
    start: usize,
) -> Result<Vec<u8>, AllocError>
    requires opens { Opens coding source.now 0 start }
    requires holds { (d : List ℕ) × (v : List ℕ) × IsPrefixed coding source.now 0 (length source.now) d × (coded_bytes coding d ≡ Some v) }
    ensures { (d : List ℕ) (v : List ℕ) → IsPrefixed coding source.now 0 (length source.now) d → coded_bytes coding d ≡ Some v → IfOk result (λ b. b.items ≡ v) }
{
    match bytes_between(alloc, coding, source, start, source.len() - 1)? {
        Some(bytes) => Ok(bytes),
        None => unreachable!(),
    }
}

/// The bytes of a byte string, plain or with a prefix, from its first byte to its closing quote.
///
/// # Errors
///
/// `AllocError` where memory runs out.
pub fn bytes_value(alloc: Global, text: &str) -> Result<Vec<u8>, AllocError>
    requires { (v : List ℕ) × IsBytes text.now 0 (length text.now) v }
    ensures { (v : List ℕ) → IsBytes text.now 0 (length text.now) v → IfOk result (λ b. b.items ≡ v) }
{
    let source = text.as_bytes();
    if source[0] == b'\'' {
        plain_value(alloc, text)
    } else if is_h(source[0]) {
        prefixed_value(alloc, Coding::Hex, source, 2)
    } else {
        prefixed_value(alloc, Coding::Base64, source, 4)
    }
}
