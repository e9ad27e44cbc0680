//! Tag numbers.

ghost use Rattle.check_terms.specs.Texts.TagNumber.{IsTagNumber};

use crate::texts::numbers::number_in;
use crate::texts::parts::{after, before};

/// The number of a tag's opening, `#6(` or `#6.n(` (RFC 8610 section 3.6).
#[derive(Clone, Copy, Debug, PartialEq, Eq)]
pub enum TagNumber {
    /// Any number, as no number is given.
    Any,
    /// This number.
    Exactly(u64),
    /// A number of 2^64 or more, which no tag has.
    TooGreat,
}

/// The number in the text of a tag's opening: what is after its first `.`, to the next `(`.
pub fn tag_number(text: &str) -> TagNumber
    ensures { IsTagNumber text.now result }
{
    let number = after(text.as_bytes(), b'.');
    if number.is_empty() {
        return TagNumber::Any;
    }
    match number_in(before(number, b'(')) {
        Some(number) => TagNumber::Exactly(number),
        None => TagNumber::TooGreat,
    }
}
