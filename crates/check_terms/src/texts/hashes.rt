//! Forms of `#`.

ghost use Rattle.std.specs.Prelude.{◌≡◌, ◌↔◌, IsTrue, MatchOption};
ghost use Rattle.cddl_language.specs.Numbers as N;
ghost use Rattle.cddl_language.specs.Faults.{IsBadHash};
ghost use Rattle.check_terms.specs.Texts.HashForm.{IsBadNumber, IsGreat, IsHashForm, IsTooGreat, form};

use crate::texts::numbers::{digit_value, number_in};
use crate::texts::parts::after;

/// What `#`, `#d` or `#d.n` says (RFC 8610 section 2.2.3 and appendix B).
#[derive(Clone, Copy, Debug, PartialEq, Eq)]
pub enum HashForm {
    /// `#`
    AnyItem,
    /// `#d`, with the digit.
    Major(u8),
    /// `#d.n`
    Numbered { digit: u8, number: u64 },
}

/// The form of a text, or None where its number is 2^64 or more.
pub fn hash_form(text: &str) -> Option<HashForm>
    ensures { MatchOption result (IsTooGreat text.now) (IsHashForm text.now) }
{
    match text.as_bytes() {
        [_, digit, rest @ ..] => numbered_or_not(digit_value(*digit), after(rest, b'.')),
        _ => Some(HashForm::AnyItem),
    }
}

// The form of this digit, with the number in the text after the `.`, if there is text.
fn numbered_or_not(digit: u8, text: &[u8]) -> Option<HashForm>
    ensures { MatchOption result (IsGreat (N.numbered_or_not digit text.now)) (λ f. form f ≡ N.numbered_or_not digit text.now) }
{
    if text.is_empty() {
        return Some(HashForm::Major(digit));
    }
    let number = number_in(text)?;
    Some(HashForm::Numbered { digit, number })
}

impl HashForm {
    /// Whether it stands for nothing: `#8`, `#9`, `#d.n` with another digit than 7, and `#7.n` with a number that no simple
    /// value and no float has (RFC 8949 section 3.3).
    pub fn is_bad(self) -> bool
        ensures { IsTrue result ↔ IsBadHash (form self) }
    {
        match self {
            HashForm::AnyItem => false,
            HashForm::Major(digit) => digit > 7,
            HashForm::Numbered { digit, number } => digit != 7 || is_bad_number(number),
        }
    }
}

// Whether no simple value and no float of `#7.n` has this number.
fn is_bad_number(number: u64) -> bool
    ensures { IsTrue result ↔ IsBadNumber number }
{
    number == 24 || (number > 27 && number < 32) || number > 255
}

/// Whether the form of a text stands for nothing, whatever its number.
pub fn is_bad_hash(text: &str) -> bool
    ensures { IsTrue result ↔ IsBadHash (N.hash_form text.now) }
{
    match hash_form(text) {
        Some(form) => form.is_bad(),
        None => true,
    }
}
