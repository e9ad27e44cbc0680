//! Occurrences that are exactly once.

ghost use Rattle.std.specs.Prelude.{◌≡◌, Some};
ghost use Rattle.cddl_language.specs.Numbers.{occurs_once};
ghost use Rattle.check_groups.specs.Choosing.Occurrences.{is_once_at};

use check_terms::Terms;
use check_terms::texts::occurrence_of;

/// Whether an entry with the occurrence of this text, if it has one, stands exactly once (RFC 8610 section 3.2). With a number of
/// 2^64 or more it doesn't.
pub fn is_once(terms: &Terms<'_>, text: Option<u32>) -> bool
    ensures { result ≡ is_once_at terms.now.texts text }
{
    let Some(number) = text else {
        return true;
    };
    match terms.text(number) {
        Some(text) => says_once(text),
        None => false,
    }
}

// Whether the text says that it is exactly once. With a number of 2^64 or more it doesn't.
fn says_once(text: &str) -> bool
    ensures { result ≡ occurs_once (Some text.now) }
{
    match occurrence_of(text) {
        Some(occurrence) => occurrence.is_once(),
        None => false,
    }
}
