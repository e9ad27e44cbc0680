//! Occurrences that let an entry stand no time.

ghost use Rattle.std.specs.Prelude.{◌≡◌, nat_eq};
ghost use Rattle.cddl_language.specs.Numbers.{before, least_in};
ghost use Rattle.check_groups.specs.Empty.Occurrences.{is_optional_at};

use check_terms::Terms;
use check_terms::texts::uint;

// Whether an entry with the occurrence of this text, if it has one, may stand no time (RFC 8610 section 3.2).
pub(crate) fn is_optional(terms: &Terms<'_>, text: Option<u32>) -> bool
    ensures { result ≡ is_optional_at terms.now.texts text }
{
    let Some(number) = text else {
        return false;
    };
    match terms.text(number) {
        Some(text) => is_from_nought(text),
        None => false,
    }
}

// Whether the least number that the text says is 0.
fn is_from_nought(text: &str) -> bool
    ensures { result ≡ nat_eq (least_in text.now) 0 }
{
    match text.as_bytes() {
        [b'?'] => true,
        [b'+'] => false,
        _ => uint(before_star(text)) == Some(0),
    }
}

// What stands before the first `*`, or all of a text without one.
fn before_star(text: &str) -> &str
    ensures { result.now ≡ before 42 text.now }
{
    match text.split_once('*') {
        Some((least, _)) => least,
        None => text,
    }
}
