//! Occurrences.

ghost use Rattle.std.specs.Prelude.{◌≡◌, ◌↔◌, IsTrue, MatchOption};
ghost use Rattle.cddl_language.specs.Numbers as N;
ghost use Rattle.cddl_language.specs.Faults.{IsOver};
ghost use Rattle.check_terms.specs.Texts.Occurrence.{HasBounds, IsGreat, IsOccurrence, IsOneGreat, IsTooGreat, most_in};

use crate::texts::numbers::number_in;
use crate::texts::parts::{after, before, is_sign};

/// How often an entry of a group may stand (RFC 8610 section 3.2).
#[derive(Clone, Copy, Debug, PartialEq, Eq)]
pub struct Occurrence {
    /// How often at least.
    pub least: u64,
    /// How often at most, if there is an end.
    pub most: Option<u64>,
}

/// What `?`, `+` or `n*m` says, or None where one of its numbers is 2^64 or more. Before `*` nothing is 0, and after it no
/// end.
pub fn occurrence_of(text: &str) -> Option<Occurrence>
    ensures { MatchOption result (IsTooGreat text.now) (IsOccurrence text.now) }
{
    let text = text.as_bytes();
    if is_sign(text, b'?') {
        return Some(Occurrence {
            least: 0,
            most: Some(1),
        });
    }
    if is_sign(text, b'+') {
        return Some(Occurrence {
            least: 1,
            most: None,
        });
    }
    around_star(text)
}

// What is said by the numbers around the first `*`.
fn around_star(text: &[u8]) -> Option<Occurrence>
    ensures { let least = N.uint_in (N.before 42 text.now) in let most = N.most_behind (N.after 42 text.now) in MatchOption result (IsOneGreat least most) (HasBounds least most) }
{
    let least = number_in(before(text, b'*'))?;
    let most = most_behind(after(text, b'*'))?;
    Some(Occurrence { least, most })
}

// The maximum that the text after `*` says.
fn most_behind(text: &[u8]) -> Option<Option<u64>>
    ensures { MatchOption result (IsGreat (N.most_behind text.now)) (λ most. most_in most ≡ N.most_behind text.now) }
{
    if text.is_empty() {
        return Some(None);
    }
    let most = number_in(text)?;
    Some(Some(most))
}

impl Occurrence {
    /// Whether its minimum is over its maximum, so that nothing can stand so often.
    pub fn is_over(self) -> bool
        ensures { IsTrue result ↔ IsOver self.least (most_in self.most) }
    {
        self.most.is_some_and(|most| most < self.least)
    }

    /// Whether it is exactly once.
    pub fn is_once(self) -> bool
        ensures { result ≡ N.is_once self.least (most_in self.most) }
    {
        self.least == 1 && self.most == Some(1)
    }
}
