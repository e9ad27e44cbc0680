//! Whether what is asked need not be there.

ghost use Rattle.std.specs.Prelude.{◌≡◌, reverse};
ghost use Rattle.cddl_reasons.specs.Opened.{asked_in, waits_in};
ghost use Rattle.cddl_reasons.specs.Optional.{is_optional, is_spared, left_for, optional_of};
ghost use Rattle.match_moves.specs.Views.{pending_view, question_view};

use crate::greedy::{is_needed, open_at};
use crate::run::Open;
use match_moves::{Pending, PendingGroup, Question};

// How many items are left for a round of an occurrence that waits so.
fn left_for(pending: &Pending<'_, '_>) -> usize
    ensures { result ≡ left_for (pending_view pending.now) }
{
    match pending {
        Pending::Group(PendingGroup::Repeat(rounds)) => rounds.items.len(),
        _ => 0,
    }
}

// Whether what waits so asks for a further round of an occurrence that has had enough, for which no item is left.
fn is_spared(pending: &Pending<'_, '_>) -> bool
    ensures { result ≡ is_spared (pending_view pending.now) }
{
    !is_needed(pending) && left_for(pending) == 0
}

// Whether what an open question asks need not be there, where that is known.
fn optional_of(waiting: &Open<'_, '_>) -> Option<bool>
    ensures { result ≡ optional_of (question_view waiting.now.question) (pending_view waiting.now.pending) }
{
    let Question::OfGroup { items, .. } = &waiting.question else {
        return Some(false);
    };
    if is_spared(&waiting.pending) {
        return Some(true);
    }
    if items.is_empty() {
        return None;
    }
    Some(false)
}

// The same of the last of these questions of which it is known.
pub(crate) fn is_optional(below: &[Open<'_, '_>]) -> bool
    ensures { result ≡ is_optional (reverse (asked_in below.now)) (reverse (waits_in below.now)) }
{
    'each: for k in 0..below.len() {
        if let Some(optional) = optional_of(open_at(below, below.len() - 1 - k)) {
            return optional;
        }
    }
    false
}
