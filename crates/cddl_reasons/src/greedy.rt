//! Whether what took the last item of an array need not have taken it, as far as the numbers of items tell.

ghost use Rattle.std.specs.Prelude.{◌≡◌, ◌<◌, ℕ, List, Some, length, option_map, reverse, slice_get, true};
ghost use Rattle.std.specs.List.{sum};
ghost use Rattle.cddl_meaning.specs.Forms.{Language};
ghost use Rattle.cddl_reasons.specs.Greedy.{AreShares, HasMore, each_round, greedy_of, is_greedy, is_greedy_in, is_needed, is_over, is_spare, parts_before, rounds_of, unless_needed};
ghost use Rattle.cddl_reasons.specs.Opened.{asked_in, waits_in};
ghost use Rattle.match_moves.specs.Views.{pending_view, question_view};
ghost use Rattle.table_nodes.specs.Language.{language_of};
ghost use Rattle.table_nodes.specs.Nodes.{group_view, most_view};
ghost use Rattle.table_nodes.specs.declared.nodes.GroupId.{GroupId};
ghost use Rattle.table_nodes.specs.declared.nodes.TypeId.{TypeId};

use crate::run::Open;
use match_moves::{Pending, PendingGroup, Question};
use table_nodes::{Group, GroupId, Most, Table};

// How many rounds there may be of a part, at least and at most, where each takes one item.
#[derive(Clone, Copy)]
struct Rounds {
    least: u64,
    most: Most,
}

// The same of an occurrence of this group.
fn each_round(table: &Table, group: GroupId, least: u64, most: Most) -> Option<Rounds>
    ensures { option_map (λ (r : Rounds). (r.least, most_view r.most)) result ≡ each_round ((language_of table.now).group_at group) least (most_view most) }
{
    match table.group(group) {
        Some(Group::Entry(_)) => Some(Rounds { least, most }),
        _ => None,
    }
}

fn rounds_of(table: &Table, part: GroupId) -> Option<Rounds>
    ensures { option_map (λ (r : Rounds). (r.least, most_view r.most)) result ≡ rounds_of (language_of table.now) ((language_of table.now).group_at part) }
{
    match table.group(part) {
        Some(Group::Entry(_)) => Some(Rounds {
            least: 1,
            most: Most::AtMost(1),
        }),
        Some(Group::Repeat { least, most, group }) => each_round(table, *group, *least, *most),
        _ => None,
    }
}

// Whether so many items are more than these parts take at most.
fn is_over(table: &Table, parts: &[GroupId], count: u64) -> bool
    ensures { result ≡ is_over (language_of table.now) (reverse parts.now) count }
{
    let mut left = parts;
    let mut items = count;
    'each: while let Some((part, others)) = left.split_last() {
        let Some(rounds) = rounds_of(table, *part) else {
            return false;
        };
        match rounds.most {
            Most::AtMost(most) if most < items => items -= most,
            _ => return false,
        }
        left = others;
    }
    0 < items
}

// Whether the last of these parts that took any of so many items, which all of them have taken, need not have taken as many.
fn is_spare(table: &Table, parts: &[GroupId], count: u64) -> bool
    ensures { result ≡ is_spare (language_of table.now) (reverse parts.now) count }
{
    let mut left = parts;
    'each: while let Some((part, others)) = left.split_last() {
        let Some(rounds) = rounds_of(table, *part) else {
            return false;
        };
        if 0 < rounds.least {
            return rounds.least < count && is_over(table, others, count - rounds.least);
        }
        left = others;
    }
    0 < count
}

// The parts of a sequence before the one that is asked, with so many after it.
fn parts_before(table: &Table, group: GroupId, after: usize) -> &[GroupId]
    ensures { result.now ≡ parts_before ((language_of table.now).group_at group) after }
{
    match table.group(group) {
        Some(Group::Sequence(parts)) => {
            &parts[..parts.len().saturating_sub(after).saturating_sub(1)]
        }
        _ => &[],
    }
}

// The same of a group that was asked of so many items, and waits so.
fn is_greedy_in(table: &Table, group: GroupId, pending: &Pending<'_, '_>, count: u64) -> bool
    ensures { result ≡ is_greedy_in (language_of table.now) ((language_of table.now).group_at group) (pending_view pending.now) count }
{
    let Pending::Group(PendingGroup::Sequence { parts, .. }) = pending else {
        return false;
    };
    is_spare(table, parts_before(table, group, parts.len()), count)
}

// Whether what waits so asks for more than a further round of an occurrence that has had enough.
pub(crate) fn is_needed(pending: &Pending<'_, '_>) -> bool
    ensures { result ≡ is_needed (pending_view pending.now) }
{
    match pending {
        Pending::Group(PendingGroup::Repeat(rounds)) => rounds.least > 0,
        _ => true,
    }
}

fn unless_needed(pending: &Pending<'_, '_>) -> Option<bool>
    ensures { result ≡ unless_needed (is_needed (pending_view pending.now)) }
{
    if is_needed(pending) {
        None
    } else {
        Some(false)
    }
}

// The same of an open question, unless it was asked of no items and needs some.
fn greedy_of(table: &Table, waiting: &Open<'_, '_>) -> Option<bool>
    ensures { result ≡ greedy_of (language_of table.now) (question_view waiting.now.question) (pending_view waiting.now.pending) }
{
    let Question::OfGroup { group, items, .. } = &waiting.question else {
        return Some(false);
    };
    if items.is_empty() {
        return unless_needed(&waiting.pending);
    }
    Some(is_greedy_in(table, *group, &waiting.pending, items.len() as u64))
}

// The open question at this index.
pub(crate) fn open_at<'o, 't, 'i>(below: &'o [Open<'t, 'i>], index: usize) -> &'o Open<'t, 'i>
    requires { index < length below.now }
    ensures { slice_get below.now index ≡ Some result.now }
{
    match below.get(index) {
        Some(waiting) => waiting,
        None => unreachable!(),
    }
}

// The same of the last of these questions of which it is known.
pub(crate) fn is_greedy(table: &Table, below: &[Open<'_, '_>]) -> bool
    ensures { result ≡ is_greedy (language_of table.now) (reverse (asked_in below.now)) (reverse (waits_in below.now)) }
{
    'each: for k in 0..below.len() {
        if let Some(greedy) = greedy_of(table, open_at(below, below.len() - 1 - k)) {
            return greedy;
        }
    }
    false
}

/// What [`Reason::greedy`](crate::Reason) tells is so, whatever each part has taken within its bounds: where so many items are taken
/// by these parts, the last part first, the last one that took any took more than it must. It does nothing.
pub fn greedy_is_certain()
    ensures { (l : Language TypeId GroupId) (gs : List GroupId) (ks : List ℕ) (n : ℕ) → is_spare l gs n ≡ true → AreShares l gs ks → sum ks ≡ n → HasMore l gs ks }
{}
