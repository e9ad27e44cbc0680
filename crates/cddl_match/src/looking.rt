//! What the rounds of an entry come to at once: they are not asked one by one where tests alone tell what is said.

ghost use Rattle.std.specs.Prelude.{◌≡◌, ◌≤◌, IfSome};
ghost use Rattle.cddl_meaning.specs.Moves as M;
ghost use Rattle.item_nodes.specs.View.{view};
ghost use Rattle.cddl_match.specs.Ahead.{ComesTo, IsEntered, IsFormOf, IsTypeTold, Opens};
ghost use Rattle.match_moves.specs.Views.{reply_view, round_move, rounds_move, values};
ghost use Rattle.table_nodes.specs.Language.{language_of};
ghost use Rattle.table_nodes.specs.Nodes.{type_view};
ghost use Rattle.table_nodes.specs.declared.nodes.GroupId.{GroupId};

use crate::behind::{group_behind, type_behind};
use crate::known::told_of;
use crate::telling::{DEEPEST, form_tells};
use cbor_item::Item;
use match_held::is_small;
use match_moves::{Reply, Round, Rounds, after_round, entry_reply, is_over, said_reply};
use match_tests::Subject;
use table_nodes::{Group, GroupId, Node, Table, Told, TypeId};

/// The entry that a group leads to.
#[derive(Clone, Copy)]
struct Entered<'t> {
    /// The entry's type.
    node: TypeId,
    /// The form of the type behind it.
    form: &'t Node,
    /// The questions that lead to the entry.
    groups: u8,
    /// The questions that lead from the entry's type to the one behind it.
    types: u8,
}

// The entry that the group leads to, if it leads to one.
fn entry_at<'t>(table: &'t Table, group: GroupId) -> Option<Entered<'t>>
    ensures { IfSome result (λ it. IsEntered (language_of table.now) group it.node (type_view it.form.now) it.groups it.types) }
{
    let (group, groups) = group_behind(table, group);
    let node = match table.group(group)? {
        Group::Entry(node) => *node,
        _ => return None,
    };
    let behind = type_behind(table, node);
    Some(Entered {
        node,
        form: behind.form?,
        groups,
        types: behind.passed,
    })
}

// Whether the entry's type says yes to an item, and how many questions that takes, if not over `most`: by its major type, or by
// tests alone.
#[inline(always)]
fn entry_tells(table: &Table, entered: Entered<'_>, item: &Item, most: u64) -> Option<(bool, u64)>
    ensures told { IsFormOf (language_of table.now) entered.entry.node (type_view entered.entry.form.now) entered.entry.types → IfSome result (λ it. IsTypeTold (language_of table.now) entered.entry.node (view item.now) it.0 it.1) }
    ensures within { IfSome result (λ it. it.1 ≤ most) }
{
    match told_of(table, entered.node, item) {
        Told::Yes(steps) => within(true, steps, most),
        Told::No(steps) => within(false, steps, most),
        Told::Nothing => {
            let types = u64::from(entered.types) + 1;
            let left = most.checked_sub(types)?;
            let (says, more) = form_tells(table, entered.form, Subject::Item(item), DEEPEST, left)?;
            Some((says, more + types))
        }
    }
}

// What is known, and in how many questions, if not over `most`.
#[inline(always)]
fn within(says: bool, steps: u16, most: u64) -> Option<(bool, u64)>
    ensures { IfSome result (λ it. (it.0 ≡ says) × (it.1 ≡ steps) × (steps ≤ most)) }
{
    let steps = u64::from(steps);
    if steps <= most {
        Some((says, steps))
    } else {
        None
    }
}

// What the entry does with the items where tests alone tell it, and how many questions that takes, if not over `steps`.
#[inline]
fn told<'i>(
    table: &Table,
    entered: Entered<'_>,
    base: usize,
    place: usize,
    items: &'i [Item],
    steps: u64,
) -> Option<(Reply<'i>, u64)>
    ensures told { (g : GroupId) → IsEntered (language_of table.now) g entered.entry.node (type_view entered.entry.form.now) entered.entry.groups entered.entry.types → IfSome result (λ it. Opens (language_of table.now) (M.OfGroup g base place (values items.now)) (M.Answered (reply_view it.0)) it.1) }
    ensures within { IfSome result (λ it. (1 ≤ it.1) × (it.1 ≤ steps)) }
{
    let groups = u64::from(entered.groups) + 1;
    let left = steps.checked_sub(groups)?;
    match items {
        [] => Some((Reply::Fails { far: base }, groups)),
        [item, rest @ ..] => {
            // What takes longer than a moment is asked where that is counted.
            if !is_small(item) {
                return None;
            }
            let subject = Subject::Item(item);
            let (says, more) = entry_tells(table, entered, item, left)?;
            let reply = entry_reply(base, rest, said_reply(place, subject, says));
            Some((reply, more + groups))
        }
    }
}

// Rounds of an entry, one after the other, as far as tests alone tell them and the steps go: the rounds that are left, or the
// reply; and how many questions that takes.
fn rounds_of<'i>(
    table: &Table,
    entered: Entered<'_>,
    rounds: Rounds<'i>,
    steps: u64,
) -> (Round<'i>, u64)
    ensures comes { IsEntered (language_of table.now) rounds.entry.group entered.entry.node (type_view entered.entry.form.now) entered.entry.groups entered.entry.types → ComesTo (language_of table.now) (rounds_move rounds.entry) (round_move result.0) result.1 }
    ensures within { result.1 ≤ steps }
{
    let mut rounds = rounds;
    let mut asked = 0;
    while !is_over(rounds.most) {
        let Rounds {
            base,
            place,
            items,
            ..
        } = rounds;
        let (reply, more) = match told(table, entered, base, place, items, steps - asked) {
            Some(told) => told,
            None => break,
        };
        asked += more;
        match after_round(rounds, reply) {
            Round::Another(others) => rounds = others,
            over => return (over, asked),
        }
    }
    (Round::Another(rounds), asked)
}

// Rounds, one after the other, as far as tests alone tell them and the steps go, and how many questions that takes.
pub(crate) fn rounds_told<'i>(table: &Table, rounds: Rounds<'i>, steps: u64) -> (Round<'i>, u64)
    ensures comes { ComesTo (language_of table.now) (rounds_move rounds.entry) (round_move result.0) result.1 }
    ensures within { result.1 ≤ steps }
{
    match entry_at(table, rounds.group) {
        Some(entered) => rounds_of(table, entered, rounds, steps),
        None => (Round::Another(rounds), 0),
    }
}
