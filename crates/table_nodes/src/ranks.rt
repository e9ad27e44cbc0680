//! Ranks of types and groups: what is free in one has a lower rank.

ghost use Rattle.std.specs.Prelude.{◌≡◌, ◌↔◌, IsTrue, slice_get, slice_index_or, false, true};
ghost use Rattle.cddl_meaning.specs.Ranks.Flags.{AreBelow, IsGroupRankedBy, IsRankedBy, IsTypeRanked, LeadsDownBy, all_flagged, flag_of, one_flagged};
ghost use Rattle.cddl_meaning.specs.Judges.{is_over};
ghost use Rattle.table_nodes.specs.Nodes.{group_or_none, group_view, language_in, most_view, type_or_none, type_view};
ghost use Rattle.table_nodes.specs.Ranks.{flag_in, greatest, group_rank_in, type_rank_in};

use crate::nodes::{Content, Group, GroupId, Most, Node, TypeId};
use thiserror::Error;

/// A rank for each type and group, each known by its number, and whether each group may take no item. What has no rank here
/// has the rank 0, and a group that has no flag takes an item or fails.
#[derive(Drop)]
pub struct Ranks {
    pub types: Vec<usize>,
    pub groups: Vec<usize>,
    pub may_be_empty: Vec<bool>,
}

/// The ranks don't go down, or not just the groups that may take no item are flagged.
#[derive(Clone, Copy, Debug, PartialEq, Eq, Error)]
#[error("the ranks do not go down")]
pub struct NotRanked;

fn rank_at(ranks: &[usize], number: usize) -> usize
    ensures { result ≡ slice_index_or ranks.now number 0 }
{
    ranks.get(number).copied().unwrap_or(0)
}

fn flag_at(flags: &[bool], number: usize) -> bool
    ensures { result ≡ slice_index_or flags.now number false }
{
    flags.get(number).copied().unwrap_or(false)
}

// The greatest of these numbers, or 0.
pub(crate) fn greatest(numbers: &[usize]) -> usize
    ensures { result ≡ greatest numbers.now }
{
    let mut most = 0;
    for number in numbers {
        most = (*number).max(most);
    }
    most
}

// Whether all of these types have a rank below this one.
fn are_types_below(ids: &[TypeId], ranks: &[usize], rank: usize) -> bool
    ensures { IsTrue result ↔ AreBelow (type_rank_in ranks.now) rank ids.now }
{
    for id in ids {
        if rank_at(ranks, id.number) >= rank {
            return false;
        }
    }
    true
}

// Whether all of these groups have a rank below this one.
fn are_groups_below(ids: &[GroupId], ranks: &[usize], rank: usize) -> bool
    ensures { IsTrue result ↔ AreBelow (group_rank_in ranks.now) rank ids.now }
{
    for id in ids {
        if rank_at(ranks, id.number) >= rank {
            return false;
        }
    }
    true
}

// Whether the parts that are free in a sequence have a rank below this one.
fn are_parts_below(ids: &[GroupId], flags: &[bool], ranks: &[usize], rank: usize) -> bool
    ensures { IsTrue result ↔ LeadsDownBy (flag_in flags.now) (group_rank_in ranks.now) rank ids.now }
{
    for id in ids {
        if rank_at(ranks, id.number) >= rank {
            return false;
        }
        if !flag_at(flags, id.number) {
            return true;
        }
    }
    true
}

// Whether all of these groups are flagged.
fn are_flagged(ids: &[GroupId], flags: &[bool]) -> bool
    ensures { result ≡ all_flagged (flag_in flags.now) ids.now }
{
    for id in ids {
        if !flag_at(flags, id.number) {
            return false;
        }
    }
    true
}

// Whether one of these groups is flagged.
fn is_one_flagged(ids: &[GroupId], flags: &[bool]) -> bool
    ensures { result ≡ one_flagged (flag_in flags.now) ids.now }
{
    for id in ids {
        if flag_at(flags, id.number) {
            return true;
        }
    }
    false
}

// Whether a group may take no item, as its parts are flagged.
fn flag_of(group: &Group, flags: &[bool]) -> bool
    ensures { result ≡ flag_of (flag_in flags.now) (group_view group.now) }
{
    match group {
        Group::Entry(_) => false,
        Group::Ref(id) => flag_at(flags, id.number),
        Group::Sequence(ids) => are_flagged(ids, flags),
        Group::Alternatives(ids) => is_one_flagged(ids, flags),
        Group::Repeat { least: 0, .. } => true,
        Group::Repeat { most, group, .. } => is_over(*most) || flag_at(flags, group.number),
    }
}

// Whether no round may follow.
fn is_over(most: Most) -> bool
    ensures { result ≡ is_over (most_view most) }
{
    matches!(most, Most::AtMost(0))
}

// Whether what is free in the type has a rank below this one.
fn is_type_ranked(node: &Node, types: &[usize], groups: &[usize], rank: usize) -> bool
    ensures { IsTrue result ↔ IsTypeRanked (type_rank_in types.now) (group_rank_in groups.now) rank (type_view node.now) }
{
    match node {
        Node::Plain(_) | Node::TagOf(_, _) | Node::MapOf(_) => true,
        Node::Ref(id)
        | Node::SimpleBy(id)
        | Node::Such(id, _)
        | Node::Holding(id, Content::OneItem, _) => rank_at(types, id.number) < rank,
        Node::Both(left, right) | Node::Holding(left, Content::Sequence, right) => {
            rank_at(types, left.number) < rank && rank_at(types, right.number) < rank
        }
        Node::Choice(ids) => are_types_below(ids, types, rank),
        Node::ArrayOf(id) => rank_at(groups, id.number) < rank,
    }
}

// Whether what is free in the group, by the flags, has a rank below this one.
fn is_group_ranked(group: &Group, flags: &[bool], ranks: &[usize], rank: usize) -> bool
    ensures { IsTrue result ↔ IsGroupRankedBy (flag_in flags.now) (group_rank_in ranks.now) rank (group_view group.now) }
{
    match group {
        Group::Entry(_) => true,
        Group::Ref(id) | Group::Repeat { group: id, .. } => rank_at(ranks, id.number) < rank,
        Group::Sequence(ids) => are_parts_below(ids, flags, ranks, rank),
        Group::Alternatives(ids) => are_groups_below(ids, ranks, rank),
    }
}

// Whether the ranks of all types go down.
fn are_types_ranked(nodes: &[Node], types: &[usize], groups: &[usize]) -> bool
    ensures { IsTrue result ↔ ((id : TypeId) → IsTypeRanked (type_rank_in types.now) (group_rank_in groups.now) (type_rank_in types.now id) (type_or_none (slice_get nodes.now id.number))) }
{
    for (i, node) in nodes.iter().enumerate() {
        if !is_type_ranked(node, types, groups, rank_at(types, i)) {
            return false;
        }
    }
    true
}

// Whether the ranks of all groups go down, by the flags.
fn are_groups_ranked(nodes: &[Group], flags: &[bool], ranks: &[usize]) -> bool
    ensures { IsTrue result ↔ ((id : GroupId) → IsGroupRankedBy (flag_in flags.now) (group_rank_in ranks.now) (group_rank_in ranks.now id) (group_or_none (slice_get nodes.now id.number))) }
{
    for (i, node) in nodes.iter().enumerate() {
        if !is_group_ranked(node, flags, ranks, rank_at(ranks, i)) {
            return false;
        }
    }
    true
}

// Whether each group is flagged that may take no item, as its parts are flagged.
fn are_all_flagged(nodes: &[Group], flags: &[bool]) -> bool
    ensures { IsTrue result ↔ ((id : GroupId) → flag_of (flag_in flags.now) (group_or_none (slice_get nodes.now id.number)) ≡ true → flag_in flags.now id ≡ true) }
{
    for (i, node) in nodes.iter().enumerate() {
        if flag_of(node, flags) && !flag_at(flags, i) {
            return false;
        }
    }
    true
}

// Whether the ranks of these types and groups go down, by the flags.
pub(crate) fn are_ranked(types: &[Node], groups: &[Group], ranks: &Ranks) -> bool
    ensures { IsTrue result ↔ IsRankedBy (language_in types.now groups.now) (flag_in ranks.now.may_be_empty.items) (type_rank_in ranks.now.types.items) (group_rank_in ranks.now.groups.items) }
{
    are_all_flagged(groups, &ranks.may_be_empty)
        && are_types_ranked(types, &ranks.types, &ranks.groups)
        && are_groups_ranked(groups, &ranks.may_be_empty, &ranks.groups)
}
