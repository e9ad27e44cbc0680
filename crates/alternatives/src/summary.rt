//! Summaries of alternatives: how many there are, how many members they have, and of which sorts they are.

ghost use Rattle.std.specs.Prelude.{◌≡◌, ◌+◌, ◌*◌};
ghost use Rattle.alternatives.specs.Summaries.{capped};
ghost use Rattle.alternatives.specs.Sorts.{joined, only};
ghost use Rattle.alternatives.specs.Search.{at, beside_sorts, both_summary, either_summary, entry_summary, needed_summary, no_summary, empty_summary, occurring_summary, refuses, repeated_summary, single_sort, value};

use crate::{Bounds, Part};

/// How many alternatives a group may have.
pub const MOST_ALTERNATIVES: u64 = 512;

/// How many members there may be in them together.
pub const MOST_MEMBERS: u64 = 16_384;

/// Which sorts of alternatives there are.
#[derive(Clone, Copy)]
pub struct Sorts {
    /// One without members.
    pub empty: bool,
    /// One that has only members of minimum 0.
    pub optional: bool,
    /// One that has one member, of minimum 1.
    pub needed: bool,
    /// Any other one.
    pub other: bool,
}

const NO_SORTS: Sorts = Sorts {
    empty: false,
    optional: false,
    needed: false,
    other: false,
};

/// What is reported for alternatives.
#[derive(Clone, Copy)]
pub struct Summary {
    /// How many there are, up to `MOST_MEMBERS`; one more where there are more.
    pub alternatives: u64,
    /// How many members they have together, up to `MOST_MEMBERS`; one more where there are more.
    pub members: u64,
    /// Whether a member has the maximum 0.
    pub closed: bool,
    /// The sorts of the alternatives.
    pub sorts: Sorts,
}

// The number, up to the limit of members.
fn cap(number: u64) -> u64
    ensures { result ≡ capped number }
{
    number.min(MOST_MEMBERS + 1)
}

// The sum, up to the limit of members.
fn sum_of(first: u64, second: u64) -> u64
    ensures { result ≡ capped (first + second) }
{
    cap(first.saturating_add(second))
}

// The product, up to the limit of members.
fn product_of(first: u64, second: u64) -> u64
    ensures { result ≡ capped (first * second) }
{
    cap(first.saturating_mul(second))
}

// The sorts that there are in one or the other.
fn joined_sorts(first: Sorts, second: Sorts) -> Sorts
    ensures { result ≡ joined first second }
{
    Sorts {
        empty: first.empty | second.empty,
        optional: first.optional | second.optional,
        needed: first.needed | second.needed,
        other: first.other | second.other,
    }
}

// The sorts of all ways to take an alternative of each.
fn sorts_beside(first: Sorts, second: Sorts) -> Sorts
    ensures { result ≡ beside_sorts first second }
{
    let some_needed = second.needed | second.other;
    let some_members = second.optional | some_needed;
    Sorts {
        empty: first.empty & second.empty,
        optional: (first.empty & second.optional)
            | (first.optional & (second.empty | second.optional)),
        needed: (first.empty & second.needed) | (first.needed & second.empty),
        other: (first.empty & second.other)
            | ((first.optional & some_needed)
                | ((first.needed & some_members) | (first.other & (second.empty | some_members)))),
    }
}

// The sort of a member of this minimum, by itself.
fn sort_of_single(least: u64) -> Sorts
    ensures { result ≡ only (single_sort least) }
{
    Sorts {
        optional: least == 0,
        needed: least == 1,
        other: least > 1,
        ..NO_SORTS
    }
}

// Of an entry with a key.
fn of_entry(bounds: Bounds) -> Summary
    ensures { result ≡ entry_summary bounds }
{
    Summary {
        alternatives: 1,
        members: 1,
        closed: bounds.most == Some(0),
        sorts: sort_of_single(bounds.least),
    }
}

// Of one alternative, without members.
fn of_empty() -> Summary
    ensures { result ≡ empty_summary }
{
    Summary {
        alternatives: 1,
        members: 0,
        closed: false,
        sorts: Sorts {
            empty: true,
            ..NO_SORTS
        },
    }
}

/// Of no alternative.
pub fn of_nothing() -> Summary
    ensures { result ≡ no_summary }
{
    Summary {
        alternatives: 0,
        members: 0,
        closed: false,
        sorts: NO_SORTS,
    }
}

// Of all ways to take an alternative of each.
fn of_both(first: Summary, second: Summary) -> Summary
    ensures { result ≡ both_summary first second }
{
    Summary {
        alternatives: product_of(first.alternatives, second.alternatives),
        members: sum_of(
            product_of(first.members, second.alternatives),
            product_of(first.alternatives, second.members),
        ),
        closed: (first.closed & (second.alternatives > 0))
            | ((first.alternatives > 0) & second.closed),
        sorts: sorts_beside(first.sorts, second.sorts),
    }
}

// Of the alternatives of both.
fn of_either(first: Summary, second: Summary) -> Summary
    ensures { result ≡ either_summary first second }
{
    Summary {
        alternatives: sum_of(first.alternatives, second.alternatives),
        members: sum_of(first.members, second.members),
        closed: first.closed | second.closed,
        sorts: joined_sorts(first.sorts, second.sorts),
    }
}

// Of a group with `*`: one alternative, in which no member is needed.
fn of_repeated(group: Summary) -> Option<Summary>
    ensures { result ≡ repeated_summary group }
{
    if group.closed | group.sorts.other {
        return None;
    }
    Some(Summary {
        alternatives: 1,
        members: group.members,
        closed: false,
        sorts: Sorts {
            empty: group.members == 0,
            optional: group.members > 0,
            ..NO_SORTS
        },
    })
}

// Of a group with `+`: for each of its members one alternative of them all, in which it is needed and the others are not.
fn of_needed(group: Summary) -> Option<Summary>
    ensures { result ≡ needed_summary group }
{
    if group.sorts.empty | group.sorts.optional | group.sorts.other {
        return None;
    }
    Some(Summary {
        alternatives: group.members,
        members: product_of(group.members, group.members),
        closed: false,
        sorts: Sorts {
            needed: group.members == 1,
            other: group.members > 1,
            ..NO_SORTS
        },
    })
}

// Of a group with an occurrence.
fn of_occurring(bounds: Bounds, group: Summary) -> Option<Summary>
    ensures { result ≡ occurring_summary bounds.least bounds.most group }
{
    match (bounds.least, bounds.most) {
        (1, Some(1)) => Some(group),
        (0, Some(1)) => Some(of_either(group, of_empty())),
        (0, None) => of_repeated(group),
        (1, None) => of_needed(group),
        _ => None,
    }
}

/// What is known of the part of this number.
pub fn summary_at(summaries: &[Option<Summary>], number: usize) -> Option<Summary>
    ensures { result ≡ at summaries.now number }
{
    summaries.get(number).copied().unwrap_or(None)
}

/// The summary of a part by those of the parts that it has.
pub fn summary_of(summaries: &[Option<Summary>], part: Part) -> Option<Summary>
    ensures { result ≡ value summaries.now part }
{
    match part {
        Part::Refused => None,
        Part::Entry(bounds) => Some(of_entry(bounds)),
        Part::Empty => Some(of_empty()),
        Part::Nothing => Some(of_nothing()),
        Part::Same(other) => summary_at(summaries, other),
        Part::Both(first, second) => {
            let first = summary_at(summaries, first)?;
            let second = summary_at(summaries, second)?;
            Some(of_both(first, second))
        }
        Part::Either(first, second) => {
            let first = summary_at(summaries, first)?;
            let second = summary_at(summaries, second)?;
            Some(of_either(first, second))
        }
        Part::Occurs(bounds, group) => of_occurring(bounds, summary_at(summaries, group)?),
    }
}

/// Whether a group with this summary may not occur so. One that stands for nothing is taken for one of no alternative, which
/// may occur as often as any group may.
pub fn is_refused(bounds: Bounds, group: Option<Summary>) -> bool
    ensures { result ≡ refuses bounds group }
{
    of_occurring(bounds, group.unwrap_or(of_nothing())).is_none()
}
