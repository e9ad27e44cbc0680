//! How lists of alternatives are made: of nothing, of an entry, of two lists, and of a group with an occurrence.

ghost use Rattle.std.specs.Prelude.{◌≡◌, ◌++◌, ◌∷◌, ◌<◌, ◌+◌, [], IfOk, List, Some, drop, length, map, replicate, slice_index_or, take, vec_items};
ghost use Rattle.alternatives.specs.Splices.{behind, each_needed, entry_of, from, members, occurring, ways};
ghost use Rattle.alternatives.specs.declared.Member.{Member};

use crate::{Bounds, Member};
use std::alloc::{AllocError, Global};

/// So many alternatives without members.
pub fn empty_ones(alloc: Global, count: u64) -> Result<Vec<Vec<Member>>, AllocError>
    ensures { IfOk result (λ v. map vec_items v.items ≡ replicate count []) }
{
    let mut alternatives = Vec::new(alloc);
    for _ in 0..count {
        alternatives.push(Vec::new(alloc))?;
    }
    Ok(alternatives)
}

/// The one alternative of an entry.
pub fn entry_alone(
    alloc: Global,
    entry: usize,
    bounds: Bounds,
) -> Result<Vec<Vec<Member>>, AllocError>
    ensures { IfOk result (λ v. map vec_items v.items ≡ entry_of entry bounds) }
{
    let mut members = Vec::new(alloc);
    members.push(Member { entry, bounds })?;
    only_one(alloc, members)
}

// The one alternative of these members.
fn only_one(alloc: Global, members: Vec<Member>) -> Result<Vec<Vec<Member>>, AllocError>
    ensures { IfOk result (λ v. map vec_items v.items ≡ members.items ∷ []) }
{
    let mut alternatives = Vec::new(alloc);
    alternatives.push(members)?;
    Ok(alternatives)
}

/// All ways to take an alternative of the first and then one of the second, the first slowest. Where there is one second, it
/// is put after each of the first, which stay where they are: so rows of entries grow in place.
pub fn ways_beside(
    alloc: Global,
    mut first: Vec<Vec<Member>>,
    second: &[Vec<Member>],
) -> Result<Vec<Vec<Member>>, AllocError>
    ensures { IfOk result (λ v. map vec_items v.items ≡ ways (map vec_items first.items) (map vec_items second.now)) }
{
    if second.len() != 1 {
        return ways_of(alloc, &first, second);
    }
    put_behind(&mut first, &second[0])?;
    Ok(first)
}

// Puts the members after each alternative.
fn put_behind(alternatives: &mut Vec<Vec<Member>>, members: &[Member]) -> Result<(), AllocError>
    ensures { IfOk result (λ _. map vec_items alternatives.new.items ≡ map (λ ms. ms ++ members.now) (map vec_items alternatives.old.items)) }
{
    for number in 0..alternatives.len() {
        alternatives[number].extend_from_slice(members)?;
    }
    Ok(())
}

// All ways to take an alternative of each, as new ones.
fn ways_of(
    alloc: Global,
    first: &[Vec<Member>],
    second: &[Vec<Member>],
) -> Result<Vec<Vec<Member>>, AllocError>
    ensures { IfOk result (λ v. map vec_items v.items ≡ ways (map vec_items first.now) (map vec_items second.now)) }
{
    let mut alternatives = Vec::new(alloc);
    for before in first {
        add_behind(alloc, &mut alternatives, before, second)?;
    }
    Ok(alternatives)
}

// Adds each of the second after these members.
fn add_behind(
    alloc: Global,
    alternatives: &mut Vec<Vec<Member>>,
    before: &[Member],
    second: &[Vec<Member>],
) -> Result<(), AllocError>
    ensures { IfOk result (λ _. map vec_items alternatives.new.items ≡ map vec_items alternatives.old.items ++ behind before.now (map vec_items second.now)) }
{
    for after in second {
        alternatives.push(joined(alloc, before, after)?)?;
    }
    Ok(())
}

// The ones, and then the others.
fn joined(alloc: Global, first: &[Member], second: &[Member]) -> Result<Vec<Member>, AllocError>
    ensures { IfOk result (λ v. v.items ≡ first.now ++ second.now) }
{
    let mut members = Vec::from_slice(alloc, first)?;
    members.extend_from_slice(second)?;
    Ok(members)
}

// The member so often at least, without an end.
fn member_from(least: u64, member: Member) -> Member
    ensures { result ≡ from least member }
{
    Member {
        entry: member.entry,
        bounds: Bounds { least, most: None },
    }
}

// All members of the alternatives, in order, none of them needed.
fn all_from_none(alloc: Global, alternatives: &[Vec<Member>]) -> Result<Vec<Member>, AllocError>
    ensures { IfOk result (λ v. v.items ≡ map (from 0) (members (map vec_items alternatives.now))) }
{
    let mut all = Vec::new(alloc);
    for members in alternatives {
        add_from_none(&mut all, members)?;
    }
    Ok(all)
}

// Adds the members, none of them needed.
fn add_from_none(all: &mut Vec<Member>, members: &[Member]) -> Result<(), AllocError>
    ensures { IfOk result (λ _. all.new.items ≡ all.old.items ++ map (from 0) members.now) }
{
    for member in members {
        all.push(member_from(0, *member))?;
    }
    Ok(())
}

// For each of these members, none of them needed, one alternative of them all in which it is.
fn each_in_turn(alloc: Global, all: &[Member]) -> Result<Vec<Vec<Member>>, AllocError>
    ensures { IfOk result (λ v. (ms : List Member) → all.now ≡ map (from 0) ms → map vec_items v.items ≡ each_needed [] ms) }
{
    let mut alternatives = Vec::new(alloc);
    for number in 0..all.len() {
        alternatives.push(with_needed(alloc, all, number)?)?;
    }
    Ok(alternatives)
}

// These members, of which this one is needed.
fn with_needed(alloc: Global, all: &[Member], number: usize) -> Result<Vec<Member>, AllocError>
    requires { number < length all.now }
    ensures { IfOk result (λ v. (d : Member) → v.items ≡ take number all.now ++ from 1 (slice_index_or all.now number d) ∷ drop (number + 1) all.now) }
{
    let mut members = Vec::from_slice(alloc, &all[..number])?;
    members.push(member_from(1, all[number]))?;
    members.extend_from_slice(&all[number + 1..])?;
    Ok(members)
}

/// What a group with these alternatives has, where it may occur so.
pub fn occurring_ones(
    alloc: Global,
    bounds: Bounds,
    mut group: Vec<Vec<Member>>,
) -> Result<Vec<Vec<Member>>, AllocError>
    ensures { IfOk result (λ v. (mss : List (List Member)) → occurring bounds.least bounds.most (map vec_items group.items) ≡ Some mss → map vec_items v.items ≡ mss) }
{
    match (bounds.least, bounds.most) {
        (0, Some(_)) => {
            group.push(Vec::new(alloc))?;
            Ok(group)
        }
        (0, None) => only_one(alloc, all_from_none(alloc, &group)?),
        (_, None) => each_in_turn(alloc, &all_from_none(alloc, &group)?),
        _ => Ok(group),
    }
}
