//! Ranks and flags of types and groups, by what they are of.

ghost use Rattle.std.specs.Prelude.{◌≡◌, ◌+◌, ◌*◌, ◌++◌, ◌∷◌, [], IfOk, OnOk, map};
ghost use Rattle.cddl_table.specs.Ranks.{group_rank, type_rank};

use check_recursion::{Node, Ranks};
use check_terms::NoRoom;
use std::alloc::Global;
use table_making::{GroupOrigin, TypeOrigin};

// The ranks of types that are of these.
pub(crate) fn type_ranks(
    alloc: Global,
    ranks: &Ranks,
    origins: &[TypeOrigin],
) -> Result<Vec<usize>, NoRoom>
    ensures { IfOk result (λ v. v.items ≡ map (type_rank ranks.now) origins.now) }
{
    let mut all = Vec::new(alloc);
    for origin in origins {
        push(&mut all, type_rank(ranks, *origin)?)?;
    }
    Ok(all)
}

// The ranks of groups that are of these.
pub(crate) fn group_ranks(
    alloc: Global,
    ranks: &Ranks,
    origins: &[GroupOrigin],
) -> Result<Vec<usize>, NoRoom>
    ensures { IfOk result (λ v. v.items ≡ map (group_rank ranks.now) origins.now) }
{
    let mut all = Vec::new(alloc);
    for origin in origins {
        push(&mut all, group_rank(ranks, *origin)?)?;
    }
    Ok(all)
}

fn push(ranks: &mut Vec<usize>, rank: usize) -> Result<(), NoRoom>
    ensures { OnOk result (ranks.new.items ≡ ranks.old.items ++ rank ∷ []) }
{
    match ranks.push(rank) {
        Ok(()) => Ok(()),
        Err(_) => Err(NoRoom),
    }
}

// The rank of a type that is of this, if it fits.
fn type_rank(ranks: &Ranks, origin: TypeOrigin) -> Result<usize, NoRoom>
    ensures { IfOk result (λ n. n ≡ type_rank ranks.now origin) }
{
    match origin {
        TypeOrigin::Row(row) => twice(ranks.rank(Node::Row(row))),
        TypeOrigin::Instance(place) => twice(ranks.rank(Node::Name(place))),
        TypeOrigin::Chosen(Some(row)) => twice(ranks.rank(Node::Chosen(row))),
        TypeOrigin::Chosen(None) | TypeOrigin::Word(_) => Ok(0),
    }
}

// The rank of a group that is of this, if it fits.
fn group_rank(ranks: &Ranks, origin: GroupOrigin) -> Result<usize, NoRoom>
    ensures { IfOk result (λ n. n ≡ group_rank ranks.now origin) }
{
    match origin {
        GroupOrigin::Alternatives(None) => Ok(0),
        GroupOrigin::Alternatives(Some(row))
        | GroupOrigin::Sequence(row)
        | GroupOrigin::Round(row) => twice(ranks.rank(Node::Row(row))),
        GroupOrigin::Entry(row) => one_more(twice(ranks.rank(Node::Row(row)))?),
    }
}

fn twice(rank: usize) -> Result<usize, NoRoom>
    ensures { IfOk result (λ n. n ≡ 2 * rank) }
{
    match usize::checked_mul(rank, 2) {
        Some(twice) => Ok(twice),
        None => Err(NoRoom),
    }
}

fn one_more(rank: usize) -> Result<usize, NoRoom>
    ensures { IfOk result (λ n. n ≡ rank + 1) }
{
    match usize::checked_add(rank, 1) {
        Some(more) => Ok(more),
        None => Err(NoRoom),
    }
}
