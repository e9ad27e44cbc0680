//! Ranks by their order among those that are used.

ghost use Rattle.std.specs.Prelude.{◌≡◌, ◌↔◌, ◌++◌, ◌∷◌, [], ℕ, Contains, IfOk, OnOk, map};
ghost use Rattle.std.specs.List.Sorted.{IsStrictlyIncreasing};
ghost use Rattle.cddl_table.specs.Ranks.{AreUsed, place_of};

use check_terms::NoRoom;
use std::alloc::Global;

// The ranks of these types and groups, each once and in order, and 0, the rank of what is not there.
pub(crate) fn used_ranks(
    alloc: Global,
    types: &[usize],
    groups: &[usize],
) -> Result<Vec<usize>, NoRoom>
    ensures { IfOk result (λ v. AreUsed types.now groups.now v.items) }
{
    let mut used = Vec::new(alloc);
    add(&mut used, types)?;
    add(&mut used, groups)?;
    add(&mut used, &[0])?;
    sort(&mut used);
    Ok(used)
}

fn add(all: &mut Vec<usize>, ranks: &[usize]) -> Result<(), NoRoom>
    ensures { OnOk result (all.new.items ≡ all.old.items ++ ranks.now) }
{
    match all.extend_from_slice(ranks) {
        Ok(()) => Ok(()),
        Err(_) => Err(NoRoom),
    }
}

fn sort(ranks: &mut Vec<usize>)
    ensures increasing { IsStrictlyIncreasing ranks.new.items }
    ensures members { (n : ℕ) → Contains ranks.new.items n ↔ Contains ranks.old.items n }
{
    ranks.sort_unstable();
    ranks.dedup();
}

// The places of these ranks among those that are used.
pub(crate) fn places(alloc: Global, used: &[usize], ranks: &[usize]) -> Result<Vec<usize>, NoRoom>
    requires { IsStrictlyIncreasing used.now }
    ensures { IfOk result (λ v. v.items ≡ map (place_of used.now) ranks.now) }
{
    let mut all = Vec::new(alloc);
    for rank in ranks {
        push(&mut all, place_of(used, *rank))?;
    }
    Ok(all)
}

fn push(places: &mut Vec<usize>, place: usize) -> Result<(), NoRoom>
    ensures { OnOk result (places.new.items ≡ places.old.items ++ place ∷ []) }
{
    match places.push(place) {
        Ok(()) => Ok(()),
        Err(_) => Err(NoRoom),
    }
}

// How many of the ranks that are used are lower.
fn place_of(used: &[usize], rank: usize) -> usize
    requires { IsStrictlyIncreasing used.now }
    ensures { result ≡ place_of used.now rank }
{
    used.partition_point(|lower| *lower < rank)
}
