//! Lists of all offsets at which something stands, and not of the least alone: in ascending order, each once. What is here knows
//! nothing of CBOR or CDDL.
#![tactic(auto)]

ghost use Rattle.std.specs.Prelude.{◌≡◌, ◌↔◌, ◌⊎◌, ℕ, Contains, IfOk, OnOk};
ghost use Rattle.std.specs.List.Sorted.{IsStrictlyIncreasing};
ghost use Rattle.all_offsets.specs.Offsets.{Gains, IsThatOf};

use std::alloc::{AllocError, Global};

/// Adds an offset, if there is one.
pub fn push_found(offsets: &mut Vec<usize>, found: Option<usize>) -> Result<(), AllocError>
    ensures { OnOk result (Gains (IsThatOf found) offsets.old.items offsets.new.items) }
{
    match found {
        Some(at) => {
            offsets.push(at)?;
            Ok(())
        }
        None => Ok(()),
    }
}

/// A list of this offset alone, if there is one.
pub fn found_alone(alloc: Global, found: Option<usize>) -> Result<Vec<usize>, AllocError>
    ensures { IfOk result (λ v. (p : ℕ) → Contains v.items p ↔ IsThatOf found p) }
{
    let mut offsets = Vec::new(alloc);
    push_found(&mut offsets, found)?;
    Ok(offsets)
}

/// Puts the offsets in ascending order, each once.
pub fn sort(offsets: &mut Vec<usize>)
    ensures rising { IsStrictlyIncreasing offsets.new.items }
    ensures same { (p : ℕ) → Contains offsets.new.items p ↔ Contains offsets.old.items p }
{
    offsets.sort_unstable();
    offsets.dedup();
}

/// The offsets of both lists, in ascending order, each once.
pub fn of_both(mut first: Vec<usize>, second: &[usize]) -> Result<Vec<usize>, AllocError>
    ensures rising { IfOk result (λ v. IsStrictlyIncreasing v.items) }
    ensures each { IfOk result (λ v. (p : ℕ) → Contains v.items p ↔ (Contains first.items p ⊎ Contains second.now p)) }
{
    first.extend_from_slice(second)?;
    sort(&mut first);
    Ok(first)
}
