//! Entries without keys.

ghost use Rattle.std.specs.Prelude.{◌≡◌, IfOk, List};
ghost use Rattle.all_offsets.specs.Offsets.{AreOffsets, IsAtPlace, IsSaid};
ghost use Rattle.cddl_language.specs.Faults.{Specification, definitions, rules};
ghost use Rattle.cddl_language.specs.MapFaults.{HasNoKey};
ghost use Rattle.cddl_language.specs.Terms.{Ref, Text};
ghost use Rattle.check_maps.specs.MapFaults.Faults.{AreFaults};
ghost use Rattle.check_maps.specs.Spliced.Spliced.{AreSpliced};
ghost use Rattle.check_root.specs.Least.{least_over};
ghost use Rattle.check_root.specs.SplicedFaults.Lookups as by;
ghost use Rattle.lists.specs.Least.{IsLeast};
ghost use Rattle.check_terms.specs.Table.{Table};

use crate::spliced_faults::lookups::{faults_of, told_if};
use all_offsets::{push_found, sort};
use check_maps::map_faults::MapFaults;
use check_maps::spliced::Spliced;
use lists::lesser;
use std::alloc::{AllocError, Global};

/// The least offset of an entry of a map that has no key and is no group (RFC 8610 section 3.5).
///
/// It takes a time in proportion to the entries.
pub fn no_key(spliced: &[Spliced], faults: &[MapFaults]) -> Option<usize>
    ensures { (s : Specification) (root : Text) (t : Table) (refs : List Ref) → AreSpliced (rules s) root t refs spliced.now → AreFaults (definitions s) root t faults.now → IsLeast (HasNoKey (rules s) root) result }
{
    least_keyless(spliced, faults)
}

/// All offsets of such entries, in ascending order, each once.
///
/// It takes a time of n log n for n entries. An error comes only where memory is refused.
pub fn all_no_key(
    alloc: Global,
    spliced: &[Spliced],
    faults: &[MapFaults],
) -> Result<Vec<usize>, AllocError>
    ensures { IfOk result (λ v. (s : Specification) (root : Text) (t : Table) (refs : List Ref) → AreSpliced (rules s) root t refs spliced.now → AreFaults (definitions s) root t faults.now → AreOffsets (HasNoKey (rules s) root) v.items) }
{
    all_keyless(alloc, spliced, faults)
}

fn all_keyless(
    alloc: Global,
    spliced: &[Spliced],
    faults: &[MapFaults],
) -> Result<Vec<usize>, AllocError>
    ensures { IfOk result (λ v. AreOffsets (IsAtPlace (IsSaid (λ k. by.keyless_at faults.now)) spliced.now) v.items) }
{
    let mut offsets = Vec::new(alloc);
    for entry in spliced {
        push_found(&mut offsets, keyless_at(faults, *entry))?;
    }
    sort(&mut offsets);
    Ok(offsets)
}

fn least_keyless(spliced: &[Spliced], faults: &[MapFaults]) -> Option<usize>
    ensures { result ≡ least_over (by.keyless_at faults.now) None spliced.now }
{
    let mut least = None;
    for entry in spliced {
        least = lesser(least, keyless_at(faults, *entry));
    }
    least
}

// The offset of the entry, if it lacks a key.
fn keyless_at(faults: &[MapFaults], entry: Spliced) -> Option<usize>
    ensures { result ≡ by.keyless_at faults.now entry }
{
    told_if(lacks_key(faults, entry.row), entry.at)
}

fn lacks_key(faults: &[MapFaults], row: u32) -> bool
    ensures { result ≡ by.lacks_key faults.now row }
{
    match faults_of(faults, row) {
        Some(wrong) => wrong.lacks_key,
        None => false,
    }
}
