//! Groups in maps that come back to themselves, or that may not occur so often.

ghost use Rattle.std.specs.Prelude.{◌≡◌, ◌||◌, IfOk, List};
ghost use Rattle.all_offsets.specs.Offsets.{AreOffsets, IsAtPlace, IsSaid};
ghost use Rattle.cddl_language.specs.Faults.{Specification, definitions, rules};
ghost use Rattle.cddl_language.specs.MapFaults.{HasMapShape};
ghost use Rattle.cddl_language.specs.Terms.{Ref, Text};
ghost use Rattle.check_maps.specs.MapFaults.Faults.{AreFaults};
ghost use Rattle.check_maps.specs.Spliced.Spliced.{AreSpliced};
ghost use Rattle.check_maps.specs.MapCycles.Coming.{AreComingBack};
ghost use Rattle.check_root.specs.Least.{least_from};
ghost use Rattle.check_root.specs.SplicedFaults.Lookups as by;
ghost use Rattle.lists.specs.Least.{IsLeast};
ghost use Rattle.check_terms.specs.Table.{Table};

use crate::spliced_faults::lookups::{faults_of, is_set, told_if};
use all_offsets::{push_found, sort};
use cddl_language::map_faults_stand;
use check_maps::map_faults::MapFaults;
use check_maps::spliced::Spliced;
use lists::lesser;
use std::alloc::{AllocError, Global};

/// The least offset of an entry of a map that leads back to the group in which it stands, or that is a group which may not occur
/// so often (RFC 8610 section 3.5).
///
/// It takes a time in proportion to the entries.
pub fn map_shape(spliced: &[Spliced], faults: &[MapFaults], coming_back: &[bool]) -> Option<usize>
    ensures { (s : Specification) (root : Text) (t : Table) (refs : List Ref) → AreSpliced (rules s) root t refs spliced.now → AreFaults (definitions s) root t faults.now → AreComingBack (definitions s) root t refs spliced.now coming_back.now → IsLeast (HasMapShape (rules s) root) result }
{
    map_faults_stand();
    least_shape(spliced, faults, coming_back)
}

/// All offsets of such entries, in ascending order, each once.
///
/// It takes a time of n log n for n entries. An error comes only where memory is refused.
pub fn all_map_shape(
    alloc: Global,
    spliced: &[Spliced],
    faults: &[MapFaults],
    coming_back: &[bool],
) -> Result<Vec<usize>, AllocError>
    ensures { IfOk result (λ v. (s : Specification) (root : Text) (t : Table) (refs : List Ref) → AreSpliced (rules s) root t refs spliced.now → AreFaults (definitions s) root t faults.now → AreComingBack (definitions s) root t refs spliced.now coming_back.now → AreOffsets (HasMapShape (rules s) root) v.items) }
{
    map_faults_stand();
    all_shapes(alloc, spliced, faults, coming_back)
}

fn all_shapes(
    alloc: Global,
    spliced: &[Spliced],
    faults: &[MapFaults],
    coming_back: &[bool],
) -> Result<Vec<usize>, AllocError>
    ensures { IfOk result (λ v. AreOffsets (IsAtPlace (IsSaid (by.shape_at faults.now coming_back.now)) spliced.now) v.items) }
{
    let mut offsets = Vec::new(alloc);
    for (place, entry) in spliced.iter().enumerate() {
        let wrong = shape_at(faults, coming_back, place, *entry);
        push_found(&mut offsets, wrong)?;
    }
    sort(&mut offsets);
    Ok(offsets)
}

fn least_shape(spliced: &[Spliced], faults: &[MapFaults], coming_back: &[bool]) -> Option<usize>
    ensures { result ≡ least_from (by.shape_at faults.now coming_back.now) 0 None spliced.now }
{
    let mut least = None;
    for (place, entry) in spliced.iter().enumerate() {
        least = lesser(least, shape_at(faults, coming_back, place, *entry));
    }
    least
}

// The offset of the entry at this place, if it comes back or occurs badly.
fn shape_at(
    faults: &[MapFaults],
    coming_back: &[bool],
    place: usize,
    entry: Spliced,
) -> Option<usize>
    ensures { result ≡ by.shape_at faults.now coming_back.now place entry }
{
    let wrong = is_set(coming_back, place) || occurs_badly(faults, entry.row);
    told_if(wrong, entry.at)
}

fn occurs_badly(faults: &[MapFaults], row: u32) -> bool
    ensures { result ≡ by.occurs_badly faults.now row }
{
    match faults_of(faults, row) {
        Some(wrong) => wrong.occurs_badly,
        None => false,
    }
}
