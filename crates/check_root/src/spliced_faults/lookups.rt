//! What is reported for rows and places.

ghost use Rattle.std.specs.Prelude.{◌≡◌, option_copied, slice_get};
ghost use Rattle.check_root.specs.SplicedFaults.Lookups as by;

use check_maps::map_faults::MapFaults;

// What is wrong with a row.
pub(crate) fn faults_of(faults: &[MapFaults], row: u32) -> Option<&MapFaults>
    ensures { option_copied result ≡ slice_get faults.now row }
{
    faults.get(row as usize)
}

// Whether the flag of this place is set.
pub(crate) fn is_set(flags: &[bool], place: usize) -> bool
    ensures { result ≡ by.is_set flags.now place }
{
    match flags.get(place) {
        Some(flag) => *flag,
        None => false,
    }
}

// The offset, if it is one of a fault.
pub(crate) fn told_if(wrong: bool, at: usize) -> Option<usize>
    ensures { result ≡ by.told_if wrong at }
{
    if wrong { Some(at) } else { None }
}
