//! Which spliced entries come back to the reference in whose group they stand.

use crate::chain::Meant;
use crate::roots_told::word_of_entry;
use check_maps::map_cycles::coming_back;
use check_maps::spliced::Spliced;
use check_terms::Terms;
use std::alloc::Global;

// Which entries come back.
pub(crate) fn back_in(alloc: Global, terms: &Terms<'_>, meant: &Meant<'_>) -> Option<Vec<bool>> {
    coming_back(
        alloc,
        terms,
        &meant.opened.closed,
        &meant.opened.kinds,
        &meant.opened.openings,
        &meant.opened.endings,
        &meant.groups.spliced,
    )
    .ok()
}

fn of_flagged(alloc: Global, spliced: &[Spliced], flags: &[bool]) -> Option<String> {
    let mut words = String::new(alloc);
    for (place, entry) in spliced.iter().enumerate() {
        if *flags.get(place)? {
            let word = word_of_entry(alloc, entry)?;
            words.push_str(word.as_str()).ok()?;
        }
    }
    Some(words)
}

// The entries that come back, by their owners and offsets.
pub(crate) fn of_coming_back(
    alloc: Global,
    terms: &Terms<'_>,
    meant: &Meant<'_>,
) -> Option<String> {
    match &back_in(alloc, terms, meant) {
        Some(flags) => of_flagged(alloc, &meant.groups.spliced, flags),
        None => None,
    }
}
