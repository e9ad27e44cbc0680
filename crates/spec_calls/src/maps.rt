//! The first fault of the maps that a root reaches.

use crate::chain::Meant;
use crate::coming::back_in;
use crate::roots_told::text_in;
use check_root::spliced_faults::{map_shape, no_key, too_many_alternatives};
use check_terms::Terms;
use std::alloc::Global;

// The first of an entry without a key, of a group that comes back or occurs badly, and of too many alternatives, by its least
// offset.
fn first_fault(meant: &Meant<'_>, back: &[bool]) -> Option<(&'static str, usize)> {
    if let Some(at) = no_key(&meant.groups.spliced, &meant.groups.map_faults) {
        return Some(("key", at));
    }
    if let Some(at) = map_shape(&meant.groups.spliced, &meant.groups.map_faults, back) {
        return Some(("shape", at));
    }
    match too_many_alternatives(&meant.reached.questions.asked, &meant.groups.map_faults) {
        Some(at) => Some(("alternatives", at)),
        None => None,
    }
}

pub(crate) fn of_map_faults(alloc: Global, terms: &Terms<'_>, meant: &Meant<'_>) -> Option<String> {
    match &back_in(alloc, terms, meant) {
        Some(back) => match first_fault(meant, back) {
            Some((word, at)) => format!(in alloc; "{word} {at}").ok(),
            None => text_in(alloc, "none"),
        },
        None => None,
    }
}
