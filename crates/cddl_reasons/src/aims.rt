//! Where reasons are looked for.

use crate::found::Deeper;
use crate::run::{Open, Wanted};
use match_moves::{Pending, PendingMap, PendingType};
use std::alloc::Global;

/// How many reasons are reported at most, and what is known of questions whose own reasons are deeper.
#[derive(Clone, Copy)]
pub(crate) struct Aim<'k> {
    pub(crate) alloc: Global,
    pub(crate) most: usize,
    pub(crate) known: &'k [Deeper],
}

// Whether what is looked for shows at this place.
pub(crate) fn is_at(wanted: Wanted, place: usize) -> bool {
    match wanted {
        Wanted::At(at) => at == place,
        _ => false,
    }
}

// What is looked for in a question of this number whose no shows elsewhere: its own reasons, once it is known where they are.
fn wanted_deeper(known: &[Deeper], number: u64) -> Wanted {
    for deeper in known {
        if deeper.number == number {
            return Wanted::At(deeper.far);
        }
    }
    Wanted::Itself
}

// What is looked for in the next question, of this number, which the last one asks. That an entry is for other keys is no
// reason. A value whose key belongs to no entry, and what a byte string holds, have reasons of their own.
pub(crate) fn wanted_in(last: &Open<'_, '_>, number: u64, known: &[Deeper]) -> Wanted {
    let Wanted::At(place) = last.wanted else {
        return Wanted::Nothing;
    };
    match &last.pending {
        Pending::Map(PendingMap::Key { .. }) => Wanted::Nothing,
        Pending::Map(PendingMap::Value { sorting, .. }) if sorting.place == place => {
            wanted_deeper(known, number)
        }
        Pending::Type(PendingType::Held { place: string, .. }) => {
            if *string == place {
                wanted_deeper(known, number)
            } else {
                Wanted::Nothing
            }
        }
        _ => Wanted::At(place),
    }
}
