//! All offsets at which a code stands in a text, and not the least alone: for those who want to know of every fault.
mod codes;
mod repeats;
mod rules;
mod sites;
mod tildes;

pub use crate::everywhere::codes::{TEXT_CODES, TextCode, code_of, offsets_of};
pub use crate::everywhere::tildes::wrong_tildes;
