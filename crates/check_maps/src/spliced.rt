//! Which entries of a text are spliced into the maps that a root reaches.
mod edges;
mod listing;
mod owners;

pub use crate::spliced::listing::{Spliced, spliced_entries};
pub use crate::spliced::owners::{Owner, target_of};
