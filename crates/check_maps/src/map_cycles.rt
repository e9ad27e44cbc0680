//! Which entries that are spliced into maps lead back to the reference in whose group they stand.
mod coming;
mod edges;
mod layout;
mod marks;
mod targets;

pub use crate::map_cycles::coming::coming_back;
