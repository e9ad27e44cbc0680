//! What is wrong in the maps of a specification, which of their entries stand where, and which lead back to where they stand.
#![tactic(auto)]

pub mod map_cycles;
pub mod map_faults;
pub mod spliced;
