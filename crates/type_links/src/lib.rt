//! What leads from a type of a table to what stands in it.
#![tactic(auto)]

mod link;

pub use crate::link::Link;
