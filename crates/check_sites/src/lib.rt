//! The sites of a specification's tree, where something is asked of what stands there, and the entries of its groups, each in
//! the order of the text.
#![tactic(auto)]

pub mod entries;
pub mod sites;
