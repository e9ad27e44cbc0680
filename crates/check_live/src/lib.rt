//! Which sites of a text are live: those that a root reaches in each instance of their rule.
#![tactic(auto)]

mod facts;
mod live;
mod names;
mod search;

pub use crate::live::live_sites;
