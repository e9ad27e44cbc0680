//! The instances of a specification: the closed references that a root leads to, and what they mean, by the numbers of a table
//! of terms (RFC 8610 section 3.10).
#![tactic(auto)]

mod bodies;
pub mod closed;
mod found;
pub mod laws;
mod marks;
pub mod openings;
mod outlines;
mod patterns;
mod room;
mod search;

pub use crate::found::{Found, Instance, MOST_INSTANCES, instances};
