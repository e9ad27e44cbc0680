//! Where the types of a table stand in the text of its specification, by what led to them: the rule, and the offsets of the type in it.
#![tactic(auto)]

mod copies;
mod filled;
mod instances;
mod place;
mod sources;
mod spliced;
mod unfilled;
mod unwrapped;
mod written;

pub use crate::place::Place;
pub use crate::sources::{Sources, sources_at};
