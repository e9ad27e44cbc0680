//! What is read of a specification's text once: its definitions by numbers, where those of each name stand, kinds, where rules
//! and their parameters begin, the words at its sites, and the checks at the live ones.
pub mod laws;
mod parameters;
mod starts;
mod survey;

pub use crate::survey::survey::{Survey, survey_of};
