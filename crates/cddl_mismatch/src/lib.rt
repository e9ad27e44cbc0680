//! Why an item does not match a specification, reported from the text and the item alone: for each reason a line, with the place and
//! what is there, where in the text the type stands that says no, and what is wrong.
#![tactic(auto)]

mod causes;
mod explained;
mod keys;
mod lines;
mod places;
mod reasons;
mod specification;
mod telling;

pub use crate::explained::explained_mismatch;
