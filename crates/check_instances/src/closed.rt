//! What the instances of a specification mean, by the rows of a table of terms: the choices and the alternatives of each.
mod closed;
mod joining;
pub mod laws;
mod looking;
mod meanings;
mod spines;
mod store;

pub use crate::closed::closed::{Closed, Meaning};
pub use crate::closed::meanings::close;
pub use crate::closed::spines::{alternatives, choices, entries};
