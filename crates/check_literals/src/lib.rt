//! Which literals the types of a specification are, written or computed, by rows of a table.
#![tactic(auto)]

mod edges;
mod found;
mod known;
mod needs;
mod progress;
mod rows;
pub mod sizes;
pub mod values;

pub use crate::known::{Literals, Outcome};
pub use crate::rows::literals;
