//! Numbers for the terms of a specification, one for each, so that two terms are compared by their numbers alone.
#![tactic(auto)]

mod definition;
pub mod fill;
pub mod laws;
mod names;
mod row;
mod store;
mod terms;
pub mod texts;

pub use crate::definition::{Body, Definition, Sign};
pub use crate::names::{control_name, opened_name};
pub use crate::row::{Form, Row};
pub use crate::store::push;
pub use crate::terms::{NoRoom, Terms};
