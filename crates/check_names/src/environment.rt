//! Where the definitions of each name stand, over those of the prelude.
mod environment;
pub mod laws;
mod places;

pub use crate::environment::environment::{Name, names};
