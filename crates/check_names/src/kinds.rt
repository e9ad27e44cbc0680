//! Which names are groups, and what `~` of a name unwraps.
mod heads;
mod kinds;
mod links;

pub use crate::kinds::kinds::{Kinds, Shape, kinds_of};
