//! The entries of a specification's text, by the group in which they stand.
mod bare;
mod entry;
pub mod laws;
mod listing;
mod push;
mod walk;

pub use crate::entries::entry::{Holder, Node, TextEntry};
pub use crate::entries::listing::entries;
