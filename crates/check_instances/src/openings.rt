//! What `~` of each instance of a specification unwraps, and whether an entry's type is a type or a group, by rows of a table.
mod endings;
pub mod laws;
mod links;
mod openings;
mod parts;

pub use crate::openings::endings::endings_of;
pub use crate::openings::openings::{Opening, Part, openings_of};
pub use crate::openings::parts::part_of;
