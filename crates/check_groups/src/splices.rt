//! What each row adds to the group of a map, as parts for the crate `alternatives`.
mod bounds;
pub mod laws;
mod parts;

pub use crate::splices::parts::parts_of;
