//! What is wrong with the maps that a root reaches.
mod crowded;
mod keys;
mod lookups;
mod shapes;

pub use crate::spliced_faults::crowded::{all_too_many_alternatives, too_many_alternatives};
pub use crate::spliced_faults::keys::{all_no_key, no_key};
pub use crate::spliced_faults::shapes::{all_map_shape, map_shape};
