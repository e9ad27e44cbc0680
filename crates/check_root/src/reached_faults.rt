//! What is wrong at the sites that a root reaches.
mod choices;
mod unwrapping;

pub use crate::reached_faults::choices::{all_nothing_chosen, nothing_chosen};
pub use crate::reached_faults::unwrapping::{
    all_not_unwrappable, all_not_unwrapped, not_unwrappable, not_unwrapped,
};
