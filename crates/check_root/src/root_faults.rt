//! What is wrong with the instances that a root leads to: that there are too many, or that one comes back to itself.
mod instances;
mod returning;

pub use crate::root_faults::instances::too_many;
pub use crate::root_faults::returning::{all_recursion, recursion};
