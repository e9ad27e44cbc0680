//! What byte strings hold, read and kept for those who ask about it, and how much may be read, kept and done for one item.
#![tactic(auto)]

mod allowance;
mod held;
mod reading;
mod shelf;

pub use crate::allowance::{Allowance, is_small, places_of, work_of_keys};
pub use crate::held::held_on;
pub use crate::reading::held_in;
pub use crate::shelf::{Cells, Shelf};
