//! What a test says of an item by itself, and which entries of a map a pair passes over.
#![tactic(auto)]

mod bits;
mod keys;
mod subject;
mod tested;

pub use crate::bits::left_after_bits;
pub use crate::keys::{is_passed_at_once, is_passed_over};
pub use crate::subject::Subject;
pub use crate::tested::{passes, passes_test};
