//! Which groups of a specification may be empty, by rows of a table.
mod causes;
mod empty;
mod occurrences;

pub(crate) use crate::empty::causes::cause_of;
pub use crate::empty::empty::may_be_empty;
