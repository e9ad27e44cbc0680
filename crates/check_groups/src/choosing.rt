//! From which groups of a specification `&` can choose, by rows of a table.
mod causes;
mod choosing;
pub mod laws;
mod occurrences;

pub(crate) use crate::choosing::causes::cause_of;
pub use crate::choosing::choosing::choosable;
pub use crate::choosing::occurrences::is_once;
