//! The prelude of each specification (RFC 8610 appendix D), by the numbers of a table of terms.
mod lines;
mod numbering;
mod prelude;

pub use crate::prelude::prelude::add_prelude;
