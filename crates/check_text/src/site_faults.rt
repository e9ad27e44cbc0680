//! The faults that are reported at the words of a text, whatever a root reaches.
mod arity;
mod code;
mod controls;
mod hashes;
mod kinds;
mod marks;
mod names;
mod undefined_names;
mod unwrapped;
mod words;

pub use crate::site_faults::code::SiteCode;
pub(crate) use crate::site_faults::marks::marks_of;
pub use crate::site_faults::unwrapped::wrong_tilde;
pub(crate) use crate::site_faults::unwrapped::wrong_tilde_at;
pub use crate::site_faults::words::site_fault;
pub(crate) use crate::site_faults::words::wrong_at;
