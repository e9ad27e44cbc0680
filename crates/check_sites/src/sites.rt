//! The sites of a specification's text where something can be wrong, found by one walk over its tree.
pub mod laws;
mod parts;
mod push;
mod site;
mod walk;

pub use crate::sites::parts::{argument, argument_count, is_range, name_token, occur};
pub use crate::sites::site::{Found, Site};
pub use crate::sites::walk::{argument_sites, sites};
