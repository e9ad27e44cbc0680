//! What is wrong with a specification's text, and where: of the lowest code that stands anywhere, the least offset.
#![tactic(auto)]

pub mod everywhere;
mod fault;
pub mod laws;
pub mod rule_faults;
pub mod site_faults;
mod text;

pub use crate::fault::Fault;
pub use crate::text::text_fault;
