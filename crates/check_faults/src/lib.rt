//! All that is wrong with a specification's text, and not its first fault alone: for those who want to mend it at once.
#![tactic(auto)]

pub mod laws;
mod listing;
mod text;

pub use crate::listing::Listed;
pub use crate::text::{all_faults, text_faults, tree_faults};
