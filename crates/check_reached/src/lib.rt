//! The words at the sites that a root reaches, and the checks left at each reached site, one per instance.
#![tactic(auto)]

mod asked;
mod calls;
mod entries;
pub mod laws;
mod reached;
mod runs;

pub use crate::asked::{Asked, questions};
pub use crate::entries::entry_questions;
pub use crate::reached::reached_words;
pub use check_reading::parts::Question;
