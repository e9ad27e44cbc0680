//! How texts of a user's are shown on standard error: words, and a part of a text by its line with marks under it. What is
//! here knows nothing of CDDL.
#![tactic(auto)]

mod lines;
mod places;
mod words;

pub use crate::places::{pointed_at, shown_part};
pub use crate::words::push_shown;
