//! Why an item does not match: the questions that have failed where the no of a table's root type shows.
#![tactic(auto)]

mod aims;
mod causes;
mod collecting;
mod found;
mod greedy;
mod optional;
mod run;
mod telling;
mod turns;

pub use crate::causes::{Cause, Holder, Reason, Reasons};
pub use crate::collecting::find_reasons;
pub use crate::greedy::greedy_is_certain;
