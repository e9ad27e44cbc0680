//! Whether an item matches a type (RFC 8610 sections 2 and 3 and appendix A).
#![tactic(auto)]

mod answers;
mod behind;
mod calls;
mod choosing;
mod deeper;
mod entering;
mod judging;
mod known;
mod laws;
mod looking;
mod machine;
mod mapping;
mod means;
mod replies;
mod saying;
mod stack;
mod tallied;
mod telling;

pub use crate::answers::{End, Verdict};
pub use crate::judging::verdict;
pub use crate::laws::{
    costs_no_more, decided, no_more_than_the_weight, one_answer, one_verdict, shows_inside,
    turns_answer_alike, turns_are_few,
};
pub use crate::machine::Machine;
pub use match_held::Cells;
