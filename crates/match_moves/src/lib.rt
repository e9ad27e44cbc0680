//! What types and groups ask first of what they are asked of, what they ask next once that has its reply, and what they reply:
//! one small function for each form. Whoever asks keeps what waits.
#![tactic(auto)]

mod alike;
mod contents;
mod controls;
mod counts;
mod moves;
mod places;
mod questions;
mod sorting;

pub use crate::alike::begin_alike;
pub use crate::contents::{bytes_of, items_of, pairs_of, simple_of};
pub use crate::controls::weighed_reply;
pub use crate::counts::Counts;
pub use crate::moves::{
    after_round, entry_reply, first_of_group, first_of_type, is_over, next_move, said_reply,
};
pub use crate::places::{place_after, plus};
pub use crate::questions::{
    Entering, Fate, Move, Parts, Pending, PendingGroup, PendingMap, PendingType, Question, Reading,
    Reply, Round, Rounds, Sorting, Tally, Weighing,
};
pub use crate::sorting::{
    alternative_move, begin_tally, enter, first_are_enough, next_entry, no_tally, shown_by_first,
    shown_by_tally, tally_pair,
};
