//! Groups, by the rows at which they stand: from which `&` can choose, which may be empty, and which alternatives the group of
//! a map has.
#![tactic(auto)]

mod causes;
pub mod choosing;
pub mod empty;
pub mod rows;
pub mod splices;
