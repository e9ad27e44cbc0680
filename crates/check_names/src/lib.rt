//! What the names of a specification are: where the definitions of each stand, and which are groups and what `~` of a name
//! opens.
#![tactic(auto)]

pub mod environment;
pub mod kinds;
