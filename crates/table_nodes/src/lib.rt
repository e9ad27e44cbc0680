//! A table of types and groups, each known by its number: what a matcher runs, and a language by its contracts.
#![tactic(auto)]

mod choices;
mod codes;
mod entries;
pub mod flags;
mod fronts;
mod indexes;
mod keys;
mod majors;
mod nodes;
mod ranks;
mod sizes;
mod table;

pub use crate::indexes::{Candidates, LiteralIndex};
pub use crate::majors::{Told, major_of};
pub use crate::nodes::{
    Content, Group, GroupId, MapEntry, Most, Node, TagNumber, Test, TypeId, Whole,
};
pub use crate::ranks::{NotRanked, Ranks};
pub use crate::sizes::{NumberRange, NumberSet};
pub use crate::table::Table;
