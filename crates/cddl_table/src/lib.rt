//! The table of a specification: its types and groups, with ranks.
#![tactic(auto)]

mod compiling;
mod order;
mod ranks;
mod root;
mod specification;
mod table;

pub use crate::compiling::{compile, compile_with_origins};
pub use crate::specification::read_specification;
pub use crate::table::Traced;
pub use table_making::TypeOrigin;
pub use table_nodes::{
    // A table comes with its calls: `root`, `ranks`, `node` and `group`.
    Content, Group, GroupId, MapEntry, Most, Node, NotRanked, Ranks, NumberRange, NumberSet, Table,
    TagNumber, Test, TypeId, Whole,
};
