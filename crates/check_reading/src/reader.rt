//! The terms of a specification's tree, numbered in a table of `check_terms`, and the definitions that its rules are.
mod definitions;
mod leaves;
mod nodes;

pub use crate::reader::definitions::read;
pub(crate) use crate::reader::nodes::{read_entry, read_group, read_reference};
pub use crate::reader::nodes::{read_operand, read_operation, read_type_entry};
