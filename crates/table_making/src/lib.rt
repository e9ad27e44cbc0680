//! The types and groups of a table, made of the closed terms of a specification.
#![tactic(auto)]

mod asked;
mod chosen;
mod comparisons;
mod form;
mod groups;
mod instances;
mod laws;
mod literals;
mod making;
mod maps;
mod memberships;
mod numbers;
mod origin;
mod row_origins;
mod search;
mod shape;
mod source;
mod texts;
mod types;
mod weights;

pub use crate::making::{Nodes, nodes_of};
pub use crate::origin::{GroupOrigin, TypeOrigin};
pub use crate::source::Source;
