//! Whether what a specification asks of an item comes back to itself before the item is taken: ranks that go down, or the
//! references that come back.
#![tactic(auto)]

mod edges;
mod flags;
mod graph;
mod node;
mod parts;
mod steps;

pub use crate::graph::{Order, Ranks, find_order};
pub use crate::node::Node;
