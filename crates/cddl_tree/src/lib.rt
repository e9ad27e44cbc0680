//! The parser of CDDL (RFC 8610, appendix B).
//!
//! What it holds between two tokens stands for a state of the machine of `tree_nodes::syntax`, and its steps are that
//! machine's. Each module tells the steps of the positions where the parser may be, and calls those above it alone.
#![tactic(auto)]

mod body;
mod brackets;
mod build;
mod entry;
mod frames;
mod groups;
mod have;
mod memory;
mod open;
mod parser;
mod positions;
mod rules;
mod state;
mod want;

pub use crate::parser::{NESTING_LIMIT, parse, tokens_end};
pub use tree_nodes::{
    AssignG, AssignT, Entry, Further, GenericArg, GenericParm, Group, GrpChoice, GrpEnt, Leaf,
    MemberKey, Operator, Parameter, Ref, Rule, RuleName, Tree, Type1, Type2, Types, Value, discard,
};
