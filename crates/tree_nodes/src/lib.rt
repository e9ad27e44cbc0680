//! The trees of CDDL specifications (RFC 8610, appendix B): a type for each rule of the grammar, its leaves the tokens.
//!
//! Contracts see a tree as a tree of `syntax`, which says what tokens it prints.
#![tactic(auto)]

mod letting_go;
mod start;
pub mod syntax;
mod tree;

pub use crate::tree::{
    AssignG, AssignT, Entry, Further, GenericArg, GenericParm, Group, GrpChoice, GrpEnt, Leaf,
    MemberKey, Operator, Parameter, Ref, Rule, RuleName, Tree, Type1, Type2, Types, Value, discard,
};
