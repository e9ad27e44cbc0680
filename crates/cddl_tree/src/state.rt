//! Where the parser is between two tokens.
use crate::frames::{Frame, Now, Parameters};
use tree_nodes::{GenericParm, Leaf, Rule, RuleName};

/// Where the parser is.
#[derive(Drop)]
pub(crate) enum State {
    Begin,
    /// The name of a parameter is awaited.
    WantParm(Vec<Rule>, Leaf, Option<Parameters>),
    HaveParm(Vec<Rule>, Leaf, GenericParm),
    /// An assignment is awaited.
    WantAssign(Vec<Rule>, RuleName),
    Body(Vec<Rule>, Vec<Frame>, Box<Now>),
    /// After the end of the source.
    Done(Vec<Rule>, Leaf),
}

/// The parser between two tokens.
#[derive(Drop)]
pub(crate) struct Progress {
    pub(crate) state: Box<State>,
    /// How many opening tokens are open.
    pub(crate) count: usize,
}
