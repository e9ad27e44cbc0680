//! An entry of the text: its node in the tree, its rule, and what has the group in which it stands.

use tree_nodes::{GrpEnt, Types};

/// What has the group in which an entry stands.
#[derive(Clone, Copy)]
pub enum Holder {
    /// A map.
    Map,
    /// A rule: the entries of its body, out of parentheses round all of it.
    Rule,
    /// A rule whose body is a map or an array, in any number of parentheses: what `~` and its name open.
    Opened,
}

/// What an entry is in the text.
#[derive(Clone, Copy)]
pub enum Node<'t> {
    Entry(&'t GrpEnt),
    /// The type of a rule, which is the only entry of its body.
    Type(&'t Types),
}

/// An entry of the text.
#[derive(Clone, Copy)]
pub struct TextEntry<'t> {
    /// The place of its rule in the list of rules, from 0.
    pub rule: usize,
    pub holder: Holder,
    pub node: Node<'t>,
}
