//! A site: a place in the text where something can be wrong, with the nodes of the tree that stand there.
use tree_nodes::{Group, GrpEnt, Leaf, Operator, Ref, Type2};

/// A place in the text where something can be wrong, with the nodes of the tree that say what stands there.
///
/// A type is demanded anywhere but as an entry without key, or a body after `=`, that is one name or `~` and one name, in
/// any number of parentheses: there it may be a group's name (RFC 8610, section 2.1).
#[derive(Clone, Copy)]
pub enum Site<'t> {
    /// A name that is used.
    Name {
        demanded: bool,
        name: &'t Ref,
    },
    /// `~ name`
    Unwrapping {
        demanded: bool,
        tilde: Leaf,
        name: &'t Ref,
    },
    /// `& ( group )`
    ChoiceOf {
        ampersand: Leaf,
        group: &'t Group,
    },
    /// `& name`
    ChoiceOfName {
        ampersand: Leaf,
        name: &'t Ref,
    },
    /// `#`, `#d` or `#d.n`
    Hash(Leaf),
    /// A range or a control.
    Operation {
        left: &'t Type2,
        operator: Operator,
        right: &'t Type2,
    },
    /// An entry of a group, or of a rule's body.
    Entry(&'t GrpEnt),
    /// `{ group }`
    Map {
        opening: Leaf,
        group: &'t Group,
    },
}

/// A site and where it was found.
#[derive(Clone, Copy)]
pub struct Found<'t> {
    /// The place of its rule in the list of rules, from 0.
    pub rule: usize,
    /// Whether it is inside of an argument of a name.
    pub in_argument: bool,
    pub site: Site<'t>,
}
