//! What stands in the text of a rule: a type, a word that is a key, or an entry or a member of a group, with the node of the tree that
//! it is.

ghost use Rattle.std.specs.Prelude.{◌≡◌};
ghost use Rattle.cddl_token.specs.declared.Token.{Token};
ghost use Rattle.tree_nodes.specs.View.{view_grpent, view_key};
ghost use Rattle.tree_nodes.specs.declared.tree.Leaf.{Leaf as ALeaf};
ghost use Rattle.source_pieces.specs.Pieces.{inner_of, key_piece};
ghost use Rattle.source_pieces.specs.Walk.{view_inner, view_node};

use tree_nodes::{Group, GrpEnt, Leaf, MemberKey, Type1, Type2, Types, Value};

// What is round a group.
#[derive(Clone, Copy)]
pub(crate) enum AroundNode {
    /// The opening and the closing bracket.
    Brackets(Leaf, Leaf),
    /// A rule of which it is the body.
    Rule,
}

// What an entry has after its occurrence and its key.
#[derive(Clone, Copy)]
pub(crate) enum InnerNode<'t> {
    Types(&'t Types),
    /// A group in these parentheses.
    Group(Leaf, &'t Group, Leaf),
}

// An entry of a group.
#[derive(Clone, Copy)]
pub(crate) struct EntryNode<'t> {
    pub(crate) around: AroundNode,
    // So many alternatives come after its own.
    pub(crate) alternative: usize,
    // So many entries come after it in its alternative.
    pub(crate) place: usize,
    pub(crate) inner: InnerNode<'t>,
}

// A node of the tree that is a type, a word that is a key, or an entry.
#[derive(Clone, Copy)]
pub(crate) enum Node<'t> {
    /// All of a choice, also of one member.
    Choice(&'t Types),
    /// A range or a control with its operands.
    Operation(&'t Type1),
    Operand(&'t Type2),
    /// A literal that is a key.
    Literal(Value),
    /// A bareword that is a key.
    Word(Leaf),
    /// What an entry has as its key, with what is round the map's group.
    Key(AroundNode, &'t MemberKey),
    /// The type of the value in an entry that has this key, with what is round the map's group.
    Value(AroundNode, &'t MemberKey, &'t Types),
    /// An entry without a key, with what is round its group.
    Member(AroundNode, &'t Types),
    /// An entry of an array, of a group in parentheses, or of a rule as a group.
    Entry(EntryNode<'t>),
}

// A node, and the place of its rule in the list of rules, from 0.
#[derive(Clone, Copy)]
pub(crate) struct Found<'t> {
    pub(crate) rule: usize,
    pub(crate) node: Node<'t>,
}

// The key of an entry.
pub(crate) fn key_node(key: &MemberKey) -> Node<'_>
    ensures { (read : ALeaf → Token) → view_node read result ≡ key_piece (view_key read key.now) }
{
    match key {
        MemberKey::TypeKey { type1, .. } => Node::Operation(type1),
        MemberKey::Bareword { name, .. } => Node::Word(*name),
        MemberKey::ValueKey { value, .. } => Node::Literal(*value),
    }
}

// What is in an entry.
pub(crate) fn inner_node(entry: &GrpEnt) -> InnerNode<'_>
    ensures { (read : ALeaf → Token) → view_inner read result ≡ inner_of (view_grpent read entry.now) }
{
    match entry {
        GrpEnt::Typed { types, .. } => InnerNode::Types(types),
        GrpEnt::Keyed { types, .. } => InnerNode::Types(types),
        GrpEnt::Grouped {
            opening,
            group,
            closing,
            ..
        } => InnerNode::Group(*opening, group, *closing),
    }
}
