//! What comes before the position where the parser is. The frames say what each open bracket is in.
use cddl_token::Kind;
use tree_nodes::{
    AssignG, Entry, GenericArg, GenericParm, Group, GrpEnt, Leaf, MemberKey, Operator, Rule,
    RuleName, Type1, Type2, Types,
};

/// The token that the parser is at.
#[derive(Clone, Copy)]
pub(crate) struct Current {
    pub(crate) kind: Kind,
    /// The offset of its first byte.
    pub(crate) start: usize,
    pub(crate) leaf: Leaf,
}

/// The alternatives of a group before the one that is open.
#[derive(Drop)]
pub(crate) struct Alternatives {
    pub(crate) group: Group,
    pub(crate) slashes: Leaf,
}

/// The arguments before the one that is open.
#[derive(Drop)]
pub(crate) struct Arguments {
    pub(crate) arguments: Box<GenericArg>,
    pub(crate) comma: Leaf,
}

/// The parameters before the one that is open.
#[derive(Drop)]
pub(crate) struct Parameters {
    pub(crate) parameters: GenericParm,
    pub(crate) comma: Leaf,
}

/// What comes directly before a reference.
#[derive(Clone, Copy)]
pub(crate) enum Prefix {
    Bare,
    Tilde(Leaf),
    Ampersand(Leaf),
}

/// What opened a type in brackets.
#[derive(Drop)]
pub(crate) enum TypeOpening {
    Paren(Leaf),
    Tag(Leaf),
    TagHead(Leaf),
    TagContent(Leaf, Box<Types>, Leaf, Leaf),
    SimpleHead(Leaf),
}

/// What opened a group in brackets.
#[derive(Clone, Copy)]
pub(crate) enum GroupOpening {
    Brace(Leaf),
    Bracket(Leaf),
    Choice(Leaf, Leaf),
}

/// What comes before a type.
#[derive(Drop)]
pub(crate) enum Home {
    /// The last frame: an opening, or the assignment of a rule.
    Inside,
    /// An entry's occurrence. A key may come.
    Start(Option<Leaf>),
    /// An entry's occurrence and key.
    ValueOf(Option<Leaf>, Box<MemberKey>),
}

/// What comes before a type1 in its type.
#[derive(Drop)]
pub(crate) enum Before {
    Nothing,
    /// The choices before it, and a `/`.
    Choices(Box<Types>, Leaf),
    /// It is an argument: those before it, if there are any.
    Arguments(Option<Arguments>),
}

/// What comes before a type2 in its type1.
#[derive(Drop)]
pub(crate) struct Left {
    pub(crate) type2: Box<Type2>,
    pub(crate) operator: Operator,
}

/// What comes before a type1.
#[derive(Drop)]
pub(crate) struct AtType1 {
    pub(crate) home: Home,
    pub(crate) before: Before,
}

/// What comes before a type2.
#[derive(Drop)]
pub(crate) struct AtType2 {
    pub(crate) at: Box<AtType1>,
    pub(crate) left: Option<Box<Left>>,
}

/// What is between the frames below and a position above.
#[derive(Drop)]
pub(crate) enum Frame {
    /// The head of a rule, up to `/=`.
    TypeBody(RuleName, Leaf),
    /// The head of a rule, up to `=` or `//=`.
    GroupBody(RuleName, AssignG),
    /// A type in brackets.
    Types(AtType2, TypeOpening),
    /// A group in brackets.
    Group(AtType2, GroupOpening),
    /// A name with arguments.
    Reference(AtType2, Prefix, Leaf),
    /// Parentheses at the head of an entry, after its occurrence.
    Entry(Option<Leaf>, Leaf),
    /// The open alternative of a group.
    Member(Option<Alternatives>, Vec<Entry>),
}

/// Where the parser is within a rule's body.
#[derive(Drop)]
pub(crate) enum Now {
    /// A type2 is awaited.
    Want(AtType2),
    /// A reference is awaited.
    WantRef(AtType2, Prefix),
    /// The `(` after `#6.<` and its `>` is awaited.
    WantContent(AtType2, Leaf, Box<Types>, Leaf),
    Have(Box<AtType1>, Box<Type1>),
    /// The `=>` after `^` is awaited.
    WantArrow(Option<Leaf>, Box<Type1>, Leaf),
    HaveGroup(Box<GrpEnt>),
}

/// Where a token leads within a rule's body.
#[derive(Drop)]
pub(crate) enum Next {
    Within(Box<Now>),
    /// The rule is whole, and the token comes after it.
    Ended(Box<Rule>),
}

/// What is in parentheses.
#[derive(Drop)]
pub(crate) enum Content {
    Type(Types),
    Group(Group),
}

/// Why the parser stops at a token.
#[derive(Clone, Copy)]
pub(crate) enum Stop {
    /// It can't follow the tokens before it. It begins at this offset.
    Unexpected(usize),
    /// Memory ran out.
    Memory,
}
