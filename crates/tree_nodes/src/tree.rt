//! The nodes of a tree, a type for each rule of the grammar (RFC 8610 appendix B), and the tree with its tokens.
ghost use Rattle.std.specs.Prelude.{◌≡◌};
ghost use Rattle.tree_nodes.specs.View.{token_of};

use crate::letting_go::{let_go_of_boxed_types, let_go_of_group, let_go_of_ref};
use cddl_token::Token;

/// A leaf: the index of its token in the tree's list of tokens.
#[derive(Clone, Copy)]
pub struct Leaf {
    pub index: u32,
}

/// value: a literal.
#[derive(Clone, Copy)]
pub enum Value {
    Number(Leaf),
    Text(Leaf),
    Bytes(Leaf),
}

/// rangeop or ctlop: what is between two operands.
#[derive(Clone, Copy)]
pub enum Operator {
    /// `..`, with both ends.
    Range(Leaf),
    /// `...`, without the upper end.
    RangeBelow(Leaf),
    /// A control, as `.size`.
    Control(Leaf),
}

/// type: a choice of one type1 or more.
#[cycle(tree)]
#[derive(Drop)]
pub struct Types {
    pub first: Type1,
    /// The others, each after its `/`.
    pub others: Vec<Further>,
}

/// A further type1 and the sign before it.
#[cycle(tree)]
#[derive(Drop)]
pub struct Further {
    /// `/` in a type, `,` in a genericarg.
    pub sign: Leaf,
    pub type1: Type1,
}

/// type1: an operand, or two and what is between them.
#[cycle(tree)]
#[derive(Drop)]
pub enum Type1 {
    One(Box<Type2>),
    Operation {
        left: Box<Type2>,
        operator: Operator,
        right: Box<Type2>,
    },
}

/// type2: an operand. Letting go of one takes little of the program's stack for each bracket that is open in it.
#[cycle(tree)]
pub enum Type2 {
    Literal(Value),
    /// A typename; in an entry perhaps a groupname.
    Typename(Ref),
    /// `( type )`
    Parens {
        opening: Leaf,
        types: Box<Types>,
        closing: Leaf,
    },
    /// `{ group }`
    MapOf {
        opening: Leaf,
        group: Group,
        closing: Leaf,
    },
    /// `[ group ]`
    ArrayOf {
        opening: Leaf,
        group: Group,
        closing: Leaf,
    },
    /// `~ name`
    Unwrapped {
        tilde: Leaf,
        name: Ref,
    },
    /// `& ( group )`
    ChoiceOf {
        ampersand: Leaf,
        opening: Leaf,
        group: Group,
        closing: Leaf,
    },
    /// `& name`
    ChoiceOfName {
        ampersand: Leaf,
        name: Ref,
    },
    /// `#6.n( type )`
    Tagged {
        opening: Leaf,
        types: Box<Types>,
        closing: Leaf,
    },
    /// `#6.< type > ( type )`
    TaggedBy {
        opening: Leaf,
        head: Box<Types>,
        angle: Leaf,
        paren: Leaf,
        types: Box<Types>,
        closing: Leaf,
    },
    /// `#7.< type >`
    SimpleBy {
        opening: Leaf,
        head: Box<Types>,
        closing: Leaf,
    },
    /// `#`, `#d` or `#d.n`
    Hash(Leaf),
}

impl Drop for Type2 {
    #[cycle(letting_go)]
    #[inline(always)]
    fn drop(self) {
        match self {
            Type2::Literal(_) | Type2::Hash(_) => {}
            Type2::Typename(name)
            | Type2::Unwrapped { tilde: _, name }
            | Type2::ChoiceOfName { ampersand: _, name } => let_go_of_ref(name),
            Type2::MapOf {
                opening: _,
                group,
                closing: _,
            }
            | Type2::ArrayOf {
                opening: _,
                group,
                closing: _,
            }
            | Type2::ChoiceOf {
                ampersand: _,
                opening: _,
                group,
                closing: _,
            } => let_go_of_group(group),
            Type2::Parens {
                opening: _,
                types,
                closing: _,
            }
            | Type2::Tagged {
                opening: _,
                types,
                closing: _,
            }
            | Type2::SimpleBy {
                opening: _,
                head: types,
                closing: _,
            } => let_go_of_boxed_types(types),
            Type2::TaggedBy {
                opening: _,
                head,
                angle: _,
                paren: _,
                types,
                closing: _,
            } => {
                let_go_of_boxed_types(head);
                let_go_of_boxed_types(types);
            }
        }
    }
}

/// A typename or groupname that is used, with its genericarg if it has one.
#[cycle(tree)]
#[derive(Drop)]
pub enum Ref {
    Name(Leaf),
    Applied {
        opening: Leaf,
        arguments: Box<GenericArg>,
        closing: Leaf,
    },
}

/// genericarg, between its angles: one type1 or more.
#[cycle(tree)]
#[derive(Drop)]
pub struct GenericArg {
    pub first: Type1,
    /// The others, each after its `,`.
    pub others: Vec<Further>,
}

/// group: a choice of one grpchoice or more, of which any may be empty.
#[cycle(tree)]
#[derive(Drop)]
pub struct Group {
    pub first: Vec<Entry>,
    pub others: Vec<GrpChoice>,
}

/// A further grpchoice, after its `//`.
#[cycle(tree)]
#[derive(Drop)]
pub struct GrpChoice {
    pub slashes: Leaf,
    pub entries: Vec<Entry>,
}

/// A grpent and its optcom.
#[cycle(tree)]
#[derive(Drop)]
pub struct Entry {
    pub grpent: GrpEnt,
    pub comma: Option<Leaf>,
}

/// grpent
#[cycle(tree)]
#[derive(Drop)]
pub enum GrpEnt {
    /// A type; or a reference to a group.
    Typed {
        occur: Option<Leaf>,
        types: Types,
    },
    Keyed {
        occur: Option<Leaf>,
        key: Box<MemberKey>,
        types: Types,
    },
    /// `( group )` that is no type in parentheses.
    Grouped {
        occur: Option<Leaf>,
        opening: Leaf,
        group: Group,
        closing: Leaf,
    },
}

/// memberkey
#[cycle(tree)]
#[derive(Drop)]
pub enum MemberKey {
    /// `type1 =>` or `type1 ^ =>`
    TypeKey {
        type1: Type1,
        cut: Option<Leaf>,
        arrow: Leaf,
    },
    /// `bareword :`
    Bareword {
        name: Leaf,
        colon: Leaf,
    },
    /// `value :`
    ValueKey {
        value: Value,
        colon: Leaf,
    },
}

/// genericparm, between its angles: one name or more.
#[derive(Drop)]
pub struct GenericParm {
    pub first: Leaf,
    pub others: Vec<Parameter>,
}

/// A further parameter, after its `,`.
#[derive(Clone, Copy)]
pub struct Parameter {
    pub comma: Leaf,
    pub name: Leaf,
}

/// A typename or groupname that is defined, with its genericparm if it has one.
#[derive(Drop)]
pub enum RuleName {
    Plain(Leaf),
    Generic {
        opening: Leaf,
        parameters: GenericParm,
        closing: Leaf,
    },
}

/// assignt: what makes a type rule.
#[derive(Clone, Copy)]
pub enum AssignT {
    /// `=`
    TypeIs(Leaf),
    /// `/=`
    TypeOr(Leaf),
}

/// assigng: what makes a group rule.
#[derive(Clone, Copy)]
pub enum AssignG {
    /// `=`
    GroupIs(Leaf),
    /// `//=`
    GroupOr(Leaf),
}

/// rule
#[derive(Drop)]
pub enum Rule {
    TypeRule {
        name: RuleName,
        assign: AssignT,
        types: Types,
    },
    GroupRule {
        name: RuleName,
        assign: AssignG,
        grpent: GrpEnt,
    },
}

/// cddl: the rules of a specification, and the tokens of its source.
#[derive(Drop)]
pub struct Tree<'s> {
    pub tokens: &'s [Token<'s>],
    pub rules: Vec<Rule>,
    /// The last token, which is the end of the source.
    pub end: &'s Token<'s>,
}

impl<'s> Tree<'s> {
    /// The token of a leaf; the end, where the leaf is of no token of this tree.
    pub fn token(&self, leaf: Leaf) -> &'s Token<'s>
        ensures { result.now ≡ token_of self.now leaf }
    {
        self.tokens.get(leaf.index as usize).unwrap_or(self.end)
    }
}

/// Lets go of a tree. It goes down one level of the program's stack for each bracket that is open,
/// of which the parser has 128 at most.
pub fn discard(tree: Tree<'_>) {
    drop(tree);
}
