//! Where a node's first token begins.
ghost use Rattle.std.specs.Prelude.{◌≡◌, [], ◌∷◌};
ghost use Rattle.tree_nodes.specs.Syntax.Syntax as S;
ghost use Rattle.tree_nodes.specs.View.{view_value, view_operator, view_types, view_type1, view_type2, view_ref, view_arg, view_grpent, view_key, view_parm, view_name, view_assignt, view_assigng, view_rule, token_of, StartsAt};

use crate::tree::{
    AssignG, AssignT, GenericArg, GenericParm, GrpEnt, Leaf, MemberKey, Operator, Ref, Rule,
    RuleName, Tree, Type1, Type2, Types, Value,
};

impl Tree<'_> {
    // The offset of a leaf's token.
    fn start_of(&self, leaf: Leaf) -> usize
        ensures { result ≡ (token_of self.now leaf).start }
    {
        self.token(leaf).start
    }
}

impl Value {
    /// The offset of its token.
    pub fn start(&self, tree: &Tree<'_>) -> usize
        ensures { StartsAt (S.flat_value (view_value (token_of tree.now) self.now) ∷ []) result }
    {
        match self {
            Value::Number(token) => tree.start_of(*token),
            Value::Text(token) => tree.start_of(*token),
            Value::Bytes(token) => tree.start_of(*token),
        }
    }
}

impl Operator {
    /// The offset of its token.
    pub fn start(&self, tree: &Tree<'_>) -> usize
        ensures { StartsAt (S.flat_operator (view_operator (token_of tree.now) self.now) ∷ []) result }
    {
        match self {
            Operator::Range(token) => tree.start_of(*token),
            Operator::RangeBelow(token) => tree.start_of(*token),
            Operator::Control(token) => tree.start_of(*token),
        }
    }
}

impl Types {
    /// The offset of its first token.
    #[tactic(auto, using(crate::proofs::Starting::types_start))]
    pub fn start(&self, tree: &Tree<'_>) -> usize
        ensures { StartsAt (S.flat_types (view_types (token_of tree.now) self.now)) result }
    {
        let Types { first, .. } = self;
        first.start(tree)
    }
}

impl Type1 {
    /// The offset of its first token.
    pub fn start(&self, tree: &Tree<'_>) -> usize
        ensures { StartsAt (S.flat_type1 (view_type1 (token_of tree.now) self.now)) result }
    {
        match self {
            Type1::One(operand) => operand.start(tree),
            Type1::Operation { left, .. } => left.start(tree),
        }
    }
}

impl Type2 {
    /// The offset of its first token.
    pub fn start(&self, tree: &Tree<'_>) -> usize
        ensures { StartsAt (S.flat_type2 (view_type2 (token_of tree.now) self.now)) result }
    {
        match self {
            Type2::Literal(value) => value.start(tree),
            Type2::Typename(name) => name.start(tree),
            Type2::Parens { opening, .. } => tree.start_of(*opening),
            Type2::MapOf { opening, .. } => tree.start_of(*opening),
            Type2::ArrayOf { opening, .. } => tree.start_of(*opening),
            Type2::Unwrapped { tilde, .. } => tree.start_of(*tilde),
            Type2::ChoiceOf { ampersand, .. } => tree.start_of(*ampersand),
            Type2::ChoiceOfName { ampersand, .. } => tree.start_of(*ampersand),
            Type2::Tagged { opening, .. } => tree.start_of(*opening),
            Type2::TaggedBy { opening, .. } => tree.start_of(*opening),
            Type2::SimpleBy { opening, .. } => tree.start_of(*opening),
            Type2::Hash(token) => tree.start_of(*token),
        }
    }
}

impl Ref {
    /// The offset of its first token.
    pub fn start(&self, tree: &Tree<'_>) -> usize
        ensures { StartsAt (S.flat_ref (view_ref (token_of tree.now) self.now)) result }
    {
        match self {
            Ref::Name(token) => tree.start_of(*token),
            Ref::Applied { opening, .. } => tree.start_of(*opening),
        }
    }
}

impl GenericArg {
    /// The offset of its first token.
    #[tactic(auto, using(crate::proofs::Starting::arg_start))]
    pub fn start(&self, tree: &Tree<'_>) -> usize
        ensures { StartsAt (S.flat_arg (view_arg (token_of tree.now) self.now)) result }
    {
        let GenericArg { first, .. } = self;
        first.start(tree)
    }
}

impl GrpEnt {
    /// The offset of its first token: that of the occur, where it has one.
    pub fn start(&self, tree: &Tree<'_>) -> usize
        ensures { StartsAt (S.flat_entry (view_grpent (token_of tree.now) self.now)) result }
    {
        match self {
            GrpEnt::Typed { occur, types } => match occur {
                Some(token) => tree.start_of(*token),
                None => types.start(tree),
            },
            GrpEnt::Keyed { occur, key, .. } => match occur {
                Some(token) => tree.start_of(*token),
                None => key.start(tree),
            },
            GrpEnt::Grouped { occur, opening, .. } => match occur {
                Some(token) => tree.start_of(*token),
                None => tree.start_of(*opening),
            },
        }
    }
}

impl MemberKey {
    /// The offset of its first token.
    pub fn start(&self, tree: &Tree<'_>) -> usize
        ensures { StartsAt (S.flat_key (view_key (token_of tree.now) self.now)) result }
    {
        match self {
            MemberKey::TypeKey { type1, .. } => type1.start(tree),
            MemberKey::Bareword { name, .. } => tree.start_of(*name),
            MemberKey::ValueKey { value, .. } => value.start(tree),
        }
    }
}

impl GenericParm {
    /// The offset of its first token.
    pub fn start(&self, tree: &Tree<'_>) -> usize
        ensures { StartsAt (S.flat_parm (view_parm (token_of tree.now) self.now)) result }
    {
        let GenericParm { first, .. } = self;
        tree.start_of(*first)
    }
}

impl RuleName {
    /// The offset of its first token.
    pub fn start(&self, tree: &Tree<'_>) -> usize
        ensures { StartsAt (S.flat_name (view_name (token_of tree.now) self.now)) result }
    {
        match self {
            RuleName::Plain(token) => tree.start_of(*token),
            RuleName::Generic { opening, .. } => tree.start_of(*opening),
        }
    }
}

impl AssignT {
    /// The offset of its token.
    pub fn start(&self, tree: &Tree<'_>) -> usize
        ensures { StartsAt (S.flat_assignt (view_assignt (token_of tree.now) self.now) ∷ []) result }
    {
        match self {
            AssignT::TypeIs(token) => tree.start_of(*token),
            AssignT::TypeOr(token) => tree.start_of(*token),
        }
    }
}

impl AssignG {
    /// The offset of its token.
    pub fn start(&self, tree: &Tree<'_>) -> usize
        ensures { StartsAt (S.flat_assigng (view_assigng (token_of tree.now) self.now) ∷ []) result }
    {
        match self {
            AssignG::GroupIs(token) => tree.start_of(*token),
            AssignG::GroupOr(token) => tree.start_of(*token),
        }
    }
}

impl Rule {
    /// The offset of its first token: that of its name.
    pub fn start(&self, tree: &Tree<'_>) -> usize
        ensures { StartsAt (S.flat_rule (view_rule (token_of tree.now) self.now)) result }
    {
        match self {
            Rule::TypeRule { name, .. } => name.start(tree),
            Rule::GroupRule { name, .. } => name.start(tree),
        }
    }
}
