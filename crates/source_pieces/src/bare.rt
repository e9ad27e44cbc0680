//! A type without the parentheses round all of it.

ghost use Rattle.std.specs.Prelude.{◌≡◌, option_map};
ghost use Rattle.cddl_token.specs.declared.Token.{Token};
ghost use Rattle.tree_nodes.specs.Syntax.Syntax as S;
ghost use Rattle.tree_nodes.specs.View.{view_type1, view_type2, view_types};
ghost use Rattle.tree_nodes.specs.declared.tree.Leaf.{Leaf};
ghost use Rattle.source_pieces.specs.Pieces.{bare_type1, bare_type2, bare_types, inner_or};

use tree_nodes::{Type1, Type2, Types};

#[cycle(bare)]
pub(crate) fn bare_types(types: &Types) -> &Types
    ensures { (read : Leaf → Token) → view_types read result.now ≡ bare_types (view_types read types.now) }
{
    let Types { first, others } = types;
    match others.last() {
        Some(_) => types,
        None => match type1_inside(first) {
            Some(inner) => inner,
            None => types,
        },
    }
}

// What is in the parentheses, if it is in some.
#[cycle(bare)]
pub(crate) fn type1_inside(type1: &Type1) -> Option<&Types>
    ensures { (read : Leaf → Token) → inner_or (S.only (view_type1 read type1.now)) (option_map (λ t. view_types read t.now) result) ≡ bare_type1 (view_type1 read type1.now) }
{
    match type1 {
        Type1::One(operand) => type2_inside(operand),
        Type1::Operation { .. } => None,
    }
}

#[cycle(bare)]
pub(crate) fn type2_inside(operand: &Type2) -> Option<&Types>
    ensures { (read : Leaf → Token) → inner_or (S.only (S.one (view_type2 read operand.now))) (option_map (λ t. view_types read t.now) result) ≡ bare_type2 (view_type2 read operand.now) }
{
    match operand {
        Type2::Parens { types, .. } => Some(bare_types(types)),
        Type2::Literal(_) => None,
        Type2::Typename(_) => None,
        Type2::MapOf { .. } => None,
        Type2::ArrayOf { .. } => None,
        Type2::Unwrapped { .. } => None,
        Type2::ChoiceOf { .. } => None,
        Type2::ChoiceOfName { .. } => None,
        Type2::Tagged { .. } => None,
        Type2::TaggedBy { .. } => None,
        Type2::SimpleBy { .. } => None,
        Type2::Hash(_) => None,
    }
}
