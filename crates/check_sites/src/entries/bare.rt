//! Bodies that are one map or one array.

ghost use Rattle.std.specs.Prelude.{◌≡◌, option_map};
ghost use Rattle.cddl_token.specs.declared.Token.{Token};
ghost use Rattle.tree_nodes.specs.View.{view_group, view_type1, view_type2, view_types};
ghost use Rattle.tree_nodes.specs.declared.tree.Leaf.{Leaf};
ghost use Rattle.check_sites.specs.Entries.Entries.{bare_operand as bare_operand_in, bare_type1 as bare_type1_in, bare_types};

use tree_nodes::{Group, Type1, Type2, Types};

// The group of the map or the array that the type is, in any number of parentheses.
#[cycle(bare)]
pub(crate) fn bare_group(types: &Types) -> Option<&Group>
    ensures { (read : Leaf → Token) → option_map (λ g. view_group read g.now) result ≡ bare_types (view_types read types.now) }
{
    let Types { first, others } = types;
    if others.is_empty() {
        bare_type1(first)
    } else {
        None
    }
}

#[cycle(bare)]
fn bare_type1(type1: &Type1) -> Option<&Group>
    ensures { (read : Leaf → Token) → option_map (λ g. view_group read g.now) result ≡ bare_type1_in (view_type1 read type1.now) }
{
    match type1 {
        Type1::One(operand) => bare_operand(operand),
        Type1::Operation { .. } => None,
    }
}

#[cycle(bare)]
fn bare_operand(operand: &Type2) -> Option<&Group>
    ensures { (read : Leaf → Token) → option_map (λ g. view_group read g.now) result ≡ bare_operand_in (view_type2 read operand.now) }
{
    match operand {
        Type2::Parens { types, .. } => bare_group(types),
        Type2::MapOf { group, .. } => Some(group),
        Type2::ArrayOf { group, .. } => Some(group),
        Type2::Literal(_) => None,
        Type2::Typename(_) => None,
        Type2::Unwrapped { .. } => None,
        Type2::ChoiceOf { .. } => None,
        Type2::ChoiceOfName { .. } => None,
        Type2::Tagged { .. } => None,
        Type2::TaggedBy { .. } => None,
        Type2::SimpleBy { .. } => None,
        Type2::Hash(_) => None,
    }
}
