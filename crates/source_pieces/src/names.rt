//! The name that a type is, if it is one alone, or `~` and one.

ghost use Rattle.std.specs.Prelude.{◌≡◌, option_map};
ghost use Rattle.cddl_language.specs.Sites.{ref_name};
ghost use Rattle.tree_nodes.specs.View.{token_of, view_ref, view_type1, view_type2, view_types};
ghost use Rattle.source_pieces.specs.Pieces.{bare_types, name_of_type1, name_of_type2, name_of_types};
ghost use Rattle.source_pieces.specs.Walk.{called, name_of};

use crate::bare::bare_types;
use crate::origin::text_at;
use check_terms::opened_name;
use tree_nodes::{Ref, Tree, Type1, Type2, Types};

// A name by itself, or after `~`.
#[derive(Clone, Copy)]
pub(crate) struct LoneName<'s> {
    pub(crate) text: &'s str,
    pub(crate) is_unwrapped: bool,
}

// In parentheses or not, with arguments or without.
pub(crate) fn lone_name<'s>(tree: &Tree<'s>, types: &Types) -> Option<LoneName<'s>>
    ensures { option_map name_of result ≡ name_of_types (bare_types (view_types (token_of tree.now) types.now)) }
{
    types_name(tree, bare_types(types))
}

fn types_name<'s>(tree: &Tree<'s>, types: &Types) -> Option<LoneName<'s>>
    ensures { option_map name_of result ≡ name_of_types (view_types (token_of tree.now) types.now) }
{
    let Types { first, others } = types;
    match others.last() {
        Some(_) => None,
        None => type1_name(tree, first),
    }
}

fn type1_name<'s>(tree: &Tree<'s>, type1: &Type1) -> Option<LoneName<'s>>
    ensures { option_map name_of result ≡ name_of_type1 (view_type1 (token_of tree.now) type1.now) }
{
    match type1 {
        Type1::One(operand) => type2_name(tree, operand),
        Type1::Operation { .. } => None,
    }
}

fn type2_name<'s>(tree: &Tree<'s>, operand: &Type2) -> Option<LoneName<'s>>
    ensures { option_map name_of result ≡ name_of_type2 (view_type2 (token_of tree.now) operand.now) }
{
    match operand {
        Type2::Typename(name) => Some(called(tree, name, false)),
        Type2::Unwrapped { name, .. } => Some(called(tree, name, true)),
        Type2::Literal(_) => None,
        Type2::Parens { .. } => None,
        Type2::MapOf { .. } => None,
        Type2::ArrayOf { .. } => None,
        Type2::ChoiceOf { .. } => None,
        Type2::ChoiceOfName { .. } => None,
        Type2::Tagged { .. } => None,
        Type2::TaggedBy { .. } => None,
        Type2::SimpleBy { .. } => None,
        Type2::Hash(_) => None,
    }
}

fn called<'s>(tree: &Tree<'s>, name: &Ref, is_unwrapped: bool) -> LoneName<'s>
    ensures { name_of result ≡ called is_unwrapped (ref_name (view_ref (token_of tree.now) name.now)) }
{
    LoneName {
        text: ref_name(tree, name),
        is_unwrapped,
    }
}

fn ref_name<'s>(tree: &Tree<'s>, name: &Ref) -> &'s str
    ensures { result.now ≡ ref_name (view_ref (token_of tree.now) name.now) }
{
    match name {
        Ref::Name(leaf) => text_at(tree, *leaf),
        Ref::Applied { opening, .. } => opened_name(text_at(tree, *opening)),
    }
}
