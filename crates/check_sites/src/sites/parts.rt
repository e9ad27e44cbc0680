//! What is asked of the parts of a site.
ghost use Rattle.std.specs.Prelude.{◌≡◌, length, option_map, slice_get};
ghost use Rattle.cddl_language.specs.Faults.{is_range_sign, occur_token};
ghost use Rattle.cddl_language.specs.Sites.{argument_list, arguments, ref_token};
ghost use Rattle.tree_nodes.specs.View.{leaf, token_of, view_arg, view_grpent, view_operator, view_ref, view_type1};
ghost use Rattle.cddl_token.specs.declared.Token.{Token};
ghost use Rattle.tree_nodes.specs.declared.tree.Leaf.{Leaf};

use cddl_token::Token;
use tree_nodes::{Further, GenericArg, GrpEnt, Leaf, Operator, Ref, Tree, Type1};

/// The token of a reference: the name, or what begins with it and opens its arguments.
pub fn name_token<'s>(tree: &Tree<'s>, name: &Ref) -> &'s Token<'s>
    ensures { result.now ≡ ref_token (view_ref (token_of tree.now) name.now) }
{
    match name {
        Ref::Name(token) => tree.token(*token),
        Ref::Applied { opening, .. } => tree.token(*opening),
    }
}

/// How many arguments a reference has; 0 without angles.
pub fn argument_count(name: &Ref) -> usize
    ensures { (read : Leaf → Token) → result ≡ length (arguments (view_ref read name.now)) }
{
    match name {
        Ref::Name(_) => 0,
        Ref::Applied { arguments, .. } => arguments.others.len() + 1,
    }
}

/// The argument of a reference at this place, from 0, if it has that many.
pub fn argument<'t>(name: &'t Ref, place: usize) -> Option<&'t Type1>
    ensures { (read : Leaf → Token) → option_map (λ x. view_type1 read x.now) result ≡ slice_get (arguments (view_ref read name.now)) place }
{
    match name {
        Ref::Name(_) => None,
        Ref::Applied { arguments, .. } => argument_at(arguments, place),
    }
}

fn argument_at<'t>(arguments: &'t GenericArg, place: usize) -> Option<&'t Type1>
    ensures { (read : Leaf → Token) → option_map (λ x. view_type1 read x.now) result ≡ slice_get (argument_list (view_arg read arguments.now)) place }
{
    if place == 0 {
        return Some(&arguments.first);
    }
    match further_at(&arguments.others, place - 1) {
        Some(further) => Some(&further.type1),
        None => None,
    }
}

fn further_at(others: &[Further], place: usize) -> Option<&Further>
    ensures { option_map (λ x. x.now) result ≡ slice_get others.now place }
{
    others.get(place)
}

/// The occurrence of an entry, if it has one.
pub fn occur(entry: &GrpEnt) -> Option<Leaf>
    ensures { (read : Leaf → Token) → leaf read result ≡ occur_token (view_grpent read entry.now) }
{
    match entry {
        GrpEnt::Typed { occur, .. } => *occur,
        GrpEnt::Keyed { occur, .. } => *occur,
        GrpEnt::Grouped { occur, .. } => *occur,
    }
}

/// Whether an operation is a range, and not a control.
pub fn is_range(operator: Operator) -> bool
    ensures { (read : Leaf → Token) → result ≡ is_range_sign (view_operator read operator) }
{
    match operator {
        Operator::Range(_) | Operator::RangeBelow(_) => true,
        Operator::Control(_) => false,
    }
}
