//! What a token does where a type2 or a reference is awaited.
ghost use Rattle.std.specs.Prelude.{MatchOption};
ghost use Rattle.cddl_token.specs.declared.Token.{Token};
ghost use Rattle.tree_nodes.specs.declared.tree.Leaf.{Leaf};
ghost use Rattle.tree_nodes.specs.Syntax.Machine as M;
ghost use Rattle.tree_nodes.specs.Syntax.Syntax as S;
ghost use Rattle.cddl_tree.specs.Frames.{on, view_prefix, view_at_type2, below, Gives};
ghost use Rattle.cddl_tree.specs.Kinds.{IsNoOperand, IsNoHead, IsOperandOf};

use crate::build::{type2_of, unexpected};
use crate::frames::{AtType2, Current, Frame, GroupOpening, Next, Prefix, Stop, TypeOpening};
use crate::groups::ends_want;
use crate::open::{occur_want, open_group, open_inside, open_paren, open_reference};
use crate::positions::{have_type2, want_ref};
use cddl_token::Kind;
use std::alloc::Global;
use tree_nodes::{Ref, Type2, Value};

// A token where a type2 is awaited.
#[tactic(none)]
pub(crate) fn step_want(
    alloc: Global,
    frames: &mut Vec<Frame>,
    at: AtType2,
    token: Current,
) -> Result<Next, Stop>
    ensures { (read : Leaf → Token) (rs : S.Rules) → on (view_at_type2 read (below read rs frames.old.items) at) (λ k. Gives read token rs (below read rs frames.new.items) result (M.step_want k token.kind (read token.leaf))) }
{
    match operand_of(token) {
        Some(type2) => have_type2(alloc, at, type2),
        None => head_want(alloc, frames, at, token),
    }
}

// The operand that this token alone is, if it is one.
#[tactic(none)]
fn operand_of(token: Current) -> Option<Type2>
    ensures { MatchOption result (IsNoOperand token.kind) (λ x. (read : Leaf → Token) → IsOperandOf read x token) }
{
    match token.kind {
        Kind::Number => Some(Type2::Literal(Value::Number(token.leaf))),
        Kind::Text => Some(Type2::Literal(Value::Text(token.leaf))),
        Kind::Bytes => Some(Type2::Literal(Value::Bytes(token.leaf))),
        Kind::Name => Some(Type2::Typename(Ref::Name(token.leaf))),
        Kind::Hash => Some(Type2::Hash(token.leaf)),
        _ => None,
    }
}

// The same for a token that is no operand.
#[tactic(none)]
fn head_want(
    alloc: Global,
    frames: &mut Vec<Frame>,
    at: AtType2,
    token: Current,
) -> Result<Next, Stop>
    requires { IsNoOperand token.kind }
    ensures { (read : Leaf → Token) (rs : S.Rules) → on (view_at_type2 read (below read rs frames.old.items) at) (λ k. Gives read token rs (below read rs frames.new.items) result (M.step_want k token.kind (read token.leaf))) }
{
    match token.kind {
        Kind::NameOpen => open_reference(alloc, frames, at, Prefix::Bare, token.leaf),
        Kind::Tilde => want_ref(alloc, at, Prefix::Tilde(token.leaf)),
        Kind::Ampersand => want_ref(alloc, at, Prefix::Ampersand(token.leaf)),
        Kind::ParenOpen => open_paren(alloc, frames, at, token.leaf),
        Kind::Occur => occur_want(alloc, at, token),
        _ => bracket_want(alloc, frames, at, token),
    }
}

// The same for a token that opens a bracket, or only ends an alternative.
#[tactic(none)]
fn bracket_want(
    alloc: Global,
    frames: &mut Vec<Frame>,
    at: AtType2,
    token: Current,
) -> Result<Next, Stop>
    requires { IsNoHead token.kind }
    ensures { (read : Leaf → Token) (rs : S.Rules) → on (view_at_type2 read (below read rs frames.old.items) at) (λ k. Gives read token rs (below read rs frames.new.items) result (M.step_want k token.kind (read token.leaf))) }
{
    match token.kind {
        Kind::BraceOpen => open_group(alloc, frames, at, GroupOpening::Brace(token.leaf)),
        Kind::BracketOpen => open_group(alloc, frames, at, GroupOpening::Bracket(token.leaf)),
        Kind::TagOpen => open_inside(alloc, frames, at, TypeOpening::Tag(token.leaf)),
        Kind::TagHeadOpen => open_inside(alloc, frames, at, TypeOpening::TagHead(token.leaf)),
        Kind::SimpleHeadOpen => open_inside(alloc, frames, at, TypeOpening::SimpleHead(token.leaf)),
        _ => ends_want(alloc, frames, at, token),
    }
}

// A token where a reference is awaited.
#[tactic(none)]
pub(crate) fn step_want_ref(
    alloc: Global,
    frames: &mut Vec<Frame>,
    at: AtType2,
    prefix: Prefix,
    token: Current,
) -> Result<Next, Stop>
    ensures { (read : Leaf → Token) (rs : S.Rules) → on (view_at_type2 read (below read rs frames.old.items) at) (λ k. Gives read token rs (below read rs frames.new.items) result (M.step_want_ref k (view_prefix read prefix) token.kind (read token.leaf))) }
{
    match token.kind {
        Kind::Name => have_type2(alloc, at, type2_of(prefix, Ref::Name(token.leaf))),
        Kind::NameOpen => open_reference(alloc, frames, at, prefix, token.leaf),
        Kind::ParenOpen => match prefix {
            Prefix::Ampersand(ampersand) => open_group(
                alloc,
                frames,
                at,
                GroupOpening::Choice(ampersand, token.leaf),
            ),
            _ => {
                drop(at);
                Err(unexpected(token))
            }
        },
        _ => {
            drop(at);
            Err(unexpected(token))
        }
    }
}
