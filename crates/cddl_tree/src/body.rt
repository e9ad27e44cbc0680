//! What a token does within a rule's body.
ghost use Rattle.cddl_token.specs.declared.Token.{Token};
ghost use Rattle.tree_nodes.specs.declared.tree.Leaf.{Leaf};
ghost use Rattle.tree_nodes.specs.Syntax.Machine as M;
ghost use Rattle.tree_nodes.specs.Syntax.Syntax as S;
ghost use Rattle.tree_nodes.specs.View.{leaf, view_grpent, view_type1, view_types};
ghost use Rattle.cddl_tree.specs.Frames.{on, as_entry, below, view_at_type2, view_now, Gives, Below};

use crate::build::unexpected;
use crate::entry::after_entry;
use crate::frames::{AtType2, Current, Frame, Next, Now, Stop, TypeOpening};
use crate::have::step_have;
use crate::open::open_inside;
use crate::positions::value_at;
use crate::want::{step_want, step_want_ref};
use cddl_token::Kind;
use std::alloc::Global;
use tree_nodes::{GrpEnt, Leaf, MemberKey, Type1, Types};

// A token within a rule's body.
#[tactic(none)]
pub(crate) fn step_body(
    alloc: Global,
    frames: &mut Vec<Frame>,
    now: Box<Now>,
    token: Current,
) -> Result<Next, Stop>
    ensures { (read : Leaf → Token) (rs : S.Rules) → on (view_now read (below read rs frames.old.items) now.value) (λ m. Gives read token rs (below read rs frames.new.items) result (M.step m token.kind (read token.leaf))) }
{
    match Box::into_inner(now) {
        Now::Want(at) => step_want(alloc, frames, at, token),
        Now::WantRef(at, prefix) => step_want_ref(alloc, frames, at, prefix, token),
        Now::WantContent(at, opening, head, angle) => {
            step_content(alloc, frames, at, opening, head, angle, token)
        }
        Now::Have(at, type1) => step_have(alloc, frames, at, type1, token),
        Now::WantArrow(occur, type1, cut) => step_arrow(alloc, occur, type1, cut, token),
        Now::HaveGroup(grpent) => after_group(alloc, frames, grpent, token),
    }
}

// A token after `#6.<`, a type and its `>`.
#[tactic(none)]
fn step_content(
    alloc: Global,
    frames: &mut Vec<Frame>,
    at: AtType2,
    opening: Leaf,
    head: Box<Types>,
    angle: Leaf,
    token: Current,
) -> Result<Next, Stop>
    ensures { (read : Leaf → Token) (rs : S.Rules) → on (view_at_type2 read (below read rs frames.old.items) at) (λ k. Gives read token rs (below read rs frames.new.items) result (M.step (M.want_content k (read opening) (view_types read head.value) (read angle)) token.kind (read token.leaf))) }
{
    match token.kind {
        Kind::ParenOpen => {
            let opening = TypeOpening::TagContent(opening, head, angle, token.leaf);
            open_inside(alloc, frames, at, opening)
        }
        _ => {
            drop(at);
            drop(head);
            Err(unexpected(token))
        }
    }
}

// A token after the `^` of a key.
#[tactic(none)]
fn step_arrow(
    alloc: Global,
    occur: Option<Leaf>,
    type1: Box<Type1>,
    cut: Leaf,
    token: Current,
) -> Result<Next, Stop>
    ensures { (read : Leaf → Token) (rs : S.Rules) (b : Below) → on (as_entry b) (λ p. Gives read token rs b result (M.step (M.want_arrow p (leaf read occur) (view_type1 read type1.value) (read cut)) token.kind (read token.leaf))) }
{
    match token.kind {
        Kind::Arrow => {
            let key = MemberKey::TypeKey {
                type1: Box::into_inner(type1),
                cut: Some(cut),
                arrow: token.leaf,
            };
            value_at(alloc, occur, key)
        }
        _ => {
            drop(type1);
            Err(unexpected(token))
        }
    }
}

// A token after a group in parentheses that is an entry.
#[tactic(none)]
fn after_group(
    alloc: Global,
    frames: &mut Vec<Frame>,
    grpent: Box<GrpEnt>,
    token: Current,
) -> Result<Next, Stop>
    ensures { (read : Leaf → Token) (rs : S.Rules) → on (as_entry (below read rs frames.old.items)) (λ p. Gives read token rs (below read rs frames.new.items) result (M.after_entry p (view_grpent read grpent.value) token.kind (read token.leaf))) }
{
    after_entry(alloc, frames, Box::into_inner(grpent), token)
}
