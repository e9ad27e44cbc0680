//! What a token does where only an alternative of a group can end.
ghost use Rattle.std.specs.Prelude.{None};
ghost use Rattle.cddl_token.specs.declared.Token.{Token};
ghost use Rattle.tree_nodes.specs.declared.tree.Leaf.{Leaf};
ghost use Rattle.tree_nodes.specs.Syntax.Machine as M;
ghost use Rattle.tree_nodes.specs.Syntax.Syntax as S;
ghost use Rattle.tree_nodes.specs.View.{view_group};
ghost use Rattle.cddl_tree.specs.Frames.{on, view_alternatives, view_entries, as_entry, as_group, view_at_type2, below, Gives};

use crate::brackets::{shut_entry, shut_within};
use crate::build::{group_of, unexpected};
use crate::frames::{Alternatives, AtType2, Current, Frame, Next, Stop};
use crate::open::{entry_head, open_member};
use cddl_token::Kind;
use std::alloc::Global;
use tree_nodes::{Entry, Group};

// A token that can only end an alternative, where a type2 is awaited.
#[tactic(none)]
pub(crate) fn ends_want(
    alloc: Global,
    frames: &mut Vec<Frame>,
    at: AtType2,
    token: Current,
) -> Result<Next, Stop>
    ensures { (read : Leaf → Token) (rs : S.Rules) → on (view_at_type2 read (below read rs frames.old.items) at) (λ k. Gives read token rs (below read rs frames.new.items) result (M.ends_want k token.kind (read token.leaf))) }
{
    let head = entry_head(&at);
    drop(at);
    match head {
        Some(occur) => match occur {
            None => ends_start(alloc, frames, token),
            Some(_) => Err(unexpected(token)),
        },
        None => Err(unexpected(token)),
    }
}

// The same at the head of an entry.
#[tactic(none)]
fn ends_start(alloc: Global, frames: &mut Vec<Frame>, token: Current) -> Result<Next, Stop>
    ensures { (read : Leaf → Token) (rs : S.Rules) → on (as_entry (below read rs frames.old.items)) (λ p. Gives read token rs (below read rs frames.new.items) result (M.ends_want (M.lower (M.head (M.start p None))) token.kind (read token.leaf))) }
{
    match frames.pop() {
        None => Err(unexpected(token)),
        Some(frame) => match frame {
            Frame::Member(before, entries) => ends(alloc, frames, before, entries, token),
            frame => {
                drop(frame);
                Err(unexpected(token))
            }
        },
    }
}

// A token after the entries of an alternative.
#[tactic(none)]
fn ends(
    alloc: Global,
    frames: &mut Vec<Frame>,
    before: Option<Alternatives>,
    entries: Vec<Entry>,
    token: Current,
) -> Result<Next, Stop>
    ensures { (read : Leaf → Token) (rs : S.Rules) → on (as_group (below read rs frames.old.items)) (λ k. Gives read token rs (below read rs frames.new.items) result (M.ends k (view_alternatives read before) (view_entries read entries.items) token.kind (read token.leaf))) }
{
    match group_of(alloc, before, entries) {
        Ok(group) => match token.kind {
            Kind::DoubleSlash => {
                let before = Alternatives {
                    group,
                    slashes: token.leaf,
                };
                open_member(alloc, frames, Some(before), Vec::new(alloc))
            }
            _ => shut_group(alloc, frames, group, token),
        },
        Err(error) => {
            drop(error);
            Err(Stop::Memory)
        }
    }
}

// A token that can only close a group.
#[tactic(none)]
fn shut_group(
    alloc: Global,
    frames: &mut Vec<Frame>,
    group: Group,
    token: Current,
) -> Result<Next, Stop>
    ensures { (read : Leaf → Token) (rs : S.Rules) → on (as_group (below read rs frames.old.items)) (λ k. Gives read token rs (below read rs frames.new.items) result (M.shut_group k (view_group read group) token.kind (read token.leaf))) }
{
    match frames.pop() {
        None => {
            drop(group);
            Err(unexpected(token))
        }
        Some(frame) => match frame {
            Frame::Group(at, opening) => shut_within(alloc, at, opening, group, token),
            Frame::Entry(occur, opening) => match token.kind {
                Kind::ParenClose => shut_entry(alloc, occur, opening, group, token),
                _ => {
                    drop(group);
                    Err(unexpected(token))
                }
            },
            frame => {
                drop(frame);
                drop(group);
                Err(unexpected(token))
            }
        },
    }
}
