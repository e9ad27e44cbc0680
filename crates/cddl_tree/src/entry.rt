//! What a token does after an entry.
ghost use Rattle.std.specs.Prelude.{◌≡◌, IfOk};
ghost use Rattle.cddl_token.specs.declared.Token.{Token};
ghost use Rattle.tree_nodes.specs.declared.tree.Leaf.{Leaf};
ghost use Rattle.tree_nodes.specs.Syntax.Machine as M;
ghost use Rattle.tree_nodes.specs.Syntax.Syntax as S;
ghost use Rattle.tree_nodes.specs.View.{leaf, view_grpent, view_name, view_assigng, view_rule};
ghost use Rattle.cddl_tree.specs.Frames.{on, view_alternatives, view_entries, as_entry, as_group, below, Gives};

use crate::build::{lone_type, unexpected};
use crate::frames::{Alternatives, Current, Frame, Home, Next, Stop};
use crate::memory::push_last;
use crate::open::open_member;
use crate::positions::{rule_ends, type_at};
use crate::want::step_want;
use cddl_token::Kind;
use std::alloc::Global;
use tree_nodes::{AssignG, AssignT, Entry, GrpEnt, Leaf, Rule, RuleName};

// A token after an entry.
#[tactic(none)]
pub(crate) fn after_entry(
    alloc: Global,
    frames: &mut Vec<Frame>,
    grpent: GrpEnt,
    token: Current,
) -> Result<Next, Stop>
    ensures { (read : Leaf → Token) (rs : S.Rules) → on (as_entry (below read rs frames.old.items)) (λ p. Gives read token rs (below read rs frames.new.items) result (M.after_entry p (view_grpent read grpent) token.kind (read token.leaf))) }
{
    match frames.pop() {
        None => {
            drop(grpent);
            Err(unexpected(token))
        }
        Some(frame) => match frame {
            Frame::GroupBody(name, assign) => rule_ends(alloc, rule_of(name, assign, grpent)),
            Frame::Member(before, entries) => {
                after_member(alloc, frames, before, entries, grpent, token)
            }
            frame => {
                drop(frame);
                drop(grpent);
                Err(unexpected(token))
            }
        },
    }
}

// The rule with this body. One that is a type after `=` makes a type rule.
#[tactic(none)]
fn rule_of(name: RuleName, assign: AssignG, grpent: GrpEnt) -> Rule
    ensures { (read : Leaf → Token) → view_rule read result ≡ M.rule_of (view_name read name) (view_assigng read assign) (view_grpent read grpent) }
{
    match assign {
        AssignG::GroupOr(_) => Rule::GroupRule {
            name,
            assign,
            grpent,
        },
        AssignG::GroupIs(token) => match lone_type(grpent) {
            Ok(types) => Rule::TypeRule {
                name,
                assign: AssignT::TypeIs(token),
                types,
            },
            Err(grpent) => Rule::GroupRule {
                name,
                assign,
                grpent,
            },
        },
    }
}

// A token after an entry of a group.
#[tactic(none)]
fn after_member(
    alloc: Global,
    frames: &mut Vec<Frame>,
    before: Option<Alternatives>,
    entries: Vec<Entry>,
    grpent: GrpEnt,
    token: Current,
) -> Result<Next, Stop>
    ensures { (read : Leaf → Token) (rs : S.Rules) → on (as_group (below read rs frames.old.items)) (λ k. Gives read token rs (below read rs frames.new.items) result (M.after_entry (M.member k (view_alternatives read before) (view_entries read entries.items)) (view_grpent read grpent) token.kind (read token.leaf))) }
{
    match token.kind {
        Kind::Comma => match with_entry(entries, grpent, Some(token.leaf)) {
            Ok(entries) => open_member(alloc, frames, before, entries),
            Err(error) => {
                drop(error);
                drop(before);
                Err(Stop::Memory)
            }
        },
        _ => match with_entry(entries, grpent, None) {
            Ok(entries) => match push_last(frames, Frame::Member(before, entries)) {
                Ok(()) => match type_at(alloc, Home::Start(None)) {
                    Ok(at) => step_want(alloc, frames, at, token),
                    Err(_) => Err(Stop::Memory),
                },
                Err(error) => {
                    drop(error);
                    Err(Stop::Memory)
                }
            },
            Err(error) => {
                drop(error);
                drop(before);
                Err(Stop::Memory)
            }
        },
    }
}

// The entries with one more.
#[tactic(none)]
fn with_entry(entries: Vec<Entry>, grpent: GrpEnt, comma: Option<Leaf>) -> Result<Vec<Entry>, Stop>
    ensures { IfOk result (λ es. (read : Leaf → Token) → view_entries read es.items ≡ S.entries (view_entries read entries.items) (view_grpent read grpent) (leaf read comma)) }
{
    let mut entries = entries;
    match push_last(&mut entries, Entry { grpent, comma }) {
        Ok(()) => Ok(entries),
        Err(error) => {
            drop(error);
            drop(entries);
            Err(Stop::Memory)
        }
    }
}
