//! What opens: a type, an entry, a bracket.
ghost use Rattle.std.specs.Prelude.{◌≡◌, IfOk, IfErr};
ghost use Rattle.cddl_token.specs.declared.Token.{Token};
ghost use Rattle.tree_nodes.specs.declared.tree.Leaf.{Leaf};
ghost use Rattle.cddl_tree.specs.declared.frames.Current.{Current};
ghost use Rattle.tree_nodes.specs.Syntax.Machine as M;
ghost use Rattle.tree_nodes.specs.Syntax.Syntax as S;
ghost use Rattle.tree_nodes.specs.View.{leaf};
ghost use Rattle.cddl_tree.specs.Frames.{on, made, view_alternatives, view_prefix, view_type_opening, view_group_opening, view_entries, as_entry, as_group, view_at_type2, below, Gives, IsHead, IsStart, Below};

use crate::build::unexpected;
use crate::frames::{
    Alternatives, AtType1, AtType2, Before, Current, Frame, GroupOpening, Home, Next, Prefix, Stop,
    TypeOpening,
};
use crate::memory::push_last;
use crate::positions::{open_argument, open_type};
use std::alloc::Global;
use tree_nodes::{Entry, Leaf};

// Opens a type in brackets.
#[tactic(none)]
pub(crate) fn open_inside(
    alloc: Global,
    frames: &mut Vec<Frame>,
    at: AtType2,
    opening: TypeOpening,
) -> Result<Next, Stop>
    ensures { (read : Leaf → Token) (t : Current) (rs : S.Rules) → on (view_at_type2 read (below read rs frames.old.items) at) (λ k. Gives read t rs (below read rs frames.new.items) result (M.open_types (M.inside k (view_type_opening read opening)))) }
{
    match push_last(frames, Frame::Types(at, opening)) {
        Ok(()) => open_type(alloc, Home::Inside),
        Err(error) => {
            drop(error);
            Err(Stop::Memory)
        }
    }
}

// Opens the arguments of a name.
#[tactic(none)]
pub(crate) fn open_reference(
    alloc: Global,
    frames: &mut Vec<Frame>,
    at: AtType2,
    prefix: Prefix,
    opening: Leaf,
) -> Result<Next, Stop>
    ensures { (read : Leaf → Token) (t : Current) (rs : S.Rules) → on (view_at_type2 read (below read rs frames.old.items) at) (λ k. Gives read t rs (below read rs frames.new.items) result (M.open_argument k (view_prefix read prefix) (read opening) M.no_arg)) }
{
    match push_last(frames, Frame::Reference(at, prefix, opening)) {
        Ok(()) => open_argument(alloc, None),
        Err(error) => {
            drop(error);
            Err(Stop::Memory)
        }
    }
}

// Opens an alternative of a group, after what it has already.
#[tactic(none)]
pub(crate) fn open_member(
    alloc: Global,
    frames: &mut Vec<Frame>,
    before: Option<Alternatives>,
    entries: Vec<Entry>,
) -> Result<Next, Stop>
    ensures { (read : Leaf → Token) (t : Current) (rs : S.Rules) → on (as_group (below read rs frames.old.items)) (λ k. Gives read t rs (below read rs frames.new.items) result (M.open_entry (M.member k (view_alternatives read before) (view_entries read entries.items)))) }
{
    match push_last(frames, Frame::Member(before, entries)) {
        Ok(()) => open_type(alloc, Home::Start(None)),
        Err(error) => {
            drop(error);
            Err(Stop::Memory)
        }
    }
}

// Opens a group in brackets.
#[tactic(none)]
pub(crate) fn open_group(
    alloc: Global,
    frames: &mut Vec<Frame>,
    at: AtType2,
    opening: GroupOpening,
) -> Result<Next, Stop>
    ensures { (read : Leaf → Token) (t : Current) (rs : S.Rules) → on (view_at_type2 read (below read rs frames.old.items) at) (λ k. Gives read t rs (below read rs frames.new.items) result (M.open_group (M.within k (view_group_opening read opening)))) }
{
    match push_last(frames, Frame::Group(at, opening)) {
        Ok(()) => open_member(alloc, frames, None, Vec::new(alloc)),
        Err(error) => {
            drop(error);
            Err(Stop::Memory)
        }
    }
}

// Opens parentheses at the head of an entry.
#[tactic(none)]
fn open_entry(
    alloc: Global,
    frames: &mut Vec<Frame>,
    occur: Option<Leaf>,
    opening: Leaf,
) -> Result<Next, Stop>
    ensures { (read : Leaf → Token) (t : Current) (rs : S.Rules) → on (as_entry (below read rs frames.old.items)) (λ p. Gives read t rs (below read rs frames.new.items) result (M.open_group (M.in_entry p (leaf read occur) (read opening)))) }
{
    match push_last(frames, Frame::Entry(occur, opening)) {
        Ok(()) => open_member(alloc, frames, None, Vec::new(alloc)),
        Err(error) => {
            drop(error);
            Err(Stop::Memory)
        }
    }
}

// The occurrence before the position, where that is the head of an entry.
#[tactic(none)]
pub(crate) fn entry_head(at: &AtType2) -> Option<Option<Leaf>>
    ensures { (read : Leaf → Token) → IsHead read result at.now }
{
    match at.left {
        Some(_) => None,
        None => start_of(&at.at),
    }
}

// The same for a position with no operand before it.
#[tactic(none)]
fn start_of(at: &AtType1) -> Option<Option<Leaf>>
    ensures { (read : Leaf → Token) → IsStart read result at.now }
{
    match at.before {
        Before::Nothing => match at.home {
            Home::Start(occur) => Some(occur),
            Home::Inside => None,
            Home::ValueOf(_, _) => None,
        },
        Before::Choices(_, _) => None,
        Before::Arguments(_) => None,
    }
}

// A `(` where a type2 is awaited.
#[tactic(none)]
pub(crate) fn open_paren(
    alloc: Global,
    frames: &mut Vec<Frame>,
    at: AtType2,
    opening: Leaf,
) -> Result<Next, Stop>
    ensures { (read : Leaf → Token) (t : Current) (rs : S.Rules) → on (view_at_type2 read (below read rs frames.old.items) at) (λ k. Gives read t rs (below read rs frames.new.items) result (M.open_paren k (read opening))) }
{
    match entry_head(&at) {
        Some(occur) => {
            drop(at);
            open_entry(alloc, frames, occur, opening)
        }
        None => open_inside(alloc, frames, at, TypeOpening::Paren(opening)),
    }
}

// An occurrence where a type2 is awaited.
#[tactic(none)]
pub(crate) fn occur_want(alloc: Global, at: AtType2, token: Current) -> Result<Next, Stop>
    ensures { (read : Leaf → Token) (rs : S.Rules) (b : Below) → on (view_at_type2 read b at) (λ k. Gives read token rs b result (M.occur_want k (read token.leaf))) }
{
    let head = entry_head(&at);
    drop(at);
    match head {
        Some(occur) => match occur {
            None => open_type(alloc, Home::Start(Some(token.leaf))),
            Some(_) => Err(unexpected(token)),
        },
        None => Err(unexpected(token)),
    }
}
