//! What a token does after a group in brackets, or in parentheses at the head of an entry.
ghost use Rattle.std.specs.Prelude.{◌≡◌};
ghost use Rattle.cddl_token.specs.declared.Token.{Token};
ghost use Rattle.tree_nodes.specs.declared.tree.Leaf.{Leaf};
ghost use Rattle.tree_nodes.specs.Syntax.Machine as M;
ghost use Rattle.tree_nodes.specs.Syntax.Syntax as S;
ghost use Rattle.tree_nodes.specs.View.{leaf, view_type2, view_group};
ghost use Rattle.cddl_tree.specs.Frames.{on, view_group_opening, bracketed, is_closed_by, as_entry, view_at_type2, Gives, Below};

use crate::build::{content_of, unexpected};
use crate::frames::{AtType2, Content, Current, GroupOpening, Home, Next, Stop};
use crate::memory::new_box;
use crate::positions::{have_group, have_type2, type_at};
use cddl_token::Kind;
use std::alloc::Global;
use tree_nodes::{Group, GrpEnt, Leaf, Type2};

// A token that can only close a group in brackets.
#[tactic(none)]
pub(crate) fn shut_within(
    alloc: Global,
    at: AtType2,
    opening: GroupOpening,
    group: Group,
    token: Current,
) -> Result<Next, Stop>
    ensures { (read : Leaf → Token) (rs : S.Rules) (b : Below) → on (view_at_type2 read b at) (λ k. Gives read token rs b result (M.shut_group (M.within k (view_group_opening read opening)) (view_group read group) token.kind (read token.leaf))) }
{
    if closes(opening, token.kind) {
        have_type2(alloc, at, in_brackets(opening, group, token.leaf))
    } else {
        drop(at);
        drop(group);
        Err(unexpected(token))
    }
}

// Whether the token is the bracket that closes what was opened so.
fn closes(opening: GroupOpening, kind: Kind) -> bool
    ensures { (read : Leaf → Token) → result ≡ is_closed_by (view_group_opening read opening) kind }
{
    match opening {
        GroupOpening::Brace(_) => matches!(kind, Kind::BraceClose),
        GroupOpening::Bracket(_) => matches!(kind, Kind::BracketClose),
        GroupOpening::Choice(_, _) => matches!(kind, Kind::ParenClose),
    }
}

// A group in brackets.
fn in_brackets(opening: GroupOpening, group: Group, closing: Leaf) -> Type2
    ensures { (read : Leaf → Token) → view_type2 read result ≡ bracketed (view_group_opening read opening) (view_group read group) (read closing) }
{
    match opening {
        GroupOpening::Brace(opening) => Type2::MapOf {
            opening,
            group,
            closing,
        },
        GroupOpening::Bracket(opening) => Type2::ArrayOf {
            opening,
            group,
            closing,
        },
        GroupOpening::Choice(ampersand, opening) => Type2::ChoiceOf {
            ampersand,
            opening,
            group,
            closing,
        },
    }
}

// A `)` after a group at the head of an entry.
#[tactic(none)]
pub(crate) fn shut_entry(
    alloc: Global,
    occur: Option<Leaf>,
    opening: Leaf,
    group: Group,
    token: Current,
) -> Result<Next, Stop>
    ensures { (read : Leaf → Token) (rs : S.Rules) (b : Below) → on (as_entry b) (λ p. Gives read token rs b result (M.shut_paren p (leaf read occur) (read opening) (view_group read group) (read token.leaf))) }
{
    let closing = token.leaf;
    match content_of(group) {
        Ok(content) => match content {
            Content::Type(types) => match new_box(alloc, types) {
                Ok(types) => match type_at(alloc, Home::Start(occur)) {
                    Ok(at) => {
                        let type2 = Type2::Parens {
                            opening,
                            types,
                            closing,
                        };
                        have_type2(alloc, at, type2)
                    }
                    Err(_) => {
                        drop(types);
                        Err(Stop::Memory)
                    }
                },
                Err(error) => {
                    drop(error);
                    Err(Stop::Memory)
                }
            },
            Content::Group(group) => {
                let grpent = GrpEnt::Grouped {
                    occur,
                    opening,
                    group,
                    closing,
                };
                have_group(alloc, grpent)
            }
        },
        Err(error) => {
            drop(error);
            Err(Stop::Memory)
        }
    }
}
