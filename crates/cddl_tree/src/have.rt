//! What a token does after a type1, after an argument, and after a type.
ghost use Rattle.std.specs.Prelude.{MatchOption};
ghost use Rattle.cddl_token.specs.declared.Kind.TheVariants.{ParenClose, AngleClose};
ghost use Rattle.cddl_token.specs.declared.Token.{Token};
ghost use Rattle.tree_nodes.specs.declared.tree.Leaf.{Leaf};
ghost use Rattle.tree_nodes.specs.Syntax.Machine as M;
ghost use Rattle.tree_nodes.specs.Syntax.Syntax as S;
ghost use Rattle.tree_nodes.specs.View.{leaf, view_operator, view_type1, view_arg, view_types};
ghost use Rattle.cddl_tree.specs.Frames.{on, view_type_opening, as_types, as_entry, as_reference, view_home, view_at_type1, view_at_type2, below, Gives, Below};
ghost use Rattle.cddl_tree.specs.Kinds.{IsNoOperator, IsOperatorOf};

use crate::build::{arg_of, more_types, one_type, simple_key, sole_type1, type2_of, unexpected};
use crate::entry::after_entry;
use crate::frames::{
    AtType1, AtType2, Before, Current, Frame, Home, Left, Next, Stop, TypeOpening,
};
use crate::memory::new_box;
use crate::positions::{
    have_type2, next_argument, next_choice, rule_ends, value_at, want, want_arrow, want_content,
};
use cddl_token::Kind;
use std::alloc::Global;
use tree_nodes::{
    AssignT, GenericArg, GrpEnt, Leaf, MemberKey, Operator, Ref, Rule, Type1, Type2, Types,
};

// A token after a type1.
#[tactic(none)]
pub(crate) fn step_have(
    alloc: Global,
    frames: &mut Vec<Frame>,
    at: Box<AtType1>,
    type1: Box<Type1>,
    token: Current,
) -> Result<Next, Stop>
    ensures { (read : Leaf → Token) (rs : S.Rules) → on (view_at_type1 read (below read rs frames.old.items) at.value) (λ k. Gives read token rs (below read rs frames.new.items) result (M.step_have k (view_type1 read type1.value) token.kind (read token.leaf))) }
{
    match operator_of(token) {
        Some(operator) => want_operand(alloc, at, type1, operator, token),
        None => match token.kind {
            Kind::Slash => slash(alloc, at, type1, token),
            _ => after_type1(alloc, frames, at, type1, token),
        },
    }
}

// The operator that the token is, if it is one.
#[tactic(none)]
fn operator_of(token: Current) -> Option<Operator>
    ensures { MatchOption result (IsNoOperator token.kind) (λ o. (read : Leaf → Token) → IsOperatorOf read o token) }
{
    match token.kind {
        Kind::Range => Some(Operator::Range(token.leaf)),
        Kind::RangeBelow => Some(Operator::RangeBelow(token.leaf)),
        Kind::Control => Some(Operator::Control(token.leaf)),
        _ => None,
    }
}

// An operator after a type1, which has to be one operand.
#[tactic(none)]
fn want_operand(
    alloc: Global,
    at: Box<AtType1>,
    type1: Box<Type1>,
    operator: Operator,
    token: Current,
) -> Result<Next, Stop>
    ensures { (read : Leaf → Token) (rs : S.Rules) (b : Below) → on (view_at_type1 read b at.value) (λ k. Gives read token rs b result (M.operated k (view_type1 read type1.value) (view_operator read operator))) }
{
    match Box::into_inner(type1) {
        Type1::One(type2) => match new_box(alloc, Left { type2, operator }) {
            Ok(left) => {
                let left = Some(left);
                want(alloc, AtType2 { at, left })
            }
            Err(error) => {
                drop(error);
                drop(at);
                Err(Stop::Memory)
            }
        },
        Type1::Operation { left, right, .. } => {
            drop(left);
            drop(right);
            drop(at);
            Err(unexpected(token))
        }
    }
}

// A `/` after a type1.
#[tactic(none)]
fn slash(alloc: Global, at: Box<AtType1>, type1: Box<Type1>, token: Current) -> Result<Next, Stop>
    ensures { (read : Leaf → Token) (rs : S.Rules) (b : Below) → on (view_at_type1 read b at.value) (λ k. Gives read token rs b result (M.slash k (view_type1 read type1.value) (read token.leaf))) }
{
    let AtType1 { home, before } = Box::into_inner(at);
    match before {
        Before::Nothing => next_choice(alloc, home, one_type(alloc, type1), token.leaf),
        Before::Choices(types, slash) => match more_types(types, slash, type1) {
            Ok(types) => next_choice(alloc, home, types, token.leaf),
            Err(error) => {
                drop(error);
                drop(home);
                Err(Stop::Memory)
            }
        },
        Before::Arguments(before) => {
            drop(before);
            drop(home);
            drop(type1);
            Err(unexpected(token))
        }
    }
}

// A token after a type1 that is neither `/` nor an operator.
#[tactic(none)]
fn after_type1(
    alloc: Global,
    frames: &mut Vec<Frame>,
    at: Box<AtType1>,
    type1: Box<Type1>,
    token: Current,
) -> Result<Next, Stop>
    ensures { (read : Leaf → Token) (rs : S.Rules) → on (view_at_type1 read (below read rs frames.old.items) at.value) (λ k. Gives read token rs (below read rs frames.new.items) result (M.after_type1 k (view_type1 read type1.value) token.kind (read token.leaf))) }
{
    let AtType1 { home, before } = Box::into_inner(at);
    match before {
        Before::Nothing => after_types(alloc, frames, home, one_type(alloc, type1), token),
        Before::Choices(types, slash) => match more_types(types, slash, type1) {
            Ok(types) => after_types(alloc, frames, home, types, token),
            Err(error) => {
                drop(error);
                drop(home);
                Err(Stop::Memory)
            }
        },
        Before::Arguments(before) => {
            drop(home);
            match arg_of(alloc, before, type1) {
                Ok(arguments) => after_argument(alloc, frames, arguments, token),
                Err(error) => {
                    drop(error);
                    Err(Stop::Memory)
                }
            }
        }
    }
}

// A token after an argument.
#[tactic(none)]
fn after_argument(
    alloc: Global,
    frames: &mut Vec<Frame>,
    arguments: GenericArg,
    token: Current,
) -> Result<Next, Stop>
    ensures { (read : Leaf → Token) (rs : S.Rules) → on (as_reference (below read rs frames.old.items)) (λ r. Gives read token rs (below read rs frames.new.items) result (M.after_argument r.0 r.1 r.2 (view_arg read arguments) token.kind (read token.leaf))) }
{
    match token.kind {
        Kind::Comma => next_argument(alloc, arguments, token.leaf),
        Kind::AngleClose => shut_arguments(alloc, frames, arguments, token),
        _ => {
            drop(arguments);
            Err(unexpected(token))
        }
    }
}

// A `>` after the arguments of a name.
#[tactic(none)]
fn shut_arguments(
    alloc: Global,
    frames: &mut Vec<Frame>,
    arguments: GenericArg,
    token: Current,
) -> Result<Next, Stop>
    ensures { (read : Leaf → Token) (rs : S.Rules) → on (as_reference (below read rs frames.old.items)) (λ r. Gives read token rs (below read rs frames.new.items) result (M.after_argument r.0 r.1 r.2 (view_arg read arguments) AngleClose (read token.leaf))) }
{
    let closing = token.leaf;
    match frames.pop() {
        None => {
            drop(arguments);
            Err(unexpected(token))
        }
        Some(frame) => match frame {
            Frame::Reference(at, prefix, opening) => match new_box(alloc, arguments) {
                Ok(arguments) => {
                    let reference = Ref::Applied {
                        opening,
                        arguments,
                        closing,
                    };
                    have_type2(alloc, at, type2_of(prefix, reference))
                }
                Err(error) => {
                    drop(error);
                    drop(at);
                    Err(Stop::Memory)
                }
            },
            frame => {
                drop(frame);
                drop(arguments);
                Err(unexpected(token))
            }
        },
    }
}

// A token after a type that is neither `/` nor an operator.
#[tactic(none)]
fn after_types(
    alloc: Global,
    frames: &mut Vec<Frame>,
    home: Home,
    types: Types,
    token: Current,
) -> Result<Next, Stop>
    ensures { (read : Leaf → Token) (rs : S.Rules) → on (view_home read (below read rs frames.old.items) home) (λ k. Gives read token rs (below read rs frames.new.items) result (M.after_types k (view_types read types) token.kind (read token.leaf))) }
{
    match home {
        Home::Inside => after_inside(alloc, frames, types, token),
        Home::Start(occur) => after_start(alloc, frames, occur, types, token),
        Home::ValueOf(occur, key) => {
            after_entry(alloc, frames, GrpEnt::Keyed { occur, key, types }, token)
        }
    }
}

// A token after a rule's type, or after a type in brackets.
#[tactic(none)]
fn after_inside(
    alloc: Global,
    frames: &mut Vec<Frame>,
    types: Types,
    token: Current,
) -> Result<Next, Stop>
    ensures { (read : Leaf → Token) (rs : S.Rules) → on (as_types (below read rs frames.old.items)) (λ k. Gives read token rs (below read rs frames.new.items) result (M.after_types k (view_types read types) token.kind (read token.leaf))) }
{
    match frames.pop() {
        None => {
            drop(types);
            Err(unexpected(token))
        }
        Some(frame) => match frame {
            Frame::TypeBody(name, assign) => {
                let assign = AssignT::TypeOr(assign);
                rule_ends(
                    alloc,
                    Rule::TypeRule {
                        name,
                        assign,
                        types,
                    },
                )
            }
            Frame::Types(at, opening) => shut_types(alloc, at, opening, types, token),
            frame => {
                drop(frame);
                drop(types);
                Err(unexpected(token))
            }
        },
    }
}

// A token after a type in brackets.
#[tactic(none)]
fn shut_types(
    alloc: Global,
    at: AtType2,
    opening: TypeOpening,
    types: Types,
    token: Current,
) -> Result<Next, Stop>
    ensures { (read : Leaf → Token) (rs : S.Rules) (b : Below) → on (view_at_type2 read b at) (λ k. Gives read token rs b result (M.shut_types k (view_type_opening read opening) (view_types read types) token.kind (read token.leaf))) }
{
    match new_box(alloc, types) {
        Ok(types) => match token.kind {
            Kind::ParenClose => shut_parens(alloc, at, opening, types, token),
            Kind::AngleClose => shut_angles(alloc, at, opening, types, token),
            _ => {
                drop(at);
                drop(opening);
                drop(types);
                Err(unexpected(token))
            }
        },
        Err(error) => {
            drop(error);
            drop(opening);
            drop(at);
            Err(Stop::Memory)
        }
    }
}

// A `)` after a type in brackets.
#[tactic(none)]
fn shut_parens(
    alloc: Global,
    at: AtType2,
    opening: TypeOpening,
    types: Box<Types>,
    token: Current,
) -> Result<Next, Stop>
    ensures { (read : Leaf → Token) (rs : S.Rules) (b : Below) → on (view_at_type2 read b at) (λ k. Gives read token rs b result (M.shut_types k (view_type_opening read opening) (view_types read types.value) ParenClose (read token.leaf))) }
{
    let closing = token.leaf;
    match opening {
        TypeOpening::Paren(opening) => have_type2(
            alloc,
            at,
            Type2::Parens {
                opening,
                types,
                closing,
            },
        ),
        TypeOpening::Tag(opening) => have_type2(
            alloc,
            at,
            Type2::Tagged {
                opening,
                types,
                closing,
            },
        ),
        TypeOpening::TagContent(opening, head, angle, paren) => have_type2(
            alloc,
            at,
            Type2::TaggedBy {
                opening,
                head,
                angle,
                paren,
                types,
                closing,
            },
        ),
        opening => {
            drop(opening);
            drop(types);
            drop(at);
            Err(unexpected(token))
        }
    }
}

// A `>` after a type in angles.
#[tactic(none)]
fn shut_angles(
    alloc: Global,
    at: AtType2,
    opening: TypeOpening,
    types: Box<Types>,
    token: Current,
) -> Result<Next, Stop>
    ensures { (read : Leaf → Token) (rs : S.Rules) (b : Below) → on (view_at_type2 read b at) (λ k. Gives read token rs b result (M.shut_types k (view_type_opening read opening) (view_types read types.value) AngleClose (read token.leaf))) }
{
    match opening {
        TypeOpening::TagHead(opening) => want_content(alloc, at, opening, types, token.leaf),
        TypeOpening::SimpleHead(opening) => have_type2(
            alloc,
            at,
            Type2::SimpleBy {
                opening,
                head: types,
                closing: token.leaf,
            },
        ),
        opening => {
            drop(opening);
            drop(types);
            drop(at);
            Err(unexpected(token))
        }
    }
}

// A token after a type at the head of an entry, where a key may end.
#[tactic(none)]
fn after_start(
    alloc: Global,
    frames: &mut Vec<Frame>,
    occur: Option<Leaf>,
    types: Types,
    token: Current,
) -> Result<Next, Stop>
    ensures { (read : Leaf → Token) (rs : S.Rules) → on (as_entry (below read rs frames.old.items)) (λ p. Gives read token rs (below read rs frames.new.items) result (M.after_start p (leaf read occur) (view_types read types) token.kind (read token.leaf))) }
{
    match token.kind {
        Kind::Arrow => arrow(alloc, occur, types, token),
        Kind::Cut => match sole_type1(types) {
            Ok(type1) => want_arrow(alloc, occur, type1, token.leaf),
            Err(()) => Err(unexpected(token)),
        },
        Kind::Colon => colon(alloc, occur, types, token),
        _ => after_entry(alloc, frames, GrpEnt::Typed { occur, types }, token),
    }
}

// A `=>` after a type at the head of an entry.
#[tactic(none)]
fn arrow(alloc: Global, occur: Option<Leaf>, types: Types, token: Current) -> Result<Next, Stop>
    ensures { (read : Leaf → Token) (rs : S.Rules) (b : Below) → on (as_entry b) (λ p. Gives read token rs b result (M.arrow p (leaf read occur) (view_types read types) (read token.leaf))) }
{
    match sole_type1(types) {
        Ok(type1) => {
            let key = MemberKey::TypeKey {
                type1,
                cut: None,
                arrow: token.leaf,
            };
            value_at(alloc, occur, key)
        }
        Err(()) => Err(unexpected(token)),
    }
}

// A `:` after a type at the head of an entry.
#[tactic(none)]
fn colon(alloc: Global, occur: Option<Leaf>, types: Types, token: Current) -> Result<Next, Stop>
    ensures { (read : Leaf → Token) (rs : S.Rules) (b : Below) → on (as_entry b) (λ p. Gives read token rs b result (M.colon p (leaf read occur) (view_types read types) (read token.leaf))) }
{
    match sole_type1(types) {
        Ok(type1) => match simple_key(type1, token.leaf) {
            Some(key) => value_at(alloc, occur, key),
            None => Err(unexpected(token)),
        },
        Err(()) => Err(unexpected(token)),
    }
}
