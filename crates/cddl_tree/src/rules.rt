//! What a token does between the rules and in the head of a rule.
ghost use Rattle.std.specs.Prelude.{◌≡◌, MatchResult, [], ◌∷◌};
ghost use Rattle.cddl_token.specs.declared.Token.{Token};
ghost use Rattle.tree_nodes.specs.declared.tree.Leaf.{Leaf};
ghost use Rattle.tree_nodes.specs.Syntax.Machine as M;
ghost use Rattle.tree_nodes.specs.Syntax.Syntax as S;
ghost use Rattle.tree_nodes.specs.View.{view_parm, view_name, view_rule};
ghost use Rattle.cddl_tree.specs.Frames.{nowhere, on, view_parameters, view_home, above, below, view_now, Gives};
ghost use Rattle.cddl_tree.specs.States.{view_rules, view_state, GivesState, BeginsBody};

use crate::body::step_body;
use crate::build::{parm_of, unexpected};
use crate::frames::{Current, Frame, Home, Next, Now, Parameters, Stop};
use crate::memory::{new_box, push_last};
use crate::positions::now_wants_type;
use crate::state::State;
use cddl_token::Kind;
use std::alloc::Global;
use tree_nodes::{AssignG, GenericParm, Leaf, Rule, RuleName};

// The state in a box.
pub(crate) fn new_state(alloc: Global, state: State) -> Result<Box<State>, Stop>
    ensures { MatchResult result (λ s. s.value ≡ state) (λ e. e ≡ Stop.Memory) }
{
    match new_box(alloc, state) {
        Ok(state) => Ok(state),
        Err(error) => {
            drop(error);
            Err(Stop::Memory)
        }
    }
}

// A token after whole rules.
#[tactic(none)]
fn next_rule(alloc: Global, rules: Vec<Rule>, token: Current) -> Result<Box<State>, Stop>
    ensures { (read : Leaf → Token) → GivesState read token.start result (M.next_rule (view_rules read rules.items) token.kind (read token.leaf)) }
{
    match token.kind {
        Kind::Name => new_state(alloc, State::WantAssign(rules, RuleName::Plain(token.leaf))),
        Kind::NameOpen => new_state(alloc, State::WantParm(rules, token.leaf, None)),
        Kind::End => new_state(alloc, State::Done(rules, token.leaf)),
        _ => {
            drop(rules);
            Err(unexpected(token))
        }
    }
}

// A token after a parameter.
#[tactic(none)]
fn after_parm(
    alloc: Global,
    rules: Vec<Rule>,
    opening: Leaf,
    parameters: GenericParm,
    token: Current,
) -> Result<Box<State>, Stop>
    ensures { (read : Leaf → Token) → GivesState read token.start result (M.after_parm (view_rules read rules.items) (read opening) (view_parm read parameters) token.kind (read token.leaf)) }
{
    match token.kind {
        Kind::Comma => {
            let comma = token.leaf;
            let before = Parameters { parameters, comma };
            new_state(alloc, State::WantParm(rules, opening, Some(before)))
        }
        Kind::AngleClose => {
            let name = RuleName::Generic {
                opening,
                parameters,
                closing: token.leaf,
            };
            new_state(alloc, State::WantAssign(rules, name))
        }
        _ => {
            drop(rules);
            drop(parameters);
            Err(unexpected(token))
        }
    }
}

// An assignment, or what is there in place of one.
#[tactic(none)]
fn after_name(
    alloc: Global,
    rules: Vec<Rule>,
    name: RuleName,
    token: Current,
) -> Result<Box<State>, Stop>
    ensures { (read : Leaf → Token) → GivesState read token.start result (M.assigned (view_rules read rules.items) (view_name read name) token.kind (read token.leaf)) }
{
    match token.kind {
        Kind::Assign => {
            let frame = Frame::GroupBody(name, AssignG::GroupIs(token.leaf));
            begin_body(alloc, rules, frame, Home::Start(None))
        }
        Kind::TypeAssign => {
            let frame = Frame::TypeBody(name, token.leaf);
            begin_body(alloc, rules, frame, Home::Inside)
        }
        Kind::GroupAssign => {
            let frame = Frame::GroupBody(name, AssignG::GroupOr(token.leaf));
            begin_body(alloc, rules, frame, Home::Start(None))
        }
        _ => {
            drop(rules);
            drop(name);
            Err(unexpected(token))
        }
    }
}

// Begins the body of a rule, whose head is the frame.
#[tactic(none)]
fn begin_body(alloc: Global, rules: Vec<Rule>, frame: Frame, home: Home) -> Result<Box<State>, Stop>
    ensures { (read : Leaf → Token) → BeginsBody read result (view_home read (above read (view_rules read rules.items) nowhere frame) home) }
{
    match first_frame(alloc, frame) {
        Ok(frames) => match now_wants_type(alloc, home) {
            Ok(now) => within(alloc, rules, frames, now),
            Err(_) => {
                drop(frames);
                drop(rules);
                Err(Stop::Memory)
            }
        },
        Err(_) => {
            drop(home);
            drop(rules);
            Err(Stop::Memory)
        }
    }
}

// Frames of which this is the only one.
#[tactic(none)]
fn first_frame(alloc: Global, frame: Frame) -> Result<Vec<Frame>, Stop>
    ensures { MatchResult result (λ fs. fs.items ≡ frame ∷ []) (λ e. e ≡ Stop.Memory) }
{
    let mut frames = Vec::new(alloc);
    match push_last(&mut frames, frame) {
        Ok(()) => Ok(frames),
        Err(error) => {
            drop(error);
            drop(frames);
            Err(Stop::Memory)
        }
    }
}

// The state within a rule's body.
#[tactic(none)]
fn within(
    alloc: Global,
    rules: Vec<Rule>,
    frames: Vec<Frame>,
    now: Box<Now>,
) -> Result<Box<State>, Stop>
    ensures { MatchResult result (λ s. (read : Leaf → Token) → view_state read s.value ≡ view_now read (below read (view_rules read rules.items) frames.items) now.value) (λ e. e ≡ Stop.Memory) }
{
    match new_box(alloc, State::Body(rules, frames, now)) {
        Ok(state) => Ok(state),
        Err(error) => {
            drop(error);
            Err(Stop::Memory)
        }
    }
}

// The rules with one more.
#[tactic(none)]
fn with_rule(rules: Vec<Rule>, rule: Box<Rule>) -> Result<Vec<Rule>, Stop>
    ensures { MatchResult result (λ rs. (read : Leaf → Token) → view_rules read rs.items ≡ S.rules (view_rules read rules.items) (view_rule read rule.value)) (λ e. e ≡ Stop.Memory) }
{
    let mut rules = rules;
    match push_last(&mut rules, Box::into_inner(rule)) {
        Ok(()) => Ok(rules),
        Err(error) => {
            drop(error);
            drop(rules);
            Err(Stop::Memory)
        }
    }
}

// The state after a token of a rule's body.
#[tactic(none)]
fn after_body(
    alloc: Global,
    rules: Vec<Rule>,
    frames: Vec<Frame>,
    next: Result<Next, Stop>,
    token: Current,
) -> Result<Box<State>, Stop>
    ensures { (read : Leaf → Token) (m : M.State) → Gives read token (view_rules read rules.items) (below read (view_rules read rules.items) frames.items) next m → GivesState read token.start result m }
{
    match next {
        Ok(next) => match next {
            Next::Within(now) => within(alloc, rules, frames, now),
            Next::Ended(rule) => {
                drop(frames);
                match with_rule(rules, rule) {
                    Ok(rules) => next_rule(alloc, rules, token),
                    Err(_) => Err(Stop::Memory),
                }
            }
        },
        Err(stop) => {
            drop(frames);
            drop(rules);
            Err(stop)
        }
    }
}

// A token within a rule's body.
#[tactic(none)]
fn in_body(
    alloc: Global,
    rules: Vec<Rule>,
    frames: Vec<Frame>,
    now: Box<Now>,
    token: Current,
) -> Result<Box<State>, Stop>
    ensures { (read : Leaf → Token) → on (view_now read (below read (view_rules read rules.items) frames.items) now.value) (λ m. GivesState read token.start result (M.step m token.kind (read token.leaf))) }
{
    let mut frames = frames;
    let next = step_body(alloc, &mut frames, now, token);
    after_body(alloc, rules, frames, next, token)
}

// A token where a parameter is awaited.
#[tactic(none)]
fn parameter(
    alloc: Global,
    rules: Vec<Rule>,
    opening: Leaf,
    before: Option<Parameters>,
    token: Current,
) -> Result<Box<State>, Stop>
    ensures { (read : Leaf → Token) → GivesState read token.start result (M.step (M.awaits_parm (view_rules read rules.items) (read opening) (view_parameters read before)) token.kind (read token.leaf)) }
{
    match token.kind {
        Kind::Name => match parm_of(alloc, before, token.leaf) {
            Ok(parameters) => new_state(alloc, State::HaveParm(rules, opening, parameters)),
            Err(_) => {
                drop(rules);
                Err(Stop::Memory)
            }
        },
        _ => {
            drop(rules);
            drop(before);
            Err(unexpected(token))
        }
    }
}

// The state after a token.
#[tactic(none)]
pub(crate) fn step(alloc: Global, state: Box<State>, token: Current) -> Result<Box<State>, Stop>
    ensures { (read : Leaf → Token) → on (view_state read state.value) (λ m. GivesState read token.start result (M.step m token.kind (read token.leaf))) }
{
    match Box::into_inner(state) {
        State::Begin => next_rule(alloc, Vec::new(alloc), token),
        State::WantParm(rules, opening, before) => {
            parameter(alloc, rules, opening, before, token)
        }
        State::HaveParm(rules, opening, parameters) => {
            after_parm(alloc, rules, opening, parameters, token)
        }
        State::WantAssign(rules, name) => after_name(alloc, rules, name, token),
        State::Body(rules, frames, now) => in_body(alloc, rules, frames, now, token),
        State::Done(rules, _) => {
            drop(rules);
            Err(unexpected(token))
        }
    }
}
