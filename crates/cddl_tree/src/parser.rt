//! From tokens to their tree.
ghost use Rattle.std.specs.Prelude.{◌≡◌, ℕ, ◌<◌, ◌⊎◌, List, map, IfOk, IfErr, MatchResult};
ghost use Rattle.cddl_token.specs.declared.Code.{Code};
ghost use Rattle.cddl_token.specs.declared.Token.{Token};
ghost use Rattle.cddl_token.specs.Answers.{span, IsTokenized};
ghost use Rattle.tree_nodes.specs.Syntax.Answers.{opened_after, IsTreeOf, IsRefused};
ghost use Rattle.tree_nodes.specs.Syntax.Syntax.{Cddl};
ghost use Rattle.tree_nodes.specs.declared.tree.Leaf.{Leaf};
ghost use Rattle.tree_nodes.specs.View.{view};
ghost use Rattle.cddl_tree.specs.States.{rules_in, refusal_of, IsRead, EndsInEnd, Refuses, Stands, Advances};

use crate::frames::{Current, Stop};
use crate::rules::{new_state, step};
use crate::state::{Progress, State};
use cddl_token::{Code, Kind, Refusal, Token};
use std::alloc::Global;
use tree_nodes::syntax::{
    goes_on, is_balanced, is_stuck, makes_trees, one_answer, one_tree, some_answer,
};
use tree_nodes::{Leaf, Rule, Tree};

/// The number of opening tokens that may be open at once.
pub const NESTING_LIMIT: usize = 128;

// How many are open after a token, of `count` before it.
fn count_after(kind: Kind, count: usize) -> usize
    requires { count < 129 }
    ensures { result ≡ opened_after kind count }
{
    match kind {
        Kind::ParenOpen
        | Kind::BracketOpen
        | Kind::BraceOpen
        | Kind::NameOpen
        | Kind::TagOpen
        | Kind::TagHeadOpen
        | Kind::SimpleHeadOpen => count + 1,
        Kind::ParenClose | Kind::BracketClose | Kind::BraceClose | Kind::AngleClose => {
            count.saturating_sub(1)
        }
        _ => count,
    }
}

// The parser after one token more.
#[tactic(none)]
fn advance(alloc: Global, progress: Progress, token: Current) -> Result<Progress, Refusal>
    requires { progress.count < 129 }
    ensures { (read : Leaf → Token) (ts : List Token) → IsRead read token → Stands read progress ts → Advances read ts (read token.leaf) result }
{
    goes_on();
    is_stuck();
    let Progress { state, count } = progress;
    match step(alloc, state, token) {
        Ok(state) => {
            let count = count_after(token.kind, count);
            if count > NESTING_LIMIT {
                drop(state);
                return Err(Refusal::At(Code::TooNested, token.start));
            }
            Ok(Progress { state, count })
        }
        Err(stop) => Err(refusal(stop)),
    }
}

// What the caller is told of it.
fn refusal(stop: Stop) -> Refusal
    ensures { result ≡ refusal_of stop }
{
    match stop {
        Stop::Unexpected(start) => Refusal::At(Code::Unexpected, start),
        Stop::Memory => Refusal::Memory,
    }
}

// The rules, after the last token.
#[tactic(none)]
fn rules_of(state: Box<State>) -> Option<Vec<Rule>>
    ensures { result ≡ rules_in state.value }
{
    match Box::into_inner(state) {
        State::Done(rules, _) => Some(rules),
        state => {
            drop(state);
            None
        }
    }
}

/// The last token of a source is its end, so what [`cddl_token::tokens`] answers may be parsed: a
/// law for callers, which does nothing.
pub fn tokens_end()
    ensures { (source : List ℕ) (ts : List Token) → IsTokenized source (map span ts) → EndsInEnd ts }
{}

/// The tree of the tokens that [`cddl_token::tokens`] answers (RFC 8610, appendix B).
///
/// Errors: `At` with [`Code::Unexpected`] and the offset of the first token with which the tokens
/// so far begin no specification; or, where it comes earlier, with [`Code::TooNested`] and the
/// offset of the first opening token that has [`NESTING_LIMIT`] others open around it. `Memory`
/// where a growth was refused, or where there are more than 4,294,967,295 tokens, which no source
/// has that [`cddl_token::tokens`] takes.
#[tactic(auto)]
pub fn parse<'s>(alloc: Global, tokens: &'s [Token<'s>]) -> Result<Tree<'s>, Refusal>
    // The last token is the source's end.
    requires { EndsInEnd tokens.now }
    // The tree's tokens are these, and it nests within the limit.
    ensures tree { IfOk result (λ t. IsTreeOf (view t) tokens.now) }
    // They have no other.
    ensures only { IfOk result (λ t. (x : Cddl) → IsTreeOf x tokens.now → x ≡ view t) }
    // A refusal says why they have none, and where.
    ensures refused { IfErr result (λ e. Refuses tokens.now e) }
    // Where they have a tree, it is the answer, unless memory runs out.
    ensures answered { (x : Cddl) → IsTreeOf x tokens.now → MatchResult result (λ t. view t ≡ x) (λ e. e ≡ Refusal.Memory) }
    // Where they have none for this reason, this is the answer, unless memory runs out.
    ensures only_refused { (code : Code) (at : ℕ) → IsRefused tokens.now code at → MatchResult result (λ t. ⊥) (λ e. (e ≡ Refusal.At code at) ⊎ (e ≡ Refusal.Memory)) }
{
    one_tree();
    makes_trees();
    goes_on();
    is_balanced();
    some_answer();
    one_answer();
    let Some(end) = tokens.last() else {
        unreachable!()
    };
    let state = match new_state(alloc, State::Begin) {
        Ok(state) => state,
        Err(_) => return Err(Refusal::Memory),
    };
    let mut progress = Progress { state, count: 0 };
    let mut index = 0;
    for token in tokens {
        let Token { kind, start, .. } = *token;
        let leaf = Leaf { index };
        let token = Current { kind, start, leaf };
        progress = match advance(alloc, progress, token) {
            Ok(next) => next,
            Err(refusal) => return Err(refusal),
        };
        index = match u32::checked_add(index, 1) {
            Some(next) => next,
            None => {
                drop(progress);
                return Err(Refusal::Memory);
            }
        };
    }
    let Progress { state, count: _ } = progress;
    match rules_of(state) {
        Some(rules) => Ok(Tree { tokens, rules, end }),
        None => unreachable!(),
    }
}
