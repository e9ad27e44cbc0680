//! Where the parser comes to: positions that hold a part of the tree, in a box.
ghost use Rattle.std.specs.Prelude.{◌≡◌, MatchResult};
ghost use Rattle.cddl_token.specs.declared.Kind.TheVariants.{Comma};
ghost use Rattle.cddl_token.specs.declared.Token.{Token};
ghost use Rattle.tree_nodes.specs.declared.tree.Leaf.{Leaf};
ghost use Rattle.cddl_tree.specs.declared.frames.Current.{Current};
ghost use Rattle.tree_nodes.specs.Syntax.Machine as M;
ghost use Rattle.tree_nodes.specs.Syntax.Syntax as S;
ghost use Rattle.tree_nodes.specs.View.{leaf, view_grpent, view_key, view_type1, view_type2, view_arg, view_types, view_rule};
ghost use Rattle.cddl_tree.specs.Frames.{on, made, view_now, view_prefix, view_arguments, joined_to, as_entry, as_reference, view_home, as_argument, view_at_type1, view_at_type2, Gives, Below};

use crate::frames::{Arguments, AtType1, AtType2, Before, Home, Left, Next, Now, Prefix, Stop};
use crate::memory::new_box;
use std::alloc::Global;
use tree_nodes::{GenericArg, GrpEnt, Leaf, MemberKey, Rule, Type1, Type2, Types};

// The position of the first type2 of a type.
#[tactic(none)]
pub(crate) fn type_at(alloc: Global, home: Home) -> Result<AtType2, Stop>
    ensures { MatchResult result (λ at. (read : Leaf → Token) → (b : Below) → view_at_type2 read b at ≡ made (λ k. M.lower (M.head k)) (view_home read b home)) (λ e. e ≡ Stop.Memory) }
{
    let before = Before::Nothing;
    match new_box(alloc, AtType1 { home, before }) {
        Ok(at) => Ok(AtType2 { at, left: None }),
        Err(error) => {
            drop(error);
            Err(Stop::Memory)
        }
    }
}

// A position where a type2 is awaited.
#[tactic(none)]
fn now_wants(alloc: Global, at: AtType2) -> Result<Box<Now>, Stop>
    ensures { MatchResult result (λ now. (read : Leaf → Token) → (b : Below) → view_now read b now.value ≡ made M.want (view_at_type2 read b at)) (λ e. e ≡ Stop.Memory) }
{
    match new_box(alloc, Now::Want(at)) {
        Ok(now) => Ok(now),
        Err(error) => {
            drop(error);
            Err(Stop::Memory)
        }
    }
}

// A position where a type is awaited.
#[tactic(none)]
pub(crate) fn now_wants_type(alloc: Global, home: Home) -> Result<Box<Now>, Stop>
    ensures { MatchResult result (λ now. (read : Leaf → Token) → (b : Below) → view_now read b now.value ≡ made M.want (made (λ k. M.lower (M.head k)) (view_home read b home))) (λ e. e ≡ Stop.Memory) }
{
    match type_at(alloc, home) {
        Ok(at) => now_wants(alloc, at),
        Err(_) => Err(Stop::Memory),
    }
}

// Where a type2 is awaited.
#[tactic(none)]
pub(crate) fn want(alloc: Global, at: AtType2) -> Result<Next, Stop>
    ensures { (read : Leaf → Token) (t : Current) (rs : S.Rules) (b : Below) → on (view_at_type2 read b at) (λ k. Gives read t rs b result (M.want k)) }
{
    match now_wants(alloc, at) {
        Ok(now) => Ok(Next::Within(now)),
        Err(_) => Err(Stop::Memory),
    }
}

// Where a type is awaited.
#[tactic(none)]
pub(crate) fn open_type(alloc: Global, home: Home) -> Result<Next, Stop>
    ensures { (read : Leaf → Token) (t : Current) (rs : S.Rules) (b : Below) → on (view_home read b home) (λ k. Gives read t rs b result (M.open_types k)) }
{
    match type_at(alloc, home) {
        Ok(at) => want(alloc, at),
        Err(_) => Err(Stop::Memory),
    }
}

// Where an argument is awaited.
#[tactic(none)]
pub(crate) fn open_argument(alloc: Global, before: Option<Arguments>) -> Result<Next, Stop>
    ensures { (read : Leaf → Token) (t : Current) (rs : S.Rules) (b : Below) → on (as_argument b (view_arguments read before)) (λ k. Gives read t rs b result (M.want (M.lower k))) }
{
    let home = Home::Inside;
    let before = Before::Arguments(before);
    match new_box(alloc, AtType1 { home, before }) {
        Ok(at) => want(alloc, AtType2 { at, left: None }),
        Err(error) => {
            drop(error);
            Err(Stop::Memory)
        }
    }
}

// Where a reference is awaited.
#[tactic(none)]
pub(crate) fn want_ref(alloc: Global, at: AtType2, prefix: Prefix) -> Result<Next, Stop>
    ensures { (read : Leaf → Token) (t : Current) (rs : S.Rules) (b : Below) → on (view_at_type2 read b at) (λ k. Gives read t rs b result (M.want_ref k (view_prefix read prefix))) }
{
    match new_box(alloc, Now::WantRef(at, prefix)) {
        Ok(now) => Ok(Next::Within(now)),
        Err(error) => {
            drop(error);
            Err(Stop::Memory)
        }
    }
}

// After `#6.<`, a type and its `>`.
#[tactic(none)]
pub(crate) fn want_content(
    alloc: Global,
    at: AtType2,
    opening: Leaf,
    head: Box<Types>,
    angle: Leaf,
) -> Result<Next, Stop>
    ensures { (read : Leaf → Token) (t : Current) (rs : S.Rules) (b : Below) → on (view_at_type2 read b at) (λ k. Gives read t rs b result (M.want_content k (read opening) (view_types read head.value) (read angle))) }
{
    match new_box(alloc, Now::WantContent(at, opening, head, angle)) {
        Ok(now) => Ok(Next::Within(now)),
        Err(error) => {
            drop(error);
            Err(Stop::Memory)
        }
    }
}

// After a type1.
#[tactic(none)]
fn have(alloc: Global, at: Box<AtType1>, type1: Type1) -> Result<Next, Stop>
    ensures { (read : Leaf → Token) (t : Current) (rs : S.Rules) (b : Below) → on (view_at_type1 read b at.value) (λ k. Gives read t rs b result (M.have k (view_type1 read type1))) }
{
    match new_box(alloc, type1) {
        Ok(type1) => match new_box(alloc, Now::Have(at, type1)) {
            Ok(now) => Ok(Next::Within(now)),
            Err(error) => {
                drop(error);
                Err(Stop::Memory)
            }
        },
        Err(error) => {
            drop(error);
            drop(at);
            Err(Stop::Memory)
        }
    }
}

// A type2 after what comes before it.
#[tactic(none)]
pub(crate) fn have_type2(alloc: Global, at: AtType2, type2: Type2) -> Result<Next, Stop>
    ensures { (read : Leaf → Token) (t : Current) (rs : S.Rules) (b : Below) → on (view_at_type2 read b at) (λ k. Gives read t rs b result (M.got k (view_type2 read type2))) }
{
    match new_box(alloc, type2) {
        Ok(type2) => {
            let AtType2 { at, left } = at;
            have(alloc, at, type1_of(left, type2))
        }
        Err(error) => {
            drop(error);
            drop(at);
            Err(Stop::Memory)
        }
    }
}

// The type1 that an operand ends, with what comes before it.
fn type1_of(left: Option<Box<Left>>, type2: Box<Type2>) -> Type1
    ensures { (read : Leaf → Token) → view_type1 read result ≡ joined_to read left (view_type2 read type2.value) }
{
    match left {
        None => Type1::One(type2),
        Some(left) => {
            let Left {
                type2: left,
                operator,
            } = Box::into_inner(left);
            Type1::Operation {
                left,
                operator,
                right: type2,
            }
        }
    }
}

// After the choices of a type and a `/`.
#[tactic(none)]
pub(crate) fn next_choice(
    alloc: Global,
    home: Home,
    types: Types,
    slash: Leaf,
) -> Result<Next, Stop>
    ensures { (read : Leaf → Token) (t : Current) (rs : S.Rules) (b : Below) → on (view_home read b home) (λ k. Gives read t rs b result (M.want (M.lower (M.next k (view_types read types) (read slash))))) }
{
    match new_box(alloc, types) {
        Ok(types) => {
            let before = Before::Choices(types, slash);
            match new_box(alloc, AtType1 { home, before }) {
                Ok(at) => want(alloc, AtType2 { at, left: None }),
                Err(error) => {
                    drop(error);
                    Err(Stop::Memory)
                }
            }
        }
        Err(error) => {
            drop(error);
            drop(home);
            Err(Stop::Memory)
        }
    }
}

// After arguments and a comma.
#[tactic(none)]
pub(crate) fn next_argument(alloc: Global, arguments: GenericArg, comma: Leaf) -> Result<Next, Stop>
    ensures { (read : Leaf → Token) (t : Current) (rs : S.Rules) (b : Below) → on (as_reference b) (λ r. Gives read t rs b result (M.after_argument r.0 r.1 r.2 (view_arg read arguments) Comma (read comma))) }
{
    match new_box(alloc, arguments) {
        Ok(arguments) => open_argument(alloc, Some(Arguments { arguments, comma })),
        Err(error) => {
            drop(error);
            Err(Stop::Memory)
        }
    }
}

// After the key of an entry.
#[tactic(none)]
pub(crate) fn value_at(alloc: Global, occur: Option<Leaf>, key: MemberKey) -> Result<Next, Stop>
    ensures { (read : Leaf → Token) (t : Current) (rs : S.Rules) (b : Below) → on (as_entry b) (λ p. Gives read t rs b result (M.open_value p (leaf read occur) (view_key read key))) }
{
    match new_box(alloc, key) {
        Ok(key) => open_type(alloc, Home::ValueOf(occur, key)),
        Err(error) => {
            drop(error);
            Err(Stop::Memory)
        }
    }
}

// After the `^` of a key.
#[tactic(none)]
pub(crate) fn want_arrow(
    alloc: Global,
    occur: Option<Leaf>,
    type1: Type1,
    cut: Leaf,
) -> Result<Next, Stop>
    ensures { (read : Leaf → Token) (t : Current) (rs : S.Rules) (b : Below) → on (as_entry b) (λ p. Gives read t rs b result (M.want_arrow p (leaf read occur) (view_type1 read type1) (read cut))) }
{
    match new_box(alloc, type1) {
        Ok(type1) => match new_box(alloc, Now::WantArrow(occur, type1, cut)) {
            Ok(now) => Ok(Next::Within(now)),
            Err(error) => {
                drop(error);
                Err(Stop::Memory)
            }
        },
        Err(error) => {
            drop(error);
            Err(Stop::Memory)
        }
    }
}

// After a group in parentheses that is an entry.
#[tactic(none)]
pub(crate) fn have_group(alloc: Global, grpent: GrpEnt) -> Result<Next, Stop>
    ensures { (read : Leaf → Token) (t : Current) (rs : S.Rules) (b : Below) → on (as_entry b) (λ p. Gives read t rs b result (M.have_group p (view_grpent read grpent))) }
{
    match new_box(alloc, grpent) {
        Ok(grpent) => match new_box(alloc, Now::HaveGroup(grpent)) {
            Ok(now) => Ok(Next::Within(now)),
            Err(error) => {
                drop(error);
                Err(Stop::Memory)
            }
        },
        Err(error) => {
            drop(error);
            Err(Stop::Memory)
        }
    }
}

// After a whole rule.
#[tactic(none)]
pub(crate) fn rule_ends(alloc: Global, rule: Rule) -> Result<Next, Stop>
    ensures { (read : Leaf → Token) (t : Current) (rs : S.Rules) (b : Below) (m : M.State) → m ≡ M.next_rule (S.rules rs (view_rule read rule)) t.kind (read t.leaf) → Gives read t rs b result m }
{
    match new_box(alloc, rule) {
        Ok(rule) => Ok(Next::Ended(rule)),
        Err(error) => {
            drop(error);
            Err(Stop::Memory)
        }
    }
}
