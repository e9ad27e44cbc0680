//! The names that stand for groups of other rules, of which the entries may be those of a map.

ghost use Rattle.std.specs.Prelude.{◌≡◌, ◌↔◌, ◌++◌, ℕ, Contains, IfOk, IfSome, IsTrue, None, OnOk, Some, option_to_list, slice_get, true};
ghost use Rattle.source_places.specs.States.{AreSpliced, AreSplicedFrom, AreSteps, HasGrown, IsBetween, IsFlagged, IsInBody, IsStep, by_itself, fact_of, from_one, plain_name, unwrapped_name};
ghost use Rattle.source_pieces.specs.declared.piece.NameAt.{NameAt as Name};

use crate::place::{is_between, is_round};
use crate::sources::TypesInText;
use graphs::implications::{Implication, following};
use source_pieces::{NameAt, PieceAt};
use std::alloc::{AllocError, Global};

impl TypesInText {
    // For each name whether it stands for entries of the map that was found before.
    pub(crate) fn spliced_from(
        &self,
        alloc: Global,
        found: Option<PieceAt>,
    ) -> Result<Vec<bool>, AllocError>
        ensures { IfOk result (λ flags. AreSplicedFrom self.now found flags.items) }
    {
        match found {
            Some(map) => self.spliced(alloc, map),
            None => Ok(Vec::new(alloc)),
        }
    }

    fn spliced(&self, alloc: Global, map: PieceAt) -> Result<Vec<bool>, AllocError>
        ensures { IfOk result (λ flags. AreSpliced self.now map flags.items) }
    {
        let steps = self.steps(alloc, map)?;
        match self.names.checked_mul(2) {
            Some(facts) => following(alloc, facts, &steps),
            None => Err(AllocError),
        }
    }

    // What follows from each piece.
    fn steps(&self, alloc: Global, map: PieceAt) -> Result<Vec<Implication>, AllocError>
        ensures { IfOk result (λ steps. AreSteps (IsStep self.now map) steps.items) }
    {
        let mut steps = Vec::new(alloc);
        for piece in &self.pieces {
            self.push_steps(&mut steps, map, *piece)?;
        }
        Ok(steps)
    }

    // What follows from one.
    fn push_steps(
        &self,
        steps: &mut Vec<Implication>,
        map: PieceAt,
        piece: PieceAt,
    ) -> Result<(), AllocError>
        ensures { OnOk result (Contains self.now.pieces.items piece → HasGrown (IsStep self.now map piece) steps.old.items steps.new.items) }
    {
        let Some(name) = member_name(piece) else {
            return Ok(());
        };
        push_step(steps, step_in_map(map, piece, name))?;
        let body = self.body_name(piece);
        push_step(steps, step_in_group(name, body))?;
        push_step(steps, step_alone(name, body))
    }

    // The name that stands for the piece's group, if one does.
    pub(crate) fn body_name(&self, piece: PieceAt) -> Option<NameAt>
        ensures some { IfSome result (IsInBody self.now piece) }
        ensures all { (n : Name) → IsInBody self.now piece n → result ≡ Some n }
    {
        let rule = self.rules.get(piece.rule)?;
        match piece.around {
            None => Some(NameAt {
                number: rule.number,
                is_unwrapped: false,
            }),
            Some(_) if is_round(piece, Some(rule.body)) => Some(NameAt {
                number: rule.number,
                is_unwrapped: true,
            }),
            Some(_) => None,
        }
    }

    // Whether a name that stands for the piece's group has a flag.
    pub(crate) fn is_flagged(&self, piece: PieceAt, flags: &[bool]) -> bool
        ensures { IsTrue result ↔ IsFlagged self.now flags.now piece }
    {
        match self.body_name(piece) {
            Some(name) => has_flag(flags, name),
            None => false,
        }
    }
}

// The name of a member of the map stands for entries that are its.
fn step_in_map(map: PieceAt, piece: PieceAt, name: NameAt) -> Option<Implication>
    ensures some { IfSome result (λ i. IsBetween map piece × (i ≡ by_itself (fact_of name))) }
    ensures all { IsBetween map piece → result ≡ Some (by_itself (fact_of name)) }
{
    if is_between(map, piece) {
        Some(Implication {
            then: fact_of(name),
            first: None,
            second: None,
        })
    } else {
        None
    }
}

// The name of a member of a group does so, if the name does for which the group stands.
fn step_in_group(name: NameAt, body: Option<NameAt>) -> Option<Implication>
    ensures some { IfSome result (λ i. (m : Name) × (body ≡ Some m) × (i ≡ from_one (fact_of name) (fact_of m))) }
    ensures all { (m : Name) → body ≡ Some m → result ≡ Some (from_one (fact_of name) (fact_of m)) }
{
    match body {
        Some(body) => Some(Implication {
            then: fact_of(name),
            first: Some(fact_of(body)),
            second: None,
        }),
        None => None,
    }
}

// After `~` the name that is all of a rule does so, if that of the rule does after `~`.
fn step_alone(name: NameAt, body: Option<NameAt>) -> Option<Implication>
    ensures some { IfSome result (λ i. (n m : ℕ) × (name ≡ plain_name n) × (body ≡ Some (plain_name m)) × (i ≡ from_one (fact_of (unwrapped_name n)) (fact_of (unwrapped_name m)))) }
    ensures all { (n m : ℕ) → name ≡ plain_name n → body ≡ Some (plain_name m) → result ≡ Some (from_one (fact_of (unwrapped_name n)) (fact_of (unwrapped_name m))) }
{
    match body {
        Some(body) if !name.is_unwrapped && !body.is_unwrapped => Some(Implication {
            then: fact_of(unwrapped(name)),
            first: Some(fact_of(unwrapped(body))),
            second: None,
        }),
        _ => None,
    }
}

// The same name after `~`.
fn unwrapped(name: NameAt) -> NameAt
    ensures { result ≡ unwrapped_name name.number }
{
    NameAt {
        is_unwrapped: true,
        ..name
    }
}

// The number that a name has among facts.
fn fact_of(name: NameAt) -> usize
    ensures { result ≡ fact_of name }
{
    let first = 2 * name.number as usize;
    if name.is_unwrapped { first + 1 } else { first }
}

pub(crate) fn push_step(
    steps: &mut Vec<Implication>,
    step: Option<Implication>,
) -> Result<(), AllocError>
    ensures { OnOk result (steps.new.items ≡ steps.old.items ++ option_to_list step) }
{
    match step {
        Some(step) => {
            steps.push(step)?;
            Ok(())
        }
        None => Ok(()),
    }
}

// The name that a member is, if the piece is one.
pub(crate) fn member_name(piece: PieceAt) -> Option<NameAt>
    ensures some { IfSome result (λ n. (piece.entry ≡ None) × (piece.name ≡ Some n)) }
    ensures all { (n : Name) → piece.entry ≡ None → piece.name ≡ Some n → result ≡ Some n }
{
    match piece.entry {
        Some(_) => None,
        None => piece.name,
    }
}

fn has_flag(flags: &[bool], name: NameAt) -> bool
    ensures { IsTrue result ↔ (slice_get flags.now (fact_of name) ≡ Some true) }
{
    match flags.get(fact_of(name)) {
        Some(flag) => *flag,
        None => false,
    }
}
