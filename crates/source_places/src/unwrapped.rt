//! The entries that `~` and a name stand for in an array: those in the brackets of the rule of that name, or of the name that is all of
//! that rule.

ghost use Rattle.std.specs.Prelude.{◌≡◌, ◌↔◌, Contains, IfNone, IfOk, IfSome, IsTrue, Some, slice_get, true};
ghost use Rattle.graphs.specs.declared.implications.Implication.{Implication as Step};
ghost use Rattle.source_places.specs.States.{AreMarked, AreSteps, IsAloneStep, IsEntryInBody, IsInMarked};
ghost use Rattle.source_pieces.specs.declared.piece.PieceAt.{PieceAt as Piece};

use crate::place::is_placed;
use crate::sources::TypesInText;
use crate::spliced::{member_name, push_step};
use graphs::implications::{Implication, following};
use source_pieces::PieceAt;
use std::alloc::{AllocError, Global};

impl TypesInText {
    // The first entry that `~` and the name of this number stand for.
    pub(crate) fn entry_unwrapped(
        &self,
        alloc: Global,
        number: u32,
        alternative: usize,
        place: usize,
    ) -> Result<Option<PieceAt>, AllocError>
        ensures some { IfOk result (λ o. IfSome o (IsEntryInBody self.now number alternative place)) }
        ensures none { IfOk result (λ o. IfNone o ((a : Piece) → IsEntryInBody self.now number alternative place a → ⊥)) }
    {
        let marked = self.marked(alloc, number)?;
        Ok(self.first_in_body(number, &marked, alternative, place))
    }

    // For each number of a name whether `~` gives of it what it gives of the name of this number.
    fn marked(&self, alloc: Global, number: u32) -> Result<Vec<bool>, AllocError>
        ensures { IfOk result (λ flags. AreMarked self.now number flags.items) }
    {
        let mut steps = self.alone_steps(alloc)?;
        steps.push(Implication {
            then: number as usize,
            first: None,
            second: None,
        })?;
        following(alloc, self.names, &steps)
    }

    // What follows from each piece.
    fn alone_steps(&self, alloc: Global) -> Result<Vec<Implication>, AllocError>
        ensures { IfOk result (λ steps. AreSteps (IsAloneStep self.now) steps.items) }
    {
        let mut steps = Vec::new(alloc);
        for piece in &self.pieces {
            push_step(&mut steps, self.alone_step(*piece))?;
        }
        Ok(steps)
    }

    // What follows from one: the name that is all of a rule is marked, if the name of the rule is.
    fn alone_step(&self, piece: PieceAt) -> Option<Implication>
        ensures some { IfSome result (λ i. Contains self.now.pieces.items piece → IsAloneStep self.now piece i) }
        ensures all { (i : Step) → IsAloneStep self.now piece i → result ≡ Some i }
    {
        let name = member_name(piece)?;
        let body = self.body_name(piece)?;
        if name.is_unwrapped || body.is_unwrapped {
            return None;
        }
        Some(Implication {
            then: name.number as usize,
            first: Some(body.number as usize),
            second: None,
        })
    }

    // The first entry in brackets that are the body of a rule whose name is marked.
    fn first_in_body(
        &self,
        number: u32,
        marked: &[bool],
        alternative: usize,
        place: usize,
    ) -> Option<PieceAt>
        requires { AreMarked self.now number marked.now }
        ensures some { IfSome result (IsEntryInBody self.now number alternative place) }
        ensures none { IfNone result ((a : Piece) → IsEntryInBody self.now number alternative place a → ⊥) }
    {
        for piece in &self.pieces {
            if is_placed(piece.entry, alternative, place) && self.is_in_marked(*piece, marked) {
                return Some(*piece);
            }
        }
        None
    }

    // Whether the piece is in brackets that are the body of a rule whose name is marked.
    fn is_in_marked(&self, piece: PieceAt, marked: &[bool]) -> bool
        ensures { IsTrue result ↔ IsInMarked self.now marked.now piece }
    {
        match self.body_name(piece) {
            Some(name) => name.is_unwrapped && is_marked(marked, name.number),
            None => false,
        }
    }
}

fn is_marked(marked: &[bool], number: u32) -> bool
    ensures { IsTrue result ↔ (slice_get marked.now number ≡ Some true) }
{
    match marked.get(number as usize) {
        Some(flag) => *flag,
        None => false,
    }
}
