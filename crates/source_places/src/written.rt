//! How a type is reported: where it is written with an argument, and not with the parameter in whose place that is.

ghost use Rattle.std.specs.Prelude.{◌≡◌, ◌↔◌, IfNone, IfSome, IsTrue, Some};
ghost use Rattle.source_places.specs.States.{IsElsewhere, IsOther, IsWrittenIn, sought_in, told_origin};
ghost use Rattle.source_pieces.specs.declared.piece.PieceAt.{PieceAt as Piece};

use crate::place::is_of;
use crate::sources::TypesInText;
use source_pieces::{PieceAt, Span};
use table_making::TypeOrigin;

impl TypesInText {
    // How the type is written that was found in the rules with this number.
    pub(crate) fn written(&self, number: u32, found: PieceAt) -> Span
        ensures { IsWrittenIn self.now number (sought_in self.now found) found.span result }
    {
        match self.sought(found) {
            Some(origin) => self.written_of(number, origin, found.span),
            None => found.span,
        }
    }

    // Of what the type is that may be written elsewhere: the one that is asked there; or with arguments the one that stands there.
    fn sought(&self, found: PieceAt) -> Option<TypeOrigin>
        ensures { result ≡ sought_in self.now found }
    {
        match found.asked {
            Some(link) => self.origin_of(link),
            None if self.filled => told_origin(found),
            None => None,
        }
    }

    // How one is written that is of this.
    fn written_of(&self, number: u32, origin: TypeOrigin, own: Span) -> Span
        ensures { IsWrittenIn self.now number (Some origin) own result }
    {
        match self.first_elsewhere(number, origin) {
            Some(other) => other.span,
            None => own,
        }
    }

    // The first place that is of this; where there are arguments, in a rule with another number.
    fn first_elsewhere(&self, number: u32, origin: TypeOrigin) -> Option<PieceAt>
        ensures some { IfSome result (IsElsewhere self.now number origin) }
        ensures none { IfNone result ((b : Piece) → IsElsewhere self.now number origin b → ⊥) }
    {
        for piece in &self.pieces {
            if self.is_elsewhere(*piece, number, origin) {
                return Some(*piece);
            }
        }
        None
    }

    fn is_elsewhere(&self, piece: PieceAt, number: u32, origin: TypeOrigin) -> bool
        ensures is { IsTrue result ↔ ((piece.origin ≡ Some origin) × IsOther self.now number piece.rule) }
    {
        is_of(piece, origin) && self.is_other(piece.rule, number)
    }

    fn is_other(&self, rule: usize, number: u32) -> bool
        ensures is { IsTrue result ↔ IsOther self.now number rule }
    {
        !self.filled || !self.is_named(rule, number)
    }
}

// Of what it is, or its key, where it is that in its place there.
fn told_origin(piece: PieceAt) -> Option<TypeOrigin>
    ensures { result ≡ told_origin piece }
{
    match piece.origin {
        Some(origin) => Some(origin),
        None => piece.key,
    }
}
