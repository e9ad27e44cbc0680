//! Types that are asked in rules with parameters, whose arguments stand where the rule is named.

ghost use Rattle.std.specs.Prelude.{◌≡◌, ◌↔◌, IfNone, IfSome, IsTrue, Some};
ghost use Rattle.source_places.specs.States.{AreSplicedFrom, IsAskedIn, IsAskedThere, IsAway, IsTypeOrAsked, IsTyped, IsUnfilled, IsUnfilledIn, IsUnfilledOf, IsValueAsked, asking};
ghost use Rattle.source_pieces.specs.declared.piece.PieceAt.{PieceAt as Piece};

use crate::place::has_key;
use crate::sources::TypesInText;
use source_pieces::PieceAt;
use table_making::TypeOrigin;
use table_nodes::TypeId;
use type_links::Link;

impl TypesInText {
    // Where the type of a value is asked that is known at no entry: at the value's type in an entry with this key, in a rule with
    // parameters; or where no such entry is there either, in the map.
    pub(crate) fn value_asked(
        &self,
        number: u32,
        found: Option<PieceAt>,
        names: &[bool],
        key: TypeId,
        link: Link,
    ) -> Option<PieceAt>
        requires { AreSplicedFrom self.now found names.now }
        ensures some { IfSome result (IsValueAsked self.now number found key link) }
        ensures none { IfNone result ((a : Piece) → IsValueAsked self.now number found key link a → ⊥) }
    {
        match self.unfilled_by(number, found, names, key, link) {
            Some(value) => Some(value),
            None => self.asked_in(found, link),
        }
    }

    // The first place of the value's type in an entry that has this type as its key, in a rule with parameters and with another number,
    // where the other link is to a type too.
    fn unfilled_by(
        &self,
        number: u32,
        found: Option<PieceAt>,
        names: &[bool],
        key: TypeId,
        link: Link,
    ) -> Option<PieceAt>
        requires { AreSplicedFrom self.now found names.now }
        ensures some { IfSome result (IsUnfilledIn self.now number found key link) }
        ensures none { IfNone result ((a : Piece) → IsUnfilledIn self.now number found key link a → ⊥) }
    {
        let key = self.origin_of(Link::Type(key))?;
        self.origin_of(link)?;
        let piece = self.first_unfilled(number, found, names, key)?;
        Some(asking(link, piece))
    }

    // What was found before, where the link is to a type.
    fn asked_in(&self, found: Option<PieceAt>, link: Link) -> Option<PieceAt>
        ensures some { IfSome result (IsAskedIn self.now found link) }
        ensures none { IfNone result ((a : Piece) → IsAskedIn self.now found link a → ⊥) }
    {
        let place = found?;
        self.origin_of(link)?;
        Some(asking(link, place))
    }

    // The first place in the rules of the name that is of the type to which the link is, within what was found before; or that, where
    // such a type stands elsewhere.
    pub(crate) fn type_or_asked(
        &self,
        number: u32,
        found: Option<PieceAt>,
        link: Link,
    ) -> Option<PieceAt>
        ensures some { IfSome result (IsTypeOrAsked self.now number found link) }
        ensures none { IfNone result ((a : Piece) → IsTypeOrAsked self.now number found link a → ⊥) }
    {
        match self.type_in(number, found, link) {
            Some(piece) => Some(piece),
            None => self.asked_there(number, found, link),
        }
    }

    fn asked_there(&self, number: u32, found: Option<PieceAt>, link: Link) -> Option<PieceAt>
        ensures some { IfSome result (IsAskedThere self.now number found link) }
        ensures none { IfNone result ((a : Piece) → IsAskedThere self.now number found link a → ⊥) }
    {
        let Some(place) = found else {
            return None;
        };
        if self.is_away(place, number) {
            self.asked_in(found, link)
        } else {
            None
        }
    }

    // Whether types may be asked there that stand elsewhere: one is, or it is in a rule with parameters.
    fn is_away(&self, place: PieceAt, number: u32) -> bool
        ensures { IsTrue result ↔ IsAway self.now number place }
    {
        match place.asked {
            Some(_) => true,
            None => self.is_unfilled(place, number),
        }
    }

    fn first_unfilled(
        &self,
        number: u32,
        found: Option<PieceAt>,
        names: &[bool],
        key: TypeOrigin,
    ) -> Option<PieceAt>
        requires { AreSplicedFrom self.now found names.now }
        ensures some { IfSome result (IsUnfilledOf self.now number found key) }
        ensures none { IfNone result ((a : Piece) → IsUnfilledOf self.now number found key a → ⊥) }
    {
        for piece in &self.pieces {
            if is_keyed(*piece, key)
                && self.is_unfilled(*piece, number)
                && self.is_in_map_from(*piece, number, found, names)
            {
                return Some(*piece);
            }
        }
        None
    }

    // Whether the piece is in a rule with parameters, and with another number.
    fn is_unfilled(&self, piece: PieceAt, number: u32) -> bool
        ensures { IsTrue result ↔ IsUnfilled self.now number piece }
    {
        match self.rules.get(piece.rule) {
            Some(rule) => rule.is_generic && rule.number != number,
            None => false,
        }
    }
}

// Whether it is of some type, in an entry whose key is of this.
fn is_keyed(piece: PieceAt, key: TypeOrigin) -> bool
    ensures { IsTrue result ↔ (IsTyped piece × (piece.key ≡ Some key)) }
{
    match piece.origin {
        Some(_) => has_key(piece, key),
        None => false,
    }
}

// The piece, where this type is asked.
fn asking(link: Link, piece: PieceAt) -> PieceAt
    ensures { result ≡ asking link piece }
{
    PieceAt {
        asked: Some(link),
        ..piece
    }
}
