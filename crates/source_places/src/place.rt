//! Where a type of the table stands in the text, by what led to it.

ghost use Rattle.std.specs.Prelude.{◌≡◌, ◌↔◌, ℕ, ◌++◌, [], ◌∷◌, Contains, IfNone, IfOk, IfSome, IsTrue, List, None, Option, Some, false, slice_get};
ghost use Rattle.cddl_language.specs.Reading.{rules_of};
ghost use Rattle.cddl_language.specs.Terms.{Ref, Term};
ghost use Rattle.check_terms.specs.Table.{Table as TermTable};
ghost use Rattle.table_making.specs.Basis.{Sense};
ghost use Rattle.table_making.specs.Nodes.{IsNameOfType};
ghost use Rattle.table_making.specs.declared.making.Nodes.{Nodes};
ghost use Rattle.tree_nodes.specs.Syntax.Syntax as S;
ghost use Rattle.type_links.specs.declared.link.Link.{Link as ALink};
ghost use Rattle.source_places.specs.Places.{IsOfNoRule, IsPlace};
ghost use Rattle.source_pieces.specs.Instances.{has_arguments, term_in};
ghost use Rattle.source_places.specs.Sources.{AreTypesOf};
ghost use Rattle.source_places.specs.States.{AreNoPairIn, ArePairIn, HasNoRule, HasNumber, AreSplicedFrom, IsAlternative, IsBetween, IsEntryNamed, IsEntryOf, IsEntryOfName, IsEntryThere, AreNoEntry, IsFoundAfter, IsFrom, IsInside, IsKeyIn, IsKeyPlace, IsNarrowed, IsNoValue, IsOfLast, IsOfOrigin, IsOneIn, IsPlacedIn, IsRuleIn, IsStarted, IsStateAfter, IsStateOf, IsTold, IsTypeIn, IsInMapFrom, IsValueIn, LeadsIn, count_in, flattened, number_at, origin_at};
ghost use Rattle.source_pieces.specs.declared.piece.PieceAt.{PieceAt as Piece};

use crate::sources::TypesInText;
use source_pieces::laws::one_span;
use source_pieces::{EntryAt, PieceAt, Span};
use std::alloc::{AllocError, Global};
use table_making::TypeOrigin;
use table_nodes::TypeId;
use type_links::Link;

/// Where a type stands in the text of a specification.
#[derive(Clone, Copy, Debug, PartialEq, Eq)]
pub struct Place {
    /// The name of the rule, where it is defined: what stands between the offsets is the name.
    pub name: Span,
    /// The type, without parentheses round all of it. Where none of the types that led to it stands in the rule, it is all that the
    /// rule has after its sign, without such parentheses too.
    pub types: Span,
    /// How the type is written. What an argument brings is reported as it is written elsewhere, if it is, and not as the parameter in whose
    /// place it is; else it is what stands there.
    pub written: Span,
}

// An alternative of a rule as a group, with so many after it there.
#[derive(Clone, Copy)]
pub(crate) struct Alternative {
    // The place of the rule.
    pub(crate) rule: usize,
    pub(crate) own: usize,
}

// What the links so far have led to.
#[derive(Clone, Copy)]
pub(crate) struct State {
    // The number of the name of the last rule of the text.
    pub(crate) number: u32,
    // The place of the first rule of that name.
    pub(crate) rule: usize,
    // Whether no name of the prelude came since.
    pub(crate) is_inside: bool,
    // What was found last in the rules of that name.
    pub(crate) found: Option<PieceAt>,
    // The link after that, if one came. It is followed when the next one is known, which may lead somewhere with it: to the value of
    // an entry that has its type as its key, or to an entry of its alternative.
    pub(crate) held: Option<Link>,
}

impl TypesInText {
    // Where the last of the types to which these links lead stands in the text, of those that do.
    pub(crate) fn place(&self, alloc: Global, chain: &[Link]) -> Result<Option<Place>, AllocError>
        ensures some { IfOk result (λ o. IfSome o (λ p. (s : Sense) (terms : TermTable) (nodes : Nodes) (q : Ref) → AreTypesOf (term_in q) s terms nodes self.now → IsOfLast (IsNameOfType s terms nodes) q self.now chain.now → self.now.filled ≡ has_arguments q → IsPlace (rules_of s.tree) (IsNameOfType s terms nodes) chain.now p)) }
        ensures none { IfOk result (λ o. IfNone o ((s : Sense) (terms : TermTable) (nodes : Nodes) (closed : S.Rule → Term → Term) → AreTypesOf closed s terms nodes self.now → (m : ALink) → Contains chain.now m → IsOfNoRule (rules_of s.tree) (IsNameOfType s terms nodes) m)) }
    {
        let mut state = None;
        for link in chain {
            let new = self.step(alloc, state, *link)?;
            state = new;
        }
        self.told_last(alloc, state)
    }

    // The place that the last state tells, if there is one.
    fn told_last(&self, alloc: Global, state: Option<State>) -> Result<Option<Place>, AllocError>
        ensures some { IfOk result (λ o. IfSome o (λ p. (chain : List ALink) (s : Sense) (terms : TermTable) (nodes : Nodes) (q : Ref) → AreTypesOf (term_in q) s terms nodes self.now → IsOfLast (IsNameOfType s terms nodes) q self.now chain → self.now.filled ≡ has_arguments q → IsStateOf self.now chain state → IsPlace (rules_of s.tree) (IsNameOfType s terms nodes) chain p)) }
        ensures none { IfOk result (λ o. IfNone o ((chain : List ALink) (s : Sense) (terms : TermTable) (nodes : Nodes) (closed : S.Rule → Term → Term) → AreTypesOf closed s terms nodes self.now → IsStateOf self.now chain state → (m : ALink) → Contains chain m → IsOfNoRule (rules_of s.tree) (IsNameOfType s terms nodes) m)) }
    {
        match state {
            Some(state) => {
                let found = self.last_found(alloc, state)?;
                one_span();
                Ok(self.told(state, found))
            }
            None => Ok(None),
        }
    }

    // The place that a state tells, with what was found last.
    fn told(&self, state: State, found: Option<PieceAt>) -> Option<Place>
        ensures some { IfSome result (λ p. IsTold self.now state found p) }
        ensures none { IfNone result (IsRuleIn self.now state.rule → IfSome found (λ f. IsRuleIn self.now f.rule) → ⊥) }
    {
        match found {
            Some(piece) => {
                let rule = self.rules.get(piece.rule)?;
                Some(Place {
                    name: rule.name,
                    types: piece.span,
                    written: self.written(state.number, piece),
                })
            }
            None => {
                let rule = self.rules.get(state.rule)?;
                Some(Place {
                    name: rule.name,
                    types: rule.body,
                    written: rule.body,
                })
            }
        }
    }

    // One link further.
    fn step(
        &self,
        alloc: Global,
        state: Option<State>,
        link: Link,
    ) -> Result<Option<State>, AllocError>
        ensures { IfOk result (λ new. (ids : List ALink) → IsStateOf self.now ids state → IsStateOf self.now (ids ++ link ∷ []) new) }
    {
        match self.started(link) {
            Some(new) => Ok(Some(new)),
            None => match state {
                Some(state) => {
                    let new = self.narrowed(alloc, state, link)?;
                    Ok(Some(new))
                }
                None => Ok(None),
            },
        }
    }

    // Where a rule of the text begins.
    pub(crate) fn started(&self, link: Link) -> Option<State>
        ensures some { IfSome result (IsStarted self.now link) }
        ensures none { IfNone result (HasNoRule self.now link) }
    {
        let number = self.number_of(link)?;
        let rule = self.rule_of(number)?;
        Some(State {
            number,
            rule,
            is_inside: true,
            found: None,
            held: None,
        })
    }

    // The number of the name of which the type is an instance to which the link is.
    fn number_of(&self, link: Link) -> Option<u32>
        ensures { result ≡ number_at self.now link }
    {
        match self.origin_of(link) {
            Some(TypeOrigin::Instance(place)) => self.instance_name(place),
            _ => None,
        }
    }

    // The number of the name of the instance at this place.
    pub(crate) fn instance_name(&self, place: u32) -> Option<u32>
        ensures { result ≡ flattened (slice_get self.now.numbers.items place) }
    {
        *self.numbers.get(place as usize)?
    }

    // What the type is of to which the link is.
    pub(crate) fn origin_of(&self, link: Link) -> Option<TypeOrigin>
        ensures { result ≡ origin_at self.now link }
    {
        match link {
            Link::Type(id) => self.origins.get(id.number).copied(),
            Link::Alternative { .. } => None,
            Link::Entry { .. } => None,
            Link::Key(_) => None,
        }
    }

    // The place of the first rule with this number.
    fn rule_of(&self, number: u32) -> Option<usize>
        ensures some { IfSome result (λ i. HasNumber self.now i number) }
        ensures none { IfNone result ((i : ℕ) → HasNumber self.now i number → ⊥) }
    {
        for (place, rule) in self.rules.iter().enumerate() {
            if rule.number == number {
                return Some(place);
            }
        }
        None
    }

    // The state after a link that is to an instance of no rule of the text.
    fn narrowed(&self, alloc: Global, state: State, link: Link) -> Result<State, AllocError>
        ensures { IfOk result (λ new. (ids : List ALink) → HasNoRule self.now link → IsStateAfter self.now ids state → IsStateAfter self.now (ids ++ link ∷ []) new) }
    {
        if !state.is_inside {
            return Ok(state);
        }
        match self.origin_of(link) {
            Some(TypeOrigin::Instance(_)) => Ok(outside(state)),
            _ => self.narrowed_to(alloc, state, link),
        }
    }

    // The state after a link in the rule.
    fn narrowed_to(&self, alloc: Global, state: State, link: Link) -> Result<State, AllocError>
        ensures { IfOk result (IsNarrowed self.now state link) }
    {
        match state.held {
            Some(first) => self.narrowed_by(alloc, state, first, link),
            None => Ok(State {
                held: Some(link),
                ..state
            }),
        }
    }

    // The same, where this link is held back: the two lead somewhere together, or the first of them is followed alone.
    fn narrowed_by(
        &self,
        alloc: Global,
        state: State,
        first: Link,
        link: Link,
    ) -> Result<State, AllocError>
        requires { state.held ≡ Some first }
        ensures { IfOk result (IsNarrowed self.now state link) }
    {
        let pair = self.pair_in(alloc, state.number, state.found, first, link)?;
        match pair {
            Some(piece) => Ok(State {
                found: Some(piece),
                held: None,
                ..state
            }),
            None => {
                let found = self.found_by(alloc, state.number, state.found, first)?;
                Ok(State {
                    found,
                    held: Some(link),
                    ..state
                })
            }
        }
    }

    // What is found last, where no link comes any more.
    fn last_found(&self, alloc: Global, state: State) -> Result<Option<PieceAt>, AllocError>
        ensures { IfOk result (λ o. (ids : List ALink) → IsFoundAfter self.now state ids → LeadsIn self.now state.number None ids o) }
    {
        match state.held {
            Some(link) => self.found_by(alloc, state.number, state.found, link),
            None => Ok(state.found),
        }
    }

    // What is found last, once a link is followed that leads nowhere with the next one.
    fn found_by(
        &self,
        alloc: Global,
        number: u32,
        found: Option<PieceAt>,
        link: Link,
    ) -> Result<Option<PieceAt>, AllocError>
        ensures { IfOk result (λ o. (ids : List ALink) (to : Option Piece) → AreNoPairIn self.now number found link ids → LeadsIn self.now number o ids to → LeadsIn self.now number found (link ∷ ids) to) }
    {
        let one = self.one_in(alloc, number, found, link)?;
        match one {
            Some(piece) => Ok(Some(piece)),
            None => Ok(found),
        }
    }

    // Where one link leads by itself, from what was found before.
    fn one_in(
        &self,
        alloc: Global,
        number: u32,
        found: Option<PieceAt>,
        link: Link,
    ) -> Result<Option<PieceAt>, AllocError>
        ensures some { IfOk result (λ o. IfSome o (IsOneIn self.now number found link)) }
        ensures none { IfOk result (λ o. IfNone o ((a : Piece) → IsOneIn self.now number found link a → ⊥)) }
    {
        match link {
            Link::Key(key) => self.key_in(alloc, number, found, key),
            Link::Type(_) => Ok(self.type_or_asked(number, found, link)),
            Link::Alternative { .. } => Ok(None),
            Link::Entry { .. } => Ok(None),
        }
    }

    // The first place in the rules of the name that is of the type to which the link is, within what was found before.
    pub(crate) fn type_in(&self, number: u32, found: Option<PieceAt>, link: Link) -> Option<PieceAt>
        ensures some { IfSome result (IsTypeIn self.now number found link) }
        ensures none { IfNone result ((a : Piece) → IsTypeIn self.now number found link a → ⊥) }
    {
        let origin = self.origin_of(link)?;
        self.first_type(number, found, origin)
    }

    // Where two links lead together, within what was found before.
    fn pair_in(
        &self,
        alloc: Global,
        number: u32,
        found: Option<PieceAt>,
        first: Link,
        link: Link,
    ) -> Result<Option<PieceAt>, AllocError>
        ensures some { IfOk result (λ o. IfSome o (ArePairIn self.now number found first link)) }
        ensures none { IfOk result (λ o. IfNone o ((a : Piece) → ArePairIn self.now number found first link a → ⊥)) }
    {
        match first {
            Link::Key(key) => self.value_in(alloc, number, found, key, link),
            Link::Alternative { after } => self.entry_after(alloc, number, found, after, link),
            Link::Entry { .. } => Ok(None),
            Link::Type(_) => Ok(None),
        }
    }

    // Where this link leads after the one to an alternative.
    fn entry_after(
        &self,
        alloc: Global,
        number: u32,
        found: Option<PieceAt>,
        alternative: usize,
        link: Link,
    ) -> Result<Option<PieceAt>, AllocError>
        ensures some { IfOk result (λ o. IfSome o (ArePairIn self.now number found (Link.Alternative alternative) link)) }
        ensures none { IfOk result (λ o. IfNone o ((a : Piece) → ArePairIn self.now number found (Link.Alternative alternative) link a → ⊥)) }
    {
        match link {
            Link::Entry { after } => self.entry_in(alloc, found, alternative, after),
            Link::Type(_) => Ok(None),
            Link::Alternative { .. } => Ok(None),
            Link::Key(_) => Ok(None),
        }
    }

    // The first place of the key of an entry that has this type as its key.
    fn key_in(
        &self,
        alloc: Global,
        number: u32,
        found: Option<PieceAt>,
        key: TypeId,
    ) -> Result<Option<PieceAt>, AllocError>
        ensures some { IfOk result (λ o. IfSome o (IsKeyIn self.now number found key)) }
        ensures none { IfOk result (λ o. IfNone o ((a : Piece) → IsKeyIn self.now number found key a → ⊥)) }
    {
        let names = self.spliced_from(alloc, found)?;
        Ok(self.key_by(number, found, &names, key))
    }

    // The same, by the names of the groups whose entries are the map's.
    fn key_by(
        &self,
        number: u32,
        found: Option<PieceAt>,
        names: &[bool],
        key: TypeId,
    ) -> Option<PieceAt>
        requires { AreSplicedFrom self.now found names.now }
        ensures some { IfSome result (IsKeyIn self.now number found key) }
        ensures none { IfNone result ((a : Piece) → IsKeyIn self.now number found key a → ⊥) }
    {
        let origin = self.origin_of(Link::Type(key))?;
        self.first_key(number, found, names, origin)
    }

    // The first place of the value's type in an entry that has these types as its key and as its value; or where none is known to have
    // both, where it is asked.
    fn value_in(
        &self,
        alloc: Global,
        number: u32,
        found: Option<PieceAt>,
        key: TypeId,
        link: Link,
    ) -> Result<Option<PieceAt>, AllocError>
        ensures some { IfOk result (λ o. IfSome o (ArePairIn self.now number found (Link.Key key) link)) }
        ensures none { IfOk result (λ o. IfNone o ((a : Piece) → IsNoValue self.now number found key link a)) }
    {
        let names = self.spliced_from(alloc, found)?;
        match self.value_by(number, found, &names, key, link) {
            Some(value) => Ok(Some(value)),
            None => Ok(self.value_asked(number, found, &names, key, link)),
        }
    }

    // The same, by the names of the groups whose entries are the map's.
    fn value_by(
        &self,
        number: u32,
        found: Option<PieceAt>,
        names: &[bool],
        key: TypeId,
        link: Link,
    ) -> Option<PieceAt>
        requires { AreSplicedFrom self.now found names.now }
        ensures some { IfSome result (IsValueIn self.now number found key link) }
        ensures none { IfNone result ((a : Piece) → IsValueIn self.now number found key link a → ⊥) }
    {
        let key = self.origin_of(Link::Type(key))?;
        let origin = self.origin_of(link)?;
        self.first_value(number, found, names, key, origin)
    }

    // The place of an entry of the group that what was found before is, in its brackets or for which its name stands.
    fn entry_in(
        &self,
        alloc: Global,
        found: Option<PieceAt>,
        alternative: usize,
        place: usize,
    ) -> Result<Option<PieceAt>, AllocError>
        ensures some { IfOk result (λ o. IfSome o (IsEntryOf self.now found alternative place)) }
        ensures none { IfOk result (λ o. IfNone o ((a : Piece) → IsEntryOf self.now found alternative place a → ⊥)) }
    {
        let Some(around) = found else {
            return Ok(None);
        };
        match self.first_entry(around.rule, Some(around.span), alternative, place) {
            Some(entry) => Ok(Some(entry)),
            None => self.entry_called(alloc, around, alternative, place),
        }
    }

    // The same by its name.
    fn entry_called(
        &self,
        alloc: Global,
        around: PieceAt,
        alternative: usize,
        place: usize,
    ) -> Result<Option<PieceAt>, AllocError>
        ensures some { IfOk result (λ o. IfSome o (IsEntryOf self.now (Some around) alternative place)) }
        ensures none { IfOk result (λ o. IfNone o ((a : Piece) → AreNoEntry self.now around alternative place a)) }
    {
        let Some(name) = around.name else {
            return Ok(None);
        };
        if name.is_unwrapped {
            self.entry_unwrapped(alloc, name.number, alternative, place)
        } else {
            Ok(self.entry_named(name.number, alternative, place))
        }
    }

    // An entry of the group of this name.
    fn entry_named(&self, name: u32, alternative: usize, place: usize) -> Option<PieceAt>
        ensures some { IfSome result (IsEntryOfName self.now name alternative place) }
        ensures none { IfNone result ((a : Piece) → IsEntryOfName self.now name alternative place a → ⊥) }
    {
        let found = self.alternative_in(name, alternative)?;
        self.first_entry(found.rule, None, found.own, place)
    }

    // How many alternatives the rule at this place makes, if it has this number.
    fn count_at(&self, rule: usize, number: u32) -> usize
        ensures { result ≡ count_in number (slice_get self.now.rules.items rule) }
    {
        match self.rules.get(rule) {
            Some(at) if at.number == number => at.alternatives,
            _ => 0,
        }
    }

    // The rule of this number that has an alternative with so many after it in all rules of the number.
    fn alternative_in(&self, number: u32, alternative: usize) -> Option<Alternative>
        ensures some { IfSome result (λ f. IsAlternative self.now number alternative f.rule f.own) }
        ensures none { IfNone result ((i own : ℕ) → IsAlternative self.now number alternative i own → ⊥) }
    {
        let mut own = alternative;
        let mut left = self.rules.len();
        'rules: while left > 0 {
            left -= 1;
            let count = self.count_at(left, number);
            if own < count {
                return Some(Alternative { rule: left, own });
            }
            own -= count;
        }
        None
    }

    // The first place that is of this, within what was found before, or in the rules of the name.
    fn first_type(&self, number: u32, found: Option<PieceAt>, origin: TypeOrigin) -> Option<PieceAt>
        ensures some { IfSome result (λ a. IsOfOrigin self.now origin a × IsFrom self.now number found a) }
        ensures none { IfNone result ((a : Piece) → IsOfOrigin self.now origin a → IsFrom self.now number found a → ⊥) }
    {
        for piece in &self.pieces {
            if self.is_next(*piece, number, found, origin) {
                return Some(*piece);
            }
        }
        None
    }

    // The first place of a key of an entry that is of this.
    fn first_key(
        &self,
        number: u32,
        found: Option<PieceAt>,
        names: &[bool],
        origin: TypeOrigin,
    ) -> Option<PieceAt>
        requires { AreSplicedFrom self.now found names.now }
        ensures some { IfSome result (λ a. IsKeyPlace self.now origin a × IsInMapFrom self.now number found a) }
        ensures none { IfNone result ((a : Piece) → IsKeyPlace self.now origin a → IsInMapFrom self.now number found a → ⊥) }
    {
        for piece in &self.pieces {
            if is_key(*piece, origin) && self.is_in_map_from(*piece, number, found, names) {
                return Some(*piece);
            }
        }
        None
    }

    // The first place of the value's type in an entry, by what both are of.
    fn first_value(
        &self,
        number: u32,
        found: Option<PieceAt>,
        names: &[bool],
        key: TypeOrigin,
        origin: TypeOrigin,
    ) -> Option<PieceAt>
        requires { AreSplicedFrom self.now found names.now }
        ensures some { IfSome result (λ a. IsOfOrigin self.now origin a × IsInMapFrom self.now number found a × (a.key ≡ Some key)) }
        ensures none { IfNone result ((a : Piece) → IsOfOrigin self.now origin a → IsInMapFrom self.now number found a → a.key ≡ Some key → ⊥) }
    {
        for piece in &self.pieces {
            if is_value(*piece, key, origin) && self.is_in_map_from(*piece, number, found, names) {
                return Some(*piece);
            }
        }
        None
    }

    // The first entry in this rule of the group with this round it.
    fn first_entry(
        &self,
        rule: usize,
        around: Option<Span>,
        alternative: usize,
        place: usize,
    ) -> Option<PieceAt>
        ensures some { IfSome result (IsEntryThere self.now rule around alternative place) }
        ensures none { IfNone result ((a : Piece) → IsEntryThere self.now rule around alternative place a → ⊥) }
    {
        for piece in &self.pieces {
            if is_there(*piece, rule, around, alternative, place) {
                return Some(*piece);
            }
        }
        None
    }

    // Whether the place is of this, and within what was found before, or in a rule with this number.
    fn is_next(
        &self,
        piece: PieceAt,
        number: u32,
        found: Option<PieceAt>,
        origin: TypeOrigin,
    ) -> bool
        ensures is { IsTrue result ↔ ((piece.origin ≡ Some origin) × IsFrom self.now number found piece) }
    {
        is_of(piece, origin) && self.is_from(piece, number, found)
    }

    fn is_from(&self, piece: PieceAt, number: u32, found: Option<PieceAt>) -> bool
        ensures is { IsTrue result ↔ IsFrom self.now number found piece }
    {
        match found {
            Some(outer) => is_inside(outer, piece),
            None => self.is_named(piece.rule, number),
        }
    }

    // Whether the key or the value is in an entry of the map that was found before, of whose groups these are the names, or in a rule
    // with this number.
    pub(crate) fn is_in_map_from(
        &self,
        piece: PieceAt,
        number: u32,
        found: Option<PieceAt>,
        names: &[bool],
    ) -> bool
        requires { AreSplicedFrom self.now found names.now }
        ensures is { IsTrue result ↔ IsInMapFrom self.now number found piece }
    {
        match found {
            Some(map) => is_between(map, piece) || self.is_flagged(piece, names),
            None => self.is_named(piece.rule, number),
        }
    }

    // Whether the rule at this place has this number.
    pub(crate) fn is_named(&self, rule: usize, number: u32) -> bool
        ensures { IsTrue result ↔ HasNumber self.now rule number }
    {
        match self.rules.get(rule) {
            Some(at) => at.number == number,
            None => false,
        }
    }
}

// Whether the place lies within the other.
fn is_inside(outer: PieceAt, piece: PieceAt) -> bool
    ensures { IsTrue result ↔ IsInside outer piece }
{
    piece.rule == outer.rule
        && outer.span.first <= piece.span.first
        && piece.span.end <= outer.span.end
}

// Whether its group has the ends of the other round it.
pub(crate) fn is_between(outer: PieceAt, piece: PieceAt) -> bool
    ensures { IsTrue result ↔ IsBetween outer piece }
{
    piece.rule == outer.rule && is_round(piece, Some(outer.span))
}

// Whether the piece has this round its group.
pub(crate) fn is_round(piece: PieceAt, around: Option<Span>) -> bool
    ensures { IsTrue result ↔ (piece.around ≡ around) }
{
    piece.around == around
}

// Whether it is of this.
pub(crate) fn is_of(piece: PieceAt, origin: TypeOrigin) -> bool
    ensures { IsTrue result ↔ (piece.origin ≡ Some origin) }
{
    match piece.origin {
        Some(found) => found == origin,
        None => false,
    }
}

// Whether it is an entry in this rule, with this round its group, and with so many alternatives and so many entries after it.
fn is_there(
    piece: PieceAt,
    rule: usize,
    around: Option<Span>,
    alternative: usize,
    place: usize,
) -> bool
    ensures { IsTrue result ↔ ((piece.rule ≡ rule) × (piece.around ≡ around) × IsPlacedIn alternative place piece.entry) }
{
    piece.rule == rule && is_round(piece, around) && is_placed(piece.entry, alternative, place)
}

// Whether it is an entry with so many alternatives and so many entries after it.
pub(crate) fn is_placed(entry: Option<EntryAt>, alternative: usize, place: usize) -> bool
    ensures { IsTrue result ↔ IsPlacedIn alternative place entry }
{
    match entry {
        Some(entry) => entry.alternative == alternative && entry.place == place,
        None => false,
    }
}

// Whether it is of this as a value, in an entry whose key is of the other.
fn is_value(piece: PieceAt, key: TypeOrigin, origin: TypeOrigin) -> bool
    ensures { IsTrue result ↔ ((piece.origin ≡ Some origin) × (piece.key ≡ Some key)) }
{
    is_of(piece, origin) && has_key(piece, key)
}

// Whether it is the key of an entry that is of this.
fn is_key(piece: PieceAt, key: TypeOrigin) -> bool
    ensures { IsTrue result ↔ ((piece.origin ≡ None) × (piece.key ≡ Some key)) }
{
    match piece.origin {
        Some(_) => false,
        None => has_key(piece, key),
    }
}

// Whether it is the key of an entry that is of this, or the type of the value in such an entry.
pub(crate) fn has_key(piece: PieceAt, key: TypeOrigin) -> bool
    ensures { IsTrue result ↔ (piece.key ≡ Some key) }
{
    match piece.key {
        Some(own) => own == key,
        None => false,
    }
}

// After a name of the prelude nothing more is looked for.
fn outside(state: State) -> State
    ensures { result ≡ record state { is_inside = false } }
{
    State {
        is_inside: false,
        ..state
    }
}
