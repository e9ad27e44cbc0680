//! The types in the text as they are in an instance, with its arguments in the place of parameters (RFC 8610 section 3.10).

ghost use Rattle.std.specs.Prelude.{◌≡◌, ◌<◌, ℕ, IfOk, List, None, Some, length, option_map, slice_get, true};
ghost use Rattle.cddl_language.specs.Reading.{definitions_in};
ghost use Rattle.cddl_language.specs.Substitution.{fill};
ghost use Rattle.cddl_language.specs.Terms.{Ref, Term, Text, arguments_of, name_of};
ghost use Rattle.check_terms.specs.Definitions.{AreDefinitions, AreTexts};
ghost use Rattle.check_terms.specs.declared.definition.Definition.{Definition as ADefinition};
ghost use Rattle.check_terms.specs.Filled.{term_trees};
ghost use Rattle.check_terms.specs.Fill.Slots.{ArePlacesOf};
ghost use Rattle.check_terms.specs.Fill.Templates.{AreTrees};
ghost use Rattle.check_terms.specs.Table.{Grows, Table};
ghost use Rattle.check_terms.specs.Trees.{IsTerm};
ghost use Rattle.check_terms.specs.declared.fill.slots.Slots.{Slots as SlotsOf};
ghost use Rattle.table_making.specs.declared.origin.TypeOrigin.{TypeOrigin as Origin};
ghost use Rattle.tree_nodes.specs.Syntax.Syntax as S;
ghost use Rattle.source_pieces.specs.Filling.{ArePiecesFilled, IsFilled, IsFilling};
ghost use Rattle.source_pieces.specs.Instances.{all_as_written, as_written, term_in};
ghost use Rattle.source_pieces.specs.Origins.{ArePieces, IsClosedOrigin, MayBeClosed, MayBeOf};
ghost use Rattle.source_pieces.specs.Pieces.{Piece};
ghost use Rattle.source_pieces.specs.Rules.{AreRules};

use crate::piece::PieceAt;
use crate::rules::RuleAt;
use check_terms::fill::{Slots, Template};
use check_terms::laws::{filled_trees, growing_keeps, is_table};
use check_terms::{Definition, NoRoom, Terms, push};
use std::alloc::Global;
use table_making::TypeOrigin;

// What is put into the rules of a name.
#[derive(Drop)]
struct Filling<'a> {
    rules: &'a [RuleAt],
    // Of each rule the slots of its parameters.
    slots: &'a [Slots],
    // The number of the name.
    name: u32,
    // The rows of the arguments.
    arguments: &'a [u32],
}

/// The pieces of the text, which are as they are written, as they are in an instance that has arguments: in the rules of its name these
/// are in the place of the parameters. The table of terms has grown by what is new in it.
///
/// The definitions are those of the rules, in their order; the name is a number of a text, and the arguments are rows. It reads the
/// term of each piece of those rules once.
///
/// # Errors
///
/// Memory was refused, or a number does not fit.
pub fn filled(
    alloc: Global,
    terms: &mut Terms<'_>,
    definitions: &[Definition],
    rules: &[RuleAt],
    pieces: &[PieceAt],
    name: u32,
    arguments: &[u32],
) -> Result<Vec<PieceAt>, NoRoom>
    ensures grows { Grows terms.old terms.new }
    ensures filled { IfOk result (λ v. (t : Table) (rs : List S.Rule) (q : Ref) → Grows t terms.old → AreDefinitions t definitions.now (definitions_in rs) → AreRules t rs rules.now → ArePieces all_as_written t rs pieces.now → slice_get t.texts name ≡ Some (name_of q) → 0 < length arguments.now → AreTrees t arguments.now (term_trees (arguments_of q)) → ArePieces (term_in q) terms.new rs v.items) }
{
    growing_keeps();
    let slots = slots_of(alloc, definitions)?;
    let filling = Filling {
        rules,
        slots: &slots,
        name,
        arguments,
    };
    filling.pieces(alloc, terms, pieces)
}

// The slots of the parameters of each of these definitions.
fn slots_of(alloc: Global, definitions: &[Definition]) -> Result<Vec<Slots>, NoRoom>
    ensures { IfOk result (λ v. (i : ℕ) (x : SlotsOf) (d : ADefinition) → slice_get v.items i ≡ Some x → slice_get definitions.now i ≡ Some d → ArePlacesOf x d.parameters.items) }
{
    let mut slots = Vec::new(alloc);
    for definition in definitions {
        let its = Slots::new(alloc, &definition.parameters)?;
        push(&mut slots, its)?;
    }
    Ok(slots)
}

impl Filling<'_> {
    // All these pieces.
    fn pieces(
        &self,
        alloc: Global,
        terms: &mut Terms<'_>,
        pieces: &[PieceAt],
    ) -> Result<Vec<PieceAt>, NoRoom>
        ensures grows { Grows terms.old terms.new }
        ensures filled { IfOk result (λ v. (rs : List S.Rule) (q : Ref) → IsFilling terms.old rs self.now q → ArePiecesFilled rs q terms.old terms.new pieces.now v.items) }
    {
        growing_keeps();
        let mut filled = Vec::new(alloc);
        for piece in pieces {
            let made = self.piece(alloc, terms, *piece)?;
            push(&mut filled, made)?;
        }
        Ok(filled)
    }

    // A piece of a rule of the name as it is in the instance; another one as it is written.
    fn piece(&self, alloc: Global, terms: &mut Terms<'_>, piece: PieceAt) -> Result<PieceAt, NoRoom>
        ensures grows { Grows terms.old terms.new }
        ensures filled { IfOk result (λ b. (rs : List S.Rule) (q : Ref) → IsFilling terms.old rs self.now q → IsFilled rs q terms.old terms.new piece b) }
    {
        growing_keeps();
        is_table(terms);
        let Some(rule) = self.rule_at(piece.rule) else {
            return Err(NoRoom);
        };
        if rule.number != self.name {
            return Ok(piece);
        }
        let Some(slots) = self.slots_at(piece.rule) else {
            return Err(NoRoom);
        };
        let origin = self.origin(alloc, terms, slots, piece.origin)?;
        let key = self.origin(alloc, terms, slots, piece.key)?;
        Ok(PieceAt {
            origin,
            key,
            ..piece
        })
    }

    fn rule_at(&self, place: usize) -> Option<RuleAt>
        ensures { result ≡ slice_get self.now.rules.now place }
    {
        self.rules.get(place).copied()
    }

    fn slots_at(&self, place: usize) -> Option<&Slots>
        ensures { option_map (λ s. s.now) result ≡ slice_get self.now.slots.now place }
    {
        self.slots.get(place)
    }

    // Of what a piece is, or its key, in a rule with these slots of parameters.
    fn origin(
        &self,
        alloc: Global,
        terms: &mut Terms<'_>,
        slots: &Slots,
        origin: Option<TypeOrigin>,
    ) -> Result<Option<TypeOrigin>, NoRoom>
        ensures grows { Grows terms.old terms.new }
        ensures origin { IfOk result (λ o. (ks : List ℕ) (ps : List Text) (xs : List Term) → ArePlacesOf slots.now ks → AreTexts terms.old.texts ks ps → AreTrees terms.old self.now.arguments.now (term_trees xs) → (p : Piece) → MayBeOf terms.old p origin → MayBeClosed (fill ps xs) terms.new p o) }
        ensures none { IfOk result (λ o. origin ≡ None → o ≡ None) }
    {
        growing_keeps();
        match origin {
            Some(origin) => {
                let filled = self.own_origin(alloc, terms, slots, origin)?;
                Ok(Some(filled))
            }
            None => Ok(None),
        }
    }

    // The same of one that is of something.
    fn own_origin(
        &self,
        alloc: Global,
        terms: &mut Terms<'_>,
        slots: &Slots,
        origin: TypeOrigin,
    ) -> Result<TypeOrigin, NoRoom>
        ensures grows { Grows terms.old terms.new }
        ensures origin { IfOk result (λ o. (ks : List ℕ) (ps : List Text) (xs : List Term) → ArePlacesOf slots.now ks → AreTexts terms.old.texts ks ps → AreTrees terms.old self.now.arguments.now (term_trees xs) → (p : Piece) → IsClosedOrigin as_written terms.old p origin → IsClosedOrigin (fill ps xs) terms.new p o) }
    {
        growing_keeps();
        match origin {
            TypeOrigin::Row(row) => {
                let filled = self.row(alloc, terms, slots, row)?;
                Ok(TypeOrigin::Row(filled))
            }
            TypeOrigin::Instance(_) => Ok(origin),
            TypeOrigin::Chosen(_) => Ok(origin),
            TypeOrigin::Word(_) => Ok(origin),
        }
    }

    // The row of a type with the arguments in the place of the parameters.
    fn row(
        &self,
        alloc: Global,
        terms: &mut Terms<'_>,
        slots: &Slots,
        row: u32,
    ) -> Result<u32, NoRoom>
        ensures grows { Grows terms.old terms.new }
        ensures term { IfOk result (λ n. (ks : List ℕ) (ps : List Text) (xs : List Term) → ArePlacesOf slots.now ks → AreTexts terms.old.texts ks ps → AreTrees terms.old self.now.arguments.now (term_trees xs) → (x : Term) → IsTerm terms.old row x → IsTerm terms.new n (fill ps xs x)) }
    {
        filled_trees();
        let template = Template::new(alloc, terms, slots, row)?;
        template.fill(alloc, terms, self.arguments)
    }
}
