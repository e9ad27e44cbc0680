//! Where a type stands whose last rule is one with parameters: there the text's types are what they are in the instance.

ghost use Rattle.std.specs.Prelude.{◌≡◌, ◌++◌, ◌∷◌, [], ℕ, Contains, IfNone, IfOk, IfSome, List, Some, slice_get};
ghost use Rattle.cddl_language.specs.Reading.{rules_of};
ghost use Rattle.cddl_language.specs.Terms.{Ref, Terms as TermList, Text, arguments_of as arguments_in, call};
ghost use Rattle.check_terms.specs.Filled.{term_trees};
ghost use Rattle.check_terms.specs.Fill.Templates.{AreTrees};
ghost use Rattle.check_terms.specs.Table.{Holds};
ghost use Rattle.check_terms.specs.Trees.{IsRef, terms_tree};
ghost use Rattle.table_making.specs.Basis.{Sense};
ghost use Rattle.table_making.specs.Nodes.{IsNameOfType};
ghost use Rattle.table_nodes.specs.declared.table.Table.{Table};
ghost use Rattle.type_links.specs.declared.link.Link.{Link as ALink};
ghost use Rattle.source_places.specs.Places.{IsOfNoRule, IsPlace};
ghost use Rattle.source_places.specs.Sources.{AreSources};
ghost use Rattle.source_places.specs.States.{HasNoRule, HasRule, IsLastAt, IsLastIn, origin_at};
ghost use Rattle.table_making.specs.declared.origin.TypeOrigin.TheVariants as T;

use crate::place::Place;
use crate::sources::{Sources, TypesInText};
use check_terms::fill::arguments_of;
use check_terms::{NoRoom, Terms};
use source_pieces::laws::equal_terms;
use std::alloc::{AllocError, Global};
use table_making::TypeOrigin;
use type_links::Link;

impl Sources<'_> {
    /// Where the last of the types to which these links lead stands in the text, of those that do. Each leads on from the one before,
    /// the first to the root.
    ///
    /// The rule is the one of which the last is an instance that is an instance of a rule of the text, so a name of the prelude
    /// stands where it is asked for. From there on each type narrows it: to the first place in the rules of that name that is of
    /// this type in that instance, where arguments are in the place of parameters (RFC 8610 section 3.10), within the place of the
    /// one found before. Where the key of an entry comes right before the type of its value, it is that entry's, in the map whose
    /// place was found before, and not of one within it: it stands in the map, or in a rule to which names lead that are entries
    /// there. So does the key to which a link of its own leads. An alternative of a group and an entry of it lead to this entry, where
    /// the place found before is that of the array or of the parentheses round the group, or is a name that is an entry by itself:
    /// then it stands in the rules of that name. Nothing is reported where none is an instance of a rule of the text.
    ///
    /// It takes time in proportion to the types and the entries in the text for each of these. In an instance with arguments it makes
    /// a copy of the table of terms besides, and reads each type of the rules of its name once for each bracket in which it stands.
    ///
    /// # Errors
    ///
    /// `AllocError` where memory was refused.
    pub fn place(&self, alloc: Global, chain: &[Link]) -> Result<Option<Place>, AllocError>
        ensures some { IfOk result (λ o. IfSome o (λ p. (s : Sense) (table : Table) (known : AreSources s table self.now) → IsPlace (rules_of s.tree) (IsNameOfType s known.terms known.nodes) chain.now p)) }
        ensures none { IfOk result (λ o. IfNone o ((s : Sense) (table : Table) (known : AreSources s table self.now) → (m : ALink) → Contains chain.now m → IsOfNoRule (rules_of s.tree) (IsNameOfType s known.terms known.nodes) m)) }
    {
        match self.text.last_instance(chain) {
            Some(instance) => self.place_in(alloc, instance, chain),
            None => Ok(None),
        }
    }

    // The same, where this is the last instance of a rule of the text.
    fn place_in(
        &self,
        alloc: Global,
        instance: u32,
        chain: &[Link],
    ) -> Result<Option<Place>, AllocError>
        requires { IsLastAt self.now.text chain.now instance }
        ensures some { IfOk result (λ o. IfSome o (λ p. (s : Sense) (table : Table) (known : AreSources s table self.now) → IsPlace (rules_of s.tree) (IsNameOfType s known.terms known.nodes) chain.now p)) }
        ensures none { IfOk result (λ o. IfNone o ((s : Sense) (table : Table) (known : AreSources s table self.now) → (m : ALink) → Contains chain.now m → IsOfNoRule (rules_of s.tree) (IsNameOfType s known.terms known.nodes) m)) }
    {
        let Ok(arguments) = self.instance_arguments(alloc, instance) else {
            return Err(AllocError);
        };
        if arguments.is_empty() {
            equal_terms();
            return self.text.place(alloc, chain);
        }
        match self.filled(alloc, instance, &arguments) {
            Ok(text) => text.place(alloc, chain),
            Err(NoRoom) => Err(AllocError),
        }
    }

    // The rows of the arguments of an instance.
    fn instance_arguments(&self, alloc: Global, instance: u32) -> Result<Vec<u32>, NoRoom>
        ensures { IfOk result (λ v. (n : ℕ) (q : Ref) → slice_get self.now.calls.items instance ≡ Some n → IsRef self.now.terms n q → AreTrees self.now.terms v.items (term_trees (arguments_in q))) }
    {
        match self.call_at(instance) {
            Some(call) => arguments_of(alloc, &self.terms, first_part(&self.terms, call)),
            None => Err(NoRoom),
        }
    }

    fn call_at(&self, instance: u32) -> Option<u32>
        ensures { result ≡ slice_get self.now.calls.items instance }
    {
        self.calls.get(instance as usize).copied()
    }
}

// The row of the arguments of a reference, by its row.
fn first_part(terms: &Terms<'_>, reference: u32) -> Option<u32>
    ensures { (n : Text) (ts : TermList) → IsRef terms.now reference (call n ts) → Holds terms.now result (terms_tree ts) }
{
    terms.row(reference)?.first
}

impl TypesInText {
    // The number of the last instance to which one of the links is that is of a rule of the text.
    fn last_instance(&self, chain: &[Link]) -> Option<u32>
        ensures { IsLastIn self.now chain.now result }
    {
        let mut last = None;
        for link in chain {
            last = self.later_instance(last, *link);
        }
        last
    }

    // The same, with one link more.
    fn later_instance(&self, last: Option<u32>, link: Link) -> Option<u32>
        ensures { (ids : List ALink) → IsLastIn self.now ids last → IsLastIn self.now (ids ++ link ∷ []) result }
    {
        match self.instance_at(link) {
            Some(instance) => Some(instance),
            None => last,
        }
    }

    // The number of the instance to which the link is, if it is of a rule of the text.
    fn instance_at(&self, link: Link) -> Option<u32>
        ensures some { IfSome result (λ k. (origin_at self.now link ≡ Some (T.Instance k)) × HasRule self.now link) }
        ensures none { IfNone result (HasNoRule self.now link) }
    {
        self.started(link)?;
        match self.origin_of(link) {
            Some(TypeOrigin::Instance(instance)) => Some(instance),
            _ => None,
        }
    }
}
