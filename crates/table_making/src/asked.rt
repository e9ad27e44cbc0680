//! Instances by their rows, and what the types of entries are.

ghost use Rattle.std.specs.Prelude.{◌≡◌, ℕ, Some, slice_get};
ghost use Rattle.std.specs.Option.{option_map};
ghost use Rattle.table_making.specs.Lookups.{flattened, text_in};
ghost use Rattle.cddl_language.specs.Kinds as K;
ghost use Rattle.cddl_language.specs.Kinds.{is_group};
ghost use Rattle.cddl_language.specs.Reach.{Reaches};
ghost use Rattle.cddl_language.specs.Substitution.{group_choices};
ghost use Rattle.cddl_language.specs.Terms.{Ref, Term, name_of};
ghost use Rattle.check_instances.specs.Closed.Closed.{AreAlternatives};
ghost use Rattle.check_terms.specs.Table.{Table};
ghost use Rattle.check_terms.specs.Trees.{IsRef, IsTerm};
ghost use Rattle.table_making.specs.Basis.{IsSource, Sense};
ghost use Rattle.table_making.specs.Origins.{IsAsked, IsKnown};

use crate::laws::known_instances;
use crate::source::Source;
use check_instances::closed::Meaning;
use check_instances::closed::laws::{meaning_at, place_of};
use check_instances::openings::laws::part_is_reached;
use check_instances::openings::{Part, part_of};
use check_terms::Terms;

/// What the type of an entry without a key is.
#[derive(Clone, Copy)]
pub(crate) enum Asked {
    /// A type, asked of one item.
    Type,
    /// A group, by a row with its alternatives, if it has any.
    Group(Option<u32>),
}

// The place of the instance whose reference the row is.
pub(crate) fn place_at(terms: &Terms<'_>, source: &Source<'_>, call: u32) -> Option<u32>
    ensures { (s : Sense) (r : Ref) → IsSource s terms.now source.now → IsRef terms.now call r → Reaches s.definitions s.root r → (k : ℕ) × (result ≡ Some k) × (slice_get s.refs k ≡ Some r) }
{
    place_of(terms);
    place_there(source, call)
}

fn place_there(source: &Source<'_>, call: u32) -> Option<u32>
    ensures { result ≡ flattened (slice_get source.now.closed.now.places.items call) }
{
    match source.closed.places.get(call as usize) {
        Some(place) => *place,
        None => None,
    }
}

// The row of a group with the alternatives of the instance at this place, if it has any.
pub(crate) fn group_at(source: &Source<'_>, place: u32) -> Option<u32>
    ensures { (s : Sense) (t : Table) (r : Ref) → IsSource s t source.now → slice_get s.refs place ≡ Some r → AreAlternatives t (group_choices s.definitions r) result }
{
    meaning_at();
    match meaning_there(source, place) {
        Some(meaning) => meaning.group,
        None => None,
    }
}

// What the instance at this place means.
pub(crate) fn meaning_there<'a>(source: &Source<'a>, place: u32) -> Option<&'a Meaning>
    ensures { option_map (λ m. m.now) result ≡ slice_get source.now.closed.now.meanings.items place }
{
    source.closed.meanings.get(place as usize)
}

// Whether the reference is to a group's name.
pub(crate) fn is_group(terms: &Terms<'_>, source: &Source<'_>, call: u32) -> bool
    ensures { (s : Sense) (r : Ref) → IsSource s terms.now source.now → IsRef terms.now call r → result ≡ is_group s.definitions (name_of r) }
{
    match text_of(terms, call) {
        Some(name) => source.kinds.is_group(name),
        None => false,
    }
}

// The number of the row's text.
fn text_of(terms: &Terms<'_>, number: u32) -> Option<u32>
    ensures { result ≡ text_in (slice_get terms.now.rows number) }
{
    match terms.row(number) {
        Some(row) => row.text,
        None => None,
    }
}

// What the type of an entry without a key is.
pub(crate) fn asked_at(terms: &Terms<'_>, source: &Source<'_>, row: u32) -> Asked
    ensures { (s : Sense) (x : Term) → IsSource s terms.now source.now → IsTerm terms.now row x → IsKnown s x → IsAsked s terms.now (K.part_of s.definitions x) result }
{
    known_instances();
    part_is_reached();
    match part_of(terms, source.closed, source.kinds, source.openings, row) {
        Part::AsksType => Asked::Type,
        Part::NamesGroup(place) => Asked::Group(group_at(source, place)),
        Part::Opens(_, group) => Asked::Group(Some(group)),
    }
}
