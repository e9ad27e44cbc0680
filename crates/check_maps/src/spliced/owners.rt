//! In whose group an entry stands, and to whose group it leads.

ghost use Rattle.std.specs.Prelude.{◌≡◌, List, slice_get};
ghost use Rattle.check_instances.specs.Closed.Closed.{AreReached, IsClosed};
ghost use Rattle.check_names.specs.Kinds.Kinds.{AreKinds};
ghost use Rattle.cddl_language.specs.MapFaults.{point_in};
ghost use Rattle.cddl_language.specs.Reach.{entry_points};
ghost use Rattle.cddl_language.specs.Terms as L;
ghost use Rattle.cddl_language.specs.Terms.{Ref, Text};
ghost use Rattle.check_instances.specs.Openings.Endings.{AreEndings};
ghost use Rattle.check_instances.specs.Openings.Openings.{AreOpenings};
ghost use Rattle.check_maps.specs.Spliced.Spliced.{IsTarget};
ghost use Rattle.check_maps.specs.Spliced.Steps as by;
ghost use Rattle.check_terms.specs.Trees.{IsEntry};

use check_instances::closed::Closed;
use check_instances::openings::{Opening, Part, part_of};
use check_names::kinds::Kinds;
use check_reached::{Asked, Question};
use check_sites::entries::Holder;
use check_terms::laws::equal_numbers;
use check_terms::{Form, Terms};

/// In whose group an entry stands that is spliced into a map. Instances are given by their places.
#[derive(Clone, Copy, Debug, PartialEq, Eq)]
pub enum Owner {
    /// The map's own.
    Map,
    /// That of the instance, by its name.
    Named(u32),
    /// The map or the array that the instance is, by `~` and a name that leads to it.
    Opened(u32),
}

/// In whose group an entry stands, and to whose group it leads.
#[derive(Clone, Copy)]
pub(crate) struct Way {
    pub(crate) owner: Option<Owner>,
    pub(crate) target: Option<Owner>,
}

// In whose group the entry stands of which it was asked.
pub(crate) fn owner_of(closed: &Closed, asked: Asked) -> Option<Owner>
    ensures { result ≡ by.owner_of closed.now.places.items asked }
{
    match asked.question {
        Question::Entry(holder) => held_by(holder, place_of(closed, asked.call)),
        _ => None,
    }
}

fn held_by(holder: Holder, place: Option<u32>) -> Option<Owner>
    ensures { result ≡ by.held_by holder place }
{
    match holder {
        Holder::Map => Some(Owner::Map),
        Holder::Rule => named(place),
        Holder::Opened => opened(place),
    }
}

fn named(place: Option<u32>) -> Option<Owner>
    ensures { result ≡ by.named place }
{
    match place {
        Some(place) => Some(Owner::Named(place)),
        None => None,
    }
}

fn opened(place: Option<u32>) -> Option<Owner>
    ensures { result ≡ by.opened_owner place }
{
    match place {
        Some(place) => Some(Owner::Opened(place)),
        None => None,
    }
}

// The place of the instance whose reference has this row.
fn place_of(closed: &Closed, call: u32) -> Option<u32>
    ensures { result ≡ by.place_of closed.now.places.items call }
{
    number_at(&closed.places, call)
}

fn number_at(numbers: &[Option<u32>], place: u32) -> Option<u32>
    ensures { result ≡ by.there (slice_get numbers.now place) }
{
    numbers.get(place as usize).copied().flatten()
}

/// To whose group the entry of this row leads, if it names or opens one (RFC 8610 sections 3.5 and 3.7).
///
/// The kinds, the openings and the endings are those of the instances. Of a row that is no entry's, and of one that stands for
/// what has references that are no instances, it says nothing.
pub fn target_of(
    terms: &Terms<'_>,
    closed: &Closed,
    kinds: &Kinds,
    openings: &[Opening],
    endings: &[Option<u32>],
    row: u32,
) -> Option<Owner>
    ensures { (xs : List L.Definition) (root : Text) (refs : List Ref) (x : L.Entry) → IsClosed xs root refs terms.now closed.now → AreKinds terms.now.texts xs kinds.now → AreOpenings xs terms.now refs openings.now → AreEndings xs terms.now refs endings.now → IsEntry terms.now row x → AreReached xs root (entry_points x) → IsTarget xs refs (point_in xs x) result }
{
    equal_numbers(terms);
    match typed_at(terms, row) {
        Some(types) => {
            let part = part_of(terms, closed, kinds, openings, types);
            led_to(closed, endings, part)
        }
        None => None,
    }
}

// The row of the type of an entry without a key.
fn typed_at(terms: &Terms<'_>, row: u32) -> Option<u32>
    ensures { result ≡ by.typed_in (slice_get terms.now.rows row) }
{
    let content = terms.row(row)?;
    match content.form {
        Form::Typed => content.first,
        _ => None,
    }
}

fn led_to(closed: &Closed, endings: &[Option<u32>], part: Part) -> Option<Owner>
    ensures { result ≡ by.led_to closed.now.places.items endings.now part }
{
    match part {
        Part::AsksType => None,
        Part::NamesGroup(place) => Some(Owner::Named(place)),
        Part::Opens(place, _) => opened_at(closed, number_at(endings, place)),
    }
}

fn opened_at(closed: &Closed, ending: Option<u32>) -> Option<Owner>
    ensures { result ≡ by.opened_at closed.now.places.items ending }
{
    match ending {
        Some(call) => opened(place_of(closed, call)),
        None => None,
    }
}
