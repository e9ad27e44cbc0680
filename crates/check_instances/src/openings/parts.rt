//! What the type of an entry without a key is: a type, the name of a group, or `~` and a name that unwraps a group.

ghost use Rattle.std.specs.Prelude.{◌≡◌, ℕ, List, IfOk, option_copied, slice_get};
ghost use Rattle.cddl_language.specs.Kinds as K;
ghost use Rattle.cddl_language.specs.Reach.{points};
ghost use Rattle.cddl_language.specs.Terms as L;
ghost use Rattle.cddl_language.specs.Terms.{Ref, Term, Text};
ghost use Rattle.check_terms.specs.Trees.{IsTerm};
ghost use Rattle.check_names.specs.Kinds.Kinds.{AreKinds};
ghost use Rattle.check_instances.specs.Closed.Closed.{AreReached, IsClosed};
ghost use Rattle.check_instances.specs.Openings.Openings.{AreOpenings, IsPart};
ghost use Rattle.check_instances.specs.Openings.Steps as by;

use crate::closed::Closed;
use crate::openings::links::place_of;
use crate::openings::openings::{Opening, Part, name_of, row_at};
use check_names::kinds::Kinds;
use check_terms::laws::equal_numbers;
use check_terms::{Form, Row, Terms};

/// What the type of an entry without a key is (RFC 8610 sections 2.2.2 and 3.7): a type that is asked, or the name of a group, or
/// `~` and a name that unwraps a group. It costs a few look-ups by number.
pub fn part_of(
    terms: &Terms<'_>,
    closed: &Closed,
    kinds: &Kinds,
    openings: &[Opening],
    row: u32,
) -> Part
    ensures { (xs : List L.Definition) (root : Text) (refs : List Ref) (x : Term) → IsClosed xs root refs terms.now closed.now → AreKinds terms.now.texts xs kinds.now → AreOpenings xs terms.now refs openings.now → IsTerm terms.now row x → AreReached xs root (points x) → IsPart terms.now refs (K.part_of xs x) result }
{
    equal_numbers(terms);
    part_there(terms, closed, kinds, openings, row)
}

// What the row is, out of its parentheses.
fn part_there(
    terms: &Terms<'_>,
    closed: &Closed,
    kinds: &Kinds,
    openings: &[Opening],
    row: u32,
) -> Part
    ensures { result ≡ by.part_in terms.now.rows closed.now.places.items kinds.now openings.now (by.stripped_row terms.now.rows closed.now.stripped.items row) }
{
    match stripped_row(terms, &closed.stripped, row) {
        Some(row) => part_at(terms, closed, kinds, openings, row),
        None => Part::AsksType,
    }
}

// The row of the type out of its parentheses.
fn stripped_row(terms: &Terms<'_>, stripped: &[u32], number: u32) -> Option<Row>
    ensures { result ≡ by.stripped_row terms.now.rows stripped.now number }
{
    row_at(terms, stripped.get(number as usize).copied())
}

// What a row out of its parentheses is.
fn part_at(
    terms: &Terms<'_>,
    closed: &Closed,
    kinds: &Kinds,
    openings: &[Opening],
    row: Row,
) -> Part
    ensures { result ≡ by.part_at terms.now.rows closed.now.places.items kinds.now openings.now row.form row.first }
{
    match row.form {
        Form::Named if names_group(terms, kinds, row.first) => {
            named_group(place_of(&closed.places, row.first))
        }
        Form::Unwrapped => opened_part(openings, place_of(&closed.places, row.first)),
        _ => Part::AsksType,
    }
}

// Whether the reference is to a group.
fn names_group(terms: &Terms<'_>, kinds: &Kinds, reference: Option<u32>) -> bool
    ensures { result ≡ by.names_group terms.now.rows kinds.now reference }
{
    match name_of(terms, reference) {
        Some(name) => kinds.is_group(name),
        None => false,
    }
}

fn named_group(place: Option<u32>) -> Part
    ensures { result ≡ by.named_group place }
{
    match place {
        Some(place) => Part::NamesGroup(place),
        None => Part::AsksType,
    }
}

fn opened_part(openings: &[Opening], place: Option<u32>) -> Part
    ensures { result ≡ by.opened_part openings.now place }
{
    match place {
        Some(place) => opened_at(place, openings.get(place as usize).copied()),
        None => Part::AsksType,
    }
}

fn opened_at(place: u32, opening: Option<Opening>) -> Part
    ensures { result ≡ by.opened_at place opening }
{
    match opening {
        Some(Opening::Group(group)) => Part::Opens(place, group),
        _ => Part::AsksType,
    }
}
