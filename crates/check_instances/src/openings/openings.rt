//! What `~` of each instance unwraps: the group of a map or an array, the content of a tag, or nothing.

ghost use Rattle.std.specs.Prelude.{◌≡◌, List, IfOk, slice_get};
ghost use Rattle.cddl_language.specs.Environment.{most_names};
ghost use Rattle.cddl_language.specs.Terms as L;
ghost use Rattle.cddl_language.specs.Terms.{Ref, Text};
ghost use Rattle.check_names.specs.Kinds.Heads.{name_at};
ghost use Rattle.check_names.specs.Kinds.Kinds.{AreKinds};
ghost use Rattle.check_instances.specs.Closed.Closed.{IsClosed};
ghost use Rattle.check_instances.specs.Openings.Openings.{AreOpenings};
ghost use Rattle.check_instances.specs.Openings.Steps as by;

use crate::closed::{Closed, Meaning};
use crate::openings::links::links;
use check_names::kinds::Kinds;
use check_terms::laws::equal_numbers;
use check_terms::{Form, Row, Terms};
use graphs::chains::ends;
use std::alloc::{AllocError, Global};

/// What `~` of a closed reference unwraps.
#[derive(Clone, Copy, Debug, PartialEq, Eq)]
pub enum Opening {
    /// Nothing.
    Nothing,
    /// The group of a map or an array, by its row.
    Group(u32),
    /// The content of a tag, by its row.
    Type(u32),
}

/// What the type of an entry without a key is.
#[derive(Clone, Copy, Debug, PartialEq, Eq)]
pub enum Part {
    /// A type, asked of one item.
    AsksType,
    /// The name of a group: the place of the instance.
    NamesGroup(u32),
    /// `~` and a name that unwraps a group: the place of the instance, and the row of the group.
    Opens(u32, u32),
}

/// What `~` of each instance unwraps (RFC 8610 section 3.7), in the order of the instances: through so many names at most, as
/// there are definitions in the prelude and the text together.
///
/// It takes a time of n log m for n instances and m definitions, however names lead to names. An error comes only where memory
/// is refused.
pub fn openings_of(
    alloc: Global,
    terms: &Terms<'_>,
    closed: &Closed,
    kinds: &Kinds,
    most: usize,
) -> Result<Vec<Opening>, AllocError>
    ensures { IfOk result (λ v. (xs : List L.Definition) (root : Text) (refs : List Ref) → IsClosed xs root refs terms.now closed.now → AreKinds terms.now.texts xs kinds.now → most ≡ most_names xs → AreOpenings xs terms.now refs v.items) }
{
    equal_numbers(terms);
    let links = links(alloc, terms, closed)?;
    let ends = ends(alloc, &links, most)?;
    ended_openings(alloc, terms, kinds, &closed.meanings, &ends)
}

// What `~` of each unwraps, where the ways end at these rows.
fn ended_openings(
    alloc: Global,
    terms: &Terms<'_>,
    kinds: &Kinds,
    meanings: &[Meaning],
    ends: &[Option<u32>],
) -> Result<Vec<Opening>, AllocError>
    ensures { IfOk result (λ v. v.items ≡ by.openings_of terms.now.rows kinds.now ends.now 0 meanings.now) }
{
    let mut openings = Vec::new(alloc);
    for (place, meaning) in meanings.iter().enumerate() {
        let end = end_at(ends, place);
        openings.push(opening_of(terms, kinds, meaning.call, end))?;
    }
    Ok(openings)
}

fn end_at(ends: &[Option<u32>], place: usize) -> Option<u32>
    ensures { result ≡ by.there (slice_get ends.now place) }
{
    ends.get(place).copied().flatten()
}

fn opening_of(terms: &Terms<'_>, kinds: &Kinds, call: u32, end: Option<u32>) -> Opening
    ensures { result ≡ by.opening_of terms.now.rows kinds.now call end }
{
    if opens(kinds, name_of(terms, Some(call))) {
        opening_at(terms, end)
    } else {
        Opening::Nothing
    }
}

// Whether `~` of the name unwraps anything.
fn opens(kinds: &Kinds, name: Option<u32>) -> bool
    ensures { result ≡ by.opens kinds.now name }
{
    match name {
        Some(name) => kinds.opened(name).is_some(),
        None => false,
    }
}

// The number of a reference's name.
pub(crate) fn name_of(terms: &Terms<'_>, reference: Option<u32>) -> Option<u32>
    ensures { result ≡ name_at terms.now.rows reference }
{
    let row = terms.row(reference?)?;
    row.text
}

// What is opened at the row of a map, an array or a tag.
fn opening_at(terms: &Terms<'_>, number: Option<u32>) -> Opening
    ensures { result ≡ by.opening_at terms.now.rows number }
{
    match row_at(terms, number) {
        Some(row) => opening_in(row.form, row.first, row.second),
        None => Opening::Nothing,
    }
}

// The row of the number, if there is one.
pub(crate) fn row_at(terms: &Terms<'_>, number: Option<u32>) -> Option<Row>
    ensures { result ≡ by.row_in terms.now.rows number }
{
    terms.row(number?)
}

fn opening_in(form: Form, first: Option<u32>, second: Option<u32>) -> Opening
    ensures { result ≡ by.opening_in form first second }
{
    match form {
        Form::MapOf | Form::ArrayOf => first.map_or(Opening::Nothing, Opening::Group),
        Form::Tagged => first.map_or(Opening::Nothing, Opening::Type),
        Form::TaggedBy => second.map_or(Opening::Nothing, Opening::Type),
        _ => Opening::Nothing,
    }
}
