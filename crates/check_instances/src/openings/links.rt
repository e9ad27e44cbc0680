//! How `~` of an instance leads to another.

ghost use Rattle.std.specs.Prelude.{◌≡◌, IfOk};
ghost use Rattle.check_instances.specs.Openings.Steps as by;

use crate::closed::{Closed, Meaning};
use check_terms::{Form, Terms};
use graphs::chains::Link;
use std::alloc::{AllocError, Global};

/// The number of no link: there are no more than 4,096.
const NOWHERE: usize = 0xffff_ffff;

// For each instance how `~` of it leads on: from one choice that is a name to the instance of that name, and from one other
// choice to its row. From several choices, or none, it leads nowhere.
pub(crate) fn links(
    alloc: Global,
    terms: &Terms<'_>,
    closed: &Closed,
) -> Result<Vec<Link>, AllocError>
    ensures { IfOk result (λ v. v.items ≡ by.links_of terms.now.rows closed.now.places.items closed.now.stripped.items closed.now.meanings.items) }
{
    let mut links = Vec::new(alloc);
    for meaning in &closed.meanings {
        links.push(link_of(terms, closed, meaning))?;
    }
    Ok(links)
}

pub(crate) fn link_of(terms: &Terms<'_>, closed: &Closed, meaning: &Meaning) -> Link
    ensures { result ≡ by.link_of terms.now.rows closed.now.places.items closed.now.stripped.items meaning.now }
{
    match sole_row(&closed.stripped, &meaning.types) {
        Some(row) => link_from(terms, &closed.places, row),
        None => Link::Next(NOWHERE),
    }
}

// The row of the only type, out of its parentheses.
fn sole_row(stripped: &[u32], types: &[u32]) -> Option<u32>
    ensures { result ≡ by.sole_row stripped.now types.now }
{
    match types {
        [row] => stripped.get(*row as usize).copied(),
        _ => None,
    }
}

fn link_from(terms: &Terms<'_>, places: &[Option<u32>], number: u32) -> Link
    ensures { result ≡ by.link_from terms.now.rows places.now number }
{
    match named_place(terms, places, number) {
        Some(place) => Link::Next(place as usize),
        None => Link::End(number),
    }
}

// The place of the instance whose name is used at the row.
fn named_place(terms: &Terms<'_>, places: &[Option<u32>], number: u32) -> Option<u32>
    ensures { result ≡ by.named_place terms.now.rows places.now number }
{
    let row = terms.row(number)?;
    match row.form {
        Form::Named => place_of(places, row.first),
        _ => None,
    }
}

// The place of the instance of this reference.
pub(crate) fn place_of(places: &[Option<u32>], reference: Option<u32>) -> Option<u32>
    ensures { result ≡ by.place_at places.now reference }
{
    places.get(reference? as usize).copied().flatten()
}
