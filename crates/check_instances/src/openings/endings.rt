//! Where the way of `~` from an instance ends.

ghost use Rattle.std.specs.Prelude.{◌≡◌, List, IfOk};
ghost use Rattle.cddl_language.specs.Environment.{most_names};
ghost use Rattle.cddl_language.specs.Terms as L;
ghost use Rattle.cddl_language.specs.Terms.{Ref, Text};
ghost use Rattle.check_instances.specs.Closed.Closed.{IsClosed};
ghost use Rattle.check_instances.specs.Openings.Endings.{AreEndings};
ghost use Rattle.check_instances.specs.Openings.Steps as by;

use crate::closed::{Closed, Meaning};
use crate::openings::links::link_of;
use check_terms::Terms;
use check_terms::laws::equal_numbers;
use graphs::chains::{Link, ends};
use std::alloc::{AllocError, Global};

/// For each instance a row of the instance whose own body it is that `~` of it unwraps: the one at which the way through names
/// ends, if `~` unwraps anything. Through so many names at most, as for [`crate::openings::openings_of`], and in the same time.
pub fn endings_of(
    alloc: Global,
    terms: &Terms<'_>,
    closed: &Closed,
    most: usize,
) -> Result<Vec<Option<u32>>, AllocError>
    ensures { IfOk result (λ v. (xs : List L.Definition) (root : Text) (refs : List Ref) → IsClosed xs root refs terms.now closed.now → most ≡ most_names xs → AreEndings xs terms.now refs v.items) }
{
    equal_numbers(terms);
    let links = own_links(alloc, terms, closed)?;
    ends(alloc, &links, most)
}

// For each instance how `~` of it leads on; where it leads to no other instance, the row of its own reference.
fn own_links(alloc: Global, terms: &Terms<'_>, closed: &Closed) -> Result<Vec<Link>, AllocError>
    ensures { IfOk result (λ v. v.items ≡ by.own_links_of terms.now.rows closed.now.places.items closed.now.stripped.items closed.now.meanings.items) }
{
    let mut links = Vec::new(alloc);
    for meaning in &closed.meanings {
        links.push(own_link(terms, closed, meaning))?;
    }
    Ok(links)
}

fn own_link(terms: &Terms<'_>, closed: &Closed, meaning: &Meaning) -> Link
    ensures { result ≡ by.own_link_of terms.now.rows closed.now.places.items closed.now.stripped.items meaning.now }
{
    ended_at(meaning.call, link_of(terms, closed, meaning))
}

fn ended_at(call: u32, link: Link) -> Link
    ensures { result ≡ by.ended_at call link }
{
    match link {
        Link::End(_) => Link::End(call),
        Link::Next(next) => Link::Next(next),
    }
}
