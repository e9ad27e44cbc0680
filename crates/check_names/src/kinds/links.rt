//! How names lead to names.

ghost use Rattle.std.specs.Prelude.{◌≡◌, ℕ, IfOk, List, Option, map, slice_get};
ghost use Rattle.check_names.specs.Environment.Names.{standing};
ghost use Rattle.check_names.specs.Kinds.Links.{kind_at, kind_link, kind_links, kind_of, only_head, opening_link, opening_links, opening_of, opens_group, single, text_there};

use crate::environment::Name;
use crate::kinds::heads::Head;
use check_terms::texts::{is_group_socket, is_socket};
use check_terms::{Definition, Sign, Terms};
use graphs::chains::Link;
use std::alloc::{AllocError, Global};

/// The answer of a chain that ends at a group, or at a map or an array that `~` unwraps.
pub(crate) const GROUP: u32 = 0;
/// The answer of a chain that ends at a type, or at the content of a tag that `~` unwraps.
pub(crate) const TYPE: u32 = 1;
/// The answer of a chain that ends where `~` unwraps nothing.
pub(crate) const NOTHING: u32 = 2;

// For each name how `~` of it leads on.
pub(crate) fn opening_links(
    alloc: Global,
    terms: &Terms<'_>,
    names: &[Name],
    known: &[Head],
    own: &[Head],
) -> Result<Vec<Link>, AllocError>
    ensures { IfOk result (λ v. v.items ≡ opening_links terms.now.texts known.now own.now 0 (map standing names.now)) }
{
    let mut links = Vec::new(alloc);
    for (number, name) in names.iter().enumerate() {
        links.push(opening_link(text_at(terms, number), name, known, own))?;
    }
    Ok(links)
}

// The text of the number; the empty text, where there is none.
pub(crate) fn text_at<'s>(terms: &Terms<'s>, number: usize) -> &'s str
    ensures { result.now ≡ text_there (slice_get terms.now.texts number) }
{
    terms.text_at(number).unwrap_or("")
}

fn opening_link(text: &str, name: &Name, known: &[Head], own: &[Head]) -> Link
    ensures { result ≡ opening_link text.now known.now own.now (standing name.now) }
{
    if is_group_socket(text) {
        return Link::End(NOTHING);
    }
    match only_head(name, known, own) {
        Some(head) => opening_of(head),
        None => Link::End(NOTHING),
    }
}

// The head of the name's definition, where it has one alone.
fn only_head(name: &Name, known: &[Head], own: &[Head]) -> Option<Head>
    ensures { result ≡ only_head known.now own.now (standing name.now) }
{
    match (name.first_equals, name.known) {
        (None, Some(place)) if name.counting.is_empty() => known.get(place).copied(),
        (None, Some(_)) => None,
        _ => single(&name.counting, own),
    }
}

fn single(places: &[usize], own: &[Head]) -> Option<Head>
    ensures { result ≡ single own.now places.now }
{
    match places {
        [place] => own.get(*place).copied(),
        _ => None,
    }
}

fn opening_of(head: Head) -> Link
    ensures { result ≡ opening_of head }
{
    match head {
        Head::Name(name) => Link::Next(name as usize),
        Head::Container => Link::End(GROUP),
        Head::Tag => Link::End(TYPE),
        _ => Link::End(NOTHING),
    }
}

// For each name how its kind is that of another, where `~` of names unwraps this.
pub(crate) fn kind_links(
    alloc: Global,
    terms: &Terms<'_>,
    names: &[Name],
    definitions: &[Definition],
    own: &[Head],
    opened: &[Option<u32>],
) -> Result<Vec<Link>, AllocError>
    ensures { IfOk result (λ v. v.items ≡ kind_links terms.now.texts definitions.now own.now opened.now 0 (map standing names.now)) }
{
    let mut links = Vec::new(alloc);
    for (number, name) in names.iter().enumerate() {
        let text = text_at(terms, number);
        links.push(kind_link(text, name, definitions, own, opened))?;
    }
    Ok(links)
}

fn kind_link(
    text: &str,
    name: &Name,
    definitions: &[Definition],
    own: &[Head],
    opened: &[Option<u32>],
) -> Link
    ensures { result ≡ kind_link text.now definitions.now own.now opened.now (standing name.now) }
{
    if is_socket(text) {
        return end_of(is_group_socket(text));
    }
    match (name.known, name.first) {
        (None, Some(place)) => kind_at(definitions, own, opened, place),
        _ => Link::End(TYPE),
    }
}

fn end_of(is_group: bool) -> Link
    ensures { result ≡ Rattle.check_names.specs.Kinds.Links.end_of is_group }
{
    Link::End(if is_group { GROUP } else { TYPE })
}

fn kind_at(definitions: &[Definition], own: &[Head], opened: &[Option<u32>], place: usize) -> Link
    ensures { result ≡ kind_at opened.now (slice_get definitions.now place) (slice_get own.now place) }
{
    match (definitions.get(place), own.get(place)) {
        (Some(definition), Some(head)) => kind_of(definition.sign, *head, opened),
        _ => Link::End(TYPE),
    }
}

pub(crate) fn kind_of(sign: Sign, head: Head, opened: &[Option<u32>]) -> Link
    ensures { result ≡ kind_of opened.now sign head }
{
    match (sign, head) {
        (Sign::TypeOr, _) => Link::End(TYPE),
        (Sign::GroupOr, _) | (Sign::Is, Head::Entry) => Link::End(GROUP),
        (Sign::Is, Head::Name(name)) => Link::Next(name as usize),
        (Sign::Is, Head::Unwrapped(name)) => end_of(opens_group(opened, name as usize)),
        (Sign::Is, _) => Link::End(TYPE),
    }
}

fn opens_group(opened: &[Option<u32>], name: usize) -> bool
    ensures { result ≡ opens_group (slice_get opened.now name) }
{
    matches!(opened.get(name), Some(Some(GROUP)))
}
