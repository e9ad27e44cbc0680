//! For each name the indices of its definitions in the prelude's list and in the text's.

ghost use Rattle.std.specs.Prelude.{◌≡◌, IfOk, map, slice_get};
ghost use Rattle.check_names.specs.Environment.Names.{AreNames, standing, standing_at, standing_from};
ghost use Rattle.check_names.specs.Environment.Places.{first_in, lists};

use crate::environment::places::{all_places, counting, first_equals};
use check_terms::Definition;
use std::alloc::{AllocError, Global};

/// Where the definitions of a name stand: in the prelude's list, and in the text's.
#[derive(Drop)]
pub struct Name {
    /// The place of the prelude's first definition, also where the text replaces it.
    pub known: Option<usize>,
    /// The place of the text's first definition.
    pub first: Option<usize>,
    /// The place of the text's first definition by `=`, with which it replaces the prelude's.
    pub first_equals: Option<usize>,
    /// The places of the text's definitions that count, in order: all but each further `=`.
    pub counting: Vec<usize>,
}

/// For each name below the count where its definitions stand, in the prelude and in the text (RFC 8610 sections 2.2.2 and 3.9).
/// A definition whose name is not below the count is left out.
///
/// It takes time and memory in proportion to the count and to the definitions together. An error comes only where memory is
/// refused.
pub fn names(
    alloc: Global,
    count: usize,
    known: &[Definition],
    definitions: &[Definition],
) -> Result<Vec<Name>, AllocError>
    ensures { IfOk result (λ v. AreNames count known.now definitions.now v.items) }
{
    let known = all_places(alloc, count, known)?;
    let own = all_places(alloc, count, definitions)?;
    names_at(alloc, &known, &own, definitions)
}

fn names_at(
    alloc: Global,
    known: &[Vec<usize>],
    own: &[Vec<usize>],
    definitions: &[Definition],
) -> Result<Vec<Name>, AllocError>
    ensures { IfOk result (λ v. map standing v.items ≡ standing_from 0 definitions.now (lists known.now) (lists own.now)) }
{
    let mut names = Vec::new(alloc);
    for (number, places) in own.iter().enumerate() {
        let name = name_at(alloc, first_known(known, number), places, definitions)?;
        names.push(name)?;
    }
    Ok(names)
}

fn first_known(known: &[Vec<usize>], number: usize) -> Option<usize>
    ensures { result ≡ first_in (slice_get (lists known.now) number) }
{
    match known.get(number) {
        Some(places) => places.first().copied(),
        None => None,
    }
}

fn name_at(
    alloc: Global,
    known: Option<usize>,
    own: &[usize],
    definitions: &[Definition],
) -> Result<Name, AllocError>
    ensures { IfOk result (λ v. standing v ≡ standing_at definitions.now known own.now) }
{
    Ok(Name {
        known,
        first: own.first().copied(),
        first_equals: first_equals(definitions, own),
        counting: counting(alloc, definitions, own)?,
    })
}
