//! The indices of each name's definitions in a list, which of them is the first by `=`, and which of them count.

ghost use Rattle.std.specs.Prelude.{◌≡◌, IfOk, false};
ghost use Rattle.check_names.specs.Environment.Places.{added, added_all, counting, first_equals, is_equals_at, no_places, lists};

use check_terms::{Definition, Sign};
use std::alloc::{AllocError, Global};

// For each name below the count the places of its definitions, in order.
pub(crate) fn all_places(
    alloc: Global,
    count: usize,
    definitions: &[Definition],
) -> Result<Vec<Vec<usize>>, AllocError>
    ensures { IfOk result (λ v. lists v.items ≡ added_all 0 definitions.now (no_places count)) }
{
    let mut places = empty_places(alloc, count)?;
    for (place, definition) in definitions.iter().enumerate() {
        add_place(&mut places, definition.name as usize, place)?;
    }
    Ok(places)
}

fn empty_places(alloc: Global, count: usize) -> Result<Vec<Vec<usize>>, AllocError>
    ensures { IfOk result (λ v. lists v.items ≡ no_places count) }
{
    let mut places = Vec::new(alloc);
    for _ in 0..count {
        places.push(Vec::new(alloc))?;
    }
    Ok(places)
}

fn add_place(places: &mut Vec<Vec<usize>>, name: usize, place: usize) -> Result<(), AllocError>
    ensures { IfOk result (λ v. lists places.new.items ≡ added name place (lists places.old.items)) }
{
    if let Some(own) = places.get_mut(name) {
        own.push(place)?;
    }
    Ok(())
}

// Whether the definition at the place is by `=`.
fn is_equals(definitions: &[Definition], place: usize) -> bool
    ensures { result ≡ is_equals_at definitions.now place }
{
    match definitions.get(place) {
        Some(definition) => matches!(definition.sign, Sign::Is),
        None => false,
    }
}

// The first of the places at which a definition is by `=`.
pub(crate) fn first_equals(definitions: &[Definition], places: &[usize]) -> Option<usize>
    ensures { result ≡ first_equals definitions.now places.now }
{
    for place in places {
        if is_equals(definitions, *place) {
            return Some(*place);
        }
    }
    None
}

// The places of the definitions that count: each further `=` adds nothing.
pub(crate) fn counting(
    alloc: Global,
    definitions: &[Definition],
    places: &[usize],
) -> Result<Vec<usize>, AllocError>
    ensures { IfOk result (λ v. v.items ≡ counting definitions.now false places.now) }
{
    let mut counting = Vec::new(alloc);
    let mut met = false;
    for place in places {
        let equals = is_equals(definitions, *place);
        if !(met && equals) {
            counting.push(*place)?;
        }
        met = met || equals;
    }
    Ok(counting)
}
