//! For each row the instance whose reference it is, and the row of its type without the parentheses around it.

ghost use Rattle.std.specs.Prelude.{◌≡◌, IfOk, OnOk, length};
ghost use Rattle.check_instances.specs.Closed.Looking as by;

use crate::closed::closed::Meaning;
use check_terms::{Form, NoRoom, Terms, push};
use std::alloc::Global;

// For each row below the count the place of the meaning whose reference it is.
pub(crate) fn places_of(
    alloc: Global,
    count: usize,
    meanings: &[Meaning],
) -> Result<Vec<Option<u32>>, NoRoom>
    ensures { IfOk result (λ v. v.items ≡ by.placed_all 0 meanings.now (by.no_places count)) }
{
    let mut places = empty_places(alloc, count)?;
    for (place, meaning) in meanings.iter().enumerate() {
        put(&mut places, meaning.call, place)?;
    }
    Ok(places)
}

fn empty_places(alloc: Global, count: usize) -> Result<Vec<Option<u32>>, NoRoom>
    ensures { IfOk result (λ v. v.items ≡ by.no_places count) }
{
    let mut places = Vec::new(alloc);
    for _ in 0..count {
        push(&mut places, None)?;
    }
    Ok(places)
}

fn put(places: &mut Vec<Option<u32>>, row: u32, place: usize) -> Result<(), NoRoom>
    ensures { OnOk result (places.new.items ≡ by.placed row place places.old.items) }
{
    let Ok(place) = u32::try_from(place) else {
        return Err(NoRoom);
    };
    if let Some(own) = places.get_mut(row as usize) {
        *own = Some(place);
    }
    Ok(())
}

// For each row what it is out of its parentheses. One pass: the parts of a row stand before it.
pub(crate) fn stripped_of(alloc: Global, terms: &Terms<'_>) -> Result<Vec<u32>, NoRoom>
    ensures { IfOk result (λ v. v.items ≡ by.all_out terms.now.rows (length terms.now.rows)) }
{
    let Ok(count) = u32::try_from(terms.len()) else {
        return Err(NoRoom);
    };
    let mut stripped = Vec::new(alloc);
    for row in 0..count {
        let out = out_of(terms, &stripped, row);
        push(&mut stripped, out)?;
    }
    Ok(stripped)
}

fn out_of(terms: &Terms<'_>, stripped: &[u32], row: u32) -> u32
    ensures { result ≡ by.out_of terms.now.rows stripped.now row }
{
    match in_parens(terms, row) {
        Some(part) => stripped.get(part as usize).copied().unwrap_or(row),
        None => row,
    }
}

// The row in the parentheses.
fn in_parens(terms: &Terms<'_>, number: u32) -> Option<u32>
    ensures { result ≡ by.parens_at terms.now.rows number }
{
    let row = terms.row(number)?;
    match row.form {
        Form::Parens => row.first,
        _ => None,
    }
}
