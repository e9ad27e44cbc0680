//! The instances of each name.

ghost use Rattle.std.specs.Prelude.{◌≡◌, IfOk, OnOk, length, option_map, slice_get};
ghost use Rattle.check_names.specs.Environment.Places.{added, lists, no_places};
ghost use Rattle.check_reached.specs.Calls as by;
ghost use Rattle.check_reached.specs.Calls.{with_call, with_calls};

use check_instances::Instance;
use check_terms::Terms;
use std::alloc::{AllocError, Global};

// For each name, by the number of its text, the rows of its instances, in order.
pub(crate) fn calls_by_name(
    alloc: Global,
    terms: &Terms<'_>,
    found: &[Instance],
) -> Result<Vec<Vec<u32>>, AllocError>
    ensures { IfOk result (λ v. lists v.items ≡ with_calls terms.now.rows found.now (no_places (length terms.now.texts))) }
{
    let mut calls = empty_lists(alloc, terms.text_count())?;
    for instance in found {
        add_call(&mut calls, terms, instance.call)?;
    }
    Ok(calls)
}

fn empty_lists(alloc: Global, count: usize) -> Result<Vec<Vec<u32>>, AllocError>
    ensures { IfOk result (λ v. lists v.items ≡ no_places count) }
{
    let mut empty = Vec::new(alloc);
    for _ in 0..count {
        empty.push(Vec::new(alloc))?;
    }
    Ok(empty)
}

// Adds the reference of this row to those of its name.
fn add_call(calls: &mut Vec<Vec<u32>>, terms: &Terms<'_>, call: u32) -> Result<(), AllocError>
    ensures { OnOk result (lists calls.new.items ≡ with_call terms.now.rows call (lists calls.old.items)) }
{
    let Some(name) = name_number(terms, call) else {
        return Ok(());
    };
    add_to(calls, name as usize, call)
}

// The number of the name's text, of a reference.
fn name_number(terms: &Terms<'_>, call: u32) -> Option<u32>
    ensures { result ≡ by.name_number terms.now.rows call }
{
    terms.row(call)?.text
}

fn add_to(calls: &mut Vec<Vec<u32>>, name: usize, call: u32) -> Result<(), AllocError>
    ensures { OnOk result (lists calls.new.items ≡ added name call (lists calls.old.items)) }
{
    if let Some(own) = calls.get_mut(name) {
        own.push(call)?;
    }
    Ok(())
}

// The rows of the instances of the name.
pub(crate) fn calls_of(calls: &[Vec<u32>], name: u32) -> Option<&Vec<u32>>
    ensures { option_map (λ v. v.now.items) result ≡ slice_get (lists calls.now) name }
{
    calls.get(name as usize)
}
