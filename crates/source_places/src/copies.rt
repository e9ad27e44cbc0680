//! A copy of a table of terms, to which rows may be added.

ghost use Rattle.std.specs.Prelude.{◌≡◌, ℕ, IfOk, OnOk, Some, slice_get};
ghost use Rattle.check_terms.specs.Table.{Grows};
ghost use Rattle.source_places.specs.Copies.{HasTexts};

use check_terms::laws::is_table;
use check_terms::{NoRoom, Terms};
use std::alloc::Global;

// A table with the same texts and rows by the same numbers.
pub(crate) fn copy_of<'s>(alloc: Global, terms: &Terms<'s>) -> Result<Terms<'s>, NoRoom>
    ensures { IfOk result (λ copy. Grows terms.now copy) }
{
    let mut copy = Terms::new(alloc);
    copy_texts(&mut copy, terms)?;
    copy_rows(&mut copy, terms)?;
    Ok(copy)
}

// Adds the texts in their order. Since no two are equal, each gets the number that it has.
fn copy_texts<'s>(copy: &mut Terms<'s>, terms: &Terms<'s>) -> Result<(), NoRoom>
    ensures { OnOk result (HasTexts terms.now copy.new) }
{
    for index in 0..terms.text_count() {
        let Some(text) = terms.text_at(index) else {
            return Err(NoRoom);
        };
        let number = copy.add_text(text)?;
        if number as usize != index {
            return Err(NoRoom);
        }
    }
    Ok(())
}

// The same of the rows.
fn copy_rows<'s>(copy: &mut Terms<'s>, terms: &Terms<'s>) -> Result<(), NoRoom>
    requires { HasTexts terms.now copy.old }
    ensures { OnOk result (Grows terms.now copy.new) }
{
    is_table(terms);
    let Ok(count) = terms.row_count() else {
        return Err(NoRoom);
    };
    for number in 0..count {
        let Some(row) = terms.row(number) else {
            return Err(NoRoom);
        };
        let added = copy.add(row)?;
        if added != number {
            return Err(NoRoom);
        }
    }
    Ok(())
}
