//! The place of the root among the instances.

ghost use Rattle.std.specs.Prelude.{◌≡◌, slice_get};
ghost use Rattle.cddl_table.specs.Root.{has_none, is_root, root_place, root_row};

use check_instances::closed::Closed;
use check_terms::{Form, Row, Terms};

// The place of the instance of the name with this number, without arguments.
pub(crate) fn root_place(terms: &Terms<'_>, closed: &Closed, root: u32) -> Option<u32>
    ensures { result ≡ root_place terms.now.rows closed.now root }
{
    let row = root_row(terms, closed, root)?;
    *closed.places.get(row as usize)?
}

// The row of its reference.
fn root_row(terms: &Terms<'_>, closed: &Closed, root: u32) -> Option<u32>
    ensures { result ≡ root_row terms.now.rows root closed.now.meanings.items }
{
    for meaning in &closed.meanings {
        if is_root(terms, root, meaning.call) {
            return Some(meaning.call);
        }
    }
    None
}

// Whether the row is of the name with this number, without arguments.
fn is_root(terms: &Terms<'_>, root: u32, call: u32) -> bool
    ensures { result ≡ is_root terms.now.rows root (slice_get terms.now.rows call) }
{
    match terms.row(call) {
        Some(
            Row {
                form: Form::Call,
                text: Some(name),
                first: Some(arguments),
                ..
            },
        ) => name == root && has_none(terms, arguments),
        _ => false,
    }
}

// Whether the row is of no arguments.
fn has_none(terms: &Terms<'_>, arguments: u32) -> bool
    ensures { result ≡ has_none (slice_get terms.now.rows arguments) }
{
    matches!(
        terms.row(arguments),
        Some(Row {
            form: Form::NoTerms,
            ..
        })
    )
}
