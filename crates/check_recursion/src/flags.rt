//! Of each instance whether it is reported, by the marks of its nodes.

ghost use Rattle.std.specs.Prelude.{◌≡◌, ◌<◌, ℕ, IfOk, true, false};
ghost use Rattle.check_recursion.specs.Edges as by;

use crate::node::{Layout, Node};
use std::alloc::{AllocError, Global};

// Of each place whether one of its references is marked; where there is none of any place, whether a choice through its name is.
pub(crate) fn flags_of(
    alloc: Global,
    layout: Layout,
    marks: &[bool],
) -> Result<Vec<bool>, AllocError>
    ensures { IfOk result (λ v. by.AreFlags layout.rows layout.places marks.now v.items) }
{
    let references = is_any_reference(layout, marks);
    let flags = flags_by(alloc, layout, marks, references)?;
    Ok(flags)
}

// Whether a reference of any place is marked.
fn is_any_reference(layout: Layout, marks: &[bool]) -> bool
    ensures some { result ≡ true → (k : ℕ) × (k < layout.places) × (by.has_reference layout.rows layout.places marks.now k ≡ true) }
    ensures none { result ≡ false → (k : ℕ) → k < layout.places → by.has_reference layout.rows layout.places marks.now k ≡ false }
{
    for place in 0..layout.places {
        if has_reference(layout, marks, place) {
            return true;
        }
    }
    false
}

fn flags_by(
    alloc: Global,
    layout: Layout,
    marks: &[bool],
    references: bool,
) -> Result<Vec<bool>, AllocError>
    ensures { IfOk result (λ v. v.items ≡ by.flags_below layout.rows layout.places marks.now references layout.places) }
{
    let mut flags = Vec::new(alloc);
    for place in 0..layout.places {
        flags.push(is_told(layout, marks, references, place))?;
    }
    Ok(flags)
}

fn is_told(layout: Layout, marks: &[bool], references: bool, place: u32) -> bool
    ensures { result ≡ by.is_told layout.rows layout.places marks.now references place }
{
    if references {
        has_reference(layout, marks, place)
    } else {
        has_choice(layout, marks, place)
    }
}

// Whether a reference of the place is marked: its name by itself, after `~` or after `&`.
fn has_reference(layout: Layout, marks: &[bool], place: u32) -> bool
    ensures { result ≡ by.has_reference layout.rows layout.places marks.now place }
{
    mark_at(marks, layout.number(Node::Name(place)))
        || mark_at(marks, layout.number(Node::Unwrapping(place)))
        || mark_at(marks, layout.number(Node::Choice(place)))
}

// Whether a choice through the name of the place is marked.
fn has_choice(layout: Layout, marks: &[bool], place: u32) -> bool
    ensures { result ≡ by.has_choice layout.rows layout.places marks.now place }
{
    mark_at(marks, layout.number(Node::ChosenName(place)))
        || mark_at(marks, layout.number(Node::OpenedChoice(place)))
}

fn mark_at(marks: &[bool], number: Option<usize>) -> bool
    ensures { result ≡ by.mark_at marks.now number }
{
    match number {
        Some(number) => matches!(marks.get(number), Some(true)),
        None => false,
    }
}
