//! What the rows of terms and of entries are.

ghost use Rattle.std.specs.Prelude.{◌≡◌};
ghost use Rattle.cddl_language.specs.Terms.{Term, Entry as AnEntry};
ghost use Rattle.check_terms.specs.Trees.{IsEntry, IsTerm};
ghost use Rattle.table_making.specs.Shapes.{IsEntryShape, IsShape, entry_shape_by, pair_shape_by, shape_by};

use check_terms::{Form, Row, Terms};

/// What the row of a type is, with the rows of its parts and the number of its text.
#[derive(Clone, Copy)]
pub(crate) enum Shape {
    Literal,
    Named(u32),
    Parens(u32),
    MapOf(u32),
    ArrayOf(u32),
    Unwrapped(u32),
    ChoiceOf(u32),
    ChoiceOfName(u32),
    /// A text, and the content.
    Tagged(u32, u32),
    /// The type of the number, and the content.
    TaggedBy(u32, u32),
    SimpleBy(u32),
    /// A text.
    Hash(u32),
    Range(u32, u32),
    RangeBelow(u32, u32),
    /// A text, the type on the left, and the controller.
    Control(u32, u32, u32),
    Or,
    Other,
}

/// What the row of an entry is, with the row of its type or group.
#[derive(Clone, Copy)]
pub(crate) enum EntryShape {
    Typed(u32),
    Keyed(u32),
    Grouped(u32),
    Other,
}

/// The rows of the key and of the type of an entry.
#[derive(Clone, Copy)]
pub(crate) struct Pair {
    pub key: u32,
    pub value: u32,
}

pub(crate) fn shape_at(terms: &Terms<'_>, number: u32) -> Shape
    ensures { (x : Term) → IsTerm terms.now number x → IsShape terms.now x result }
{
    match terms.row(number) {
        Some(row) => shape_of(row),
        None => Shape::Other,
    }
}

fn shape_of(row: Row) -> Shape
    ensures { result ≡ shape_by row }
{
    match row.form {
        Form::Number | Form::Text | Form::Bytes => Shape::Literal,
        Form::Named => row.first.map_or(Shape::Other, Shape::Named),
        Form::Parens => row.first.map_or(Shape::Other, Shape::Parens),
        Form::MapOf => row.first.map_or(Shape::Other, Shape::MapOf),
        Form::ArrayOf => row.first.map_or(Shape::Other, Shape::ArrayOf),
        Form::Unwrapped => row.first.map_or(Shape::Other, Shape::Unwrapped),
        Form::ChoiceOf => row.first.map_or(Shape::Other, Shape::ChoiceOf),
        Form::ChoiceOfName => row.first.map_or(Shape::Other, Shape::ChoiceOfName),
        Form::SimpleBy => row.first.map_or(Shape::Other, Shape::SimpleBy),
        Form::Hash => row.text.map_or(Shape::Other, Shape::Hash),
        Form::Or => Shape::Or,
        _ => pair_shape_of(row),
    }
}

// Of a row with two parts, or with a text and a part.
fn pair_shape_of(row: Row) -> Shape
    ensures { result ≡ pair_shape_by row.form row.text row.first row.second }
{
    match (row.form, row.text, row.first, row.second) {
        (Form::Tagged, Some(text), Some(content), _) => Shape::Tagged(text, content),
        (Form::TaggedBy, _, Some(head), Some(content)) => Shape::TaggedBy(head, content),
        (Form::Range, _, Some(least), Some(last)) => Shape::Range(least, last),
        (Form::RangeBelow, _, Some(least), Some(last)) => Shape::RangeBelow(least, last),
        (Form::Control, Some(text), Some(left), Some(right)) => Shape::Control(text, left, right),
        _ => Shape::Other,
    }
}

pub(crate) fn entry_shape_at(terms: &Terms<'_>, number: u32) -> EntryShape
    ensures { (x : AnEntry) → IsEntry terms.now number x → IsEntryShape terms.now x result }
{
    match terms.row(number) {
        Some(row) => entry_shape_of(row),
        None => EntryShape::Other,
    }
}

fn entry_shape_of(row: Row) -> EntryShape
    ensures { result ≡ entry_shape_by row.form row.first row.second }
{
    match (row.form, row.first, row.second) {
        (Form::Typed, Some(part), _) => EntryShape::Typed(part),
        (Form::Keyed, _, Some(part)) => EntryShape::Keyed(part),
        (Form::Grouped, Some(part), _) => EntryShape::Grouped(part),
        _ => EntryShape::Other,
    }
}
