//! What stands at the rows of groups, of entries and of each entry.

ghost use Rattle.std.specs.Prelude.{◌≡◌, List, Option};
ghost use Rattle.cddl_language.specs.Reach.{entry_points, points};
ghost use Rattle.cddl_language.specs.Terms as L;
ghost use Rattle.cddl_language.specs.Terms.{Entry, Ref, Term, Text, typed};
ghost use Rattle.check_terms.specs.Table.{Holds, HoldsText};
ghost use Rattle.check_terms.specs.Trees.{entry_tree, term_tree};
ghost use Rattle.check_terms.specs.Entries.{is_entry};
ghost use Rattle.check_names.specs.Kinds.Heads.{HoldsRow};
ghost use Rattle.check_instances.specs.Closed.Closed.{AreReached};
ghost use Rattle.check_groups.specs.Causes.Resolved.{IsResolved};
ghost use Rattle.check_groups.specs.Causes.Rows.{IsEntryRow, IsRowAt, group_row, occurrence_at, part_row};

use check_instances::closed::Closed;
use check_instances::openings::laws::part_is_reached;
use check_instances::openings::{Opening, Part, part_of};
use check_names::kinds::Kinds;
use check_terms::{Form, Row, Terms};

/// What stands at a row, with its parts by their rows. The first number of an entry is that of the text of its occurrence, if
/// it has one.
#[derive(Clone, Copy)]
pub enum GroupRow {
    /// Neither a group nor entries nor an entry.
    Other,
    /// A group of one alternative, which has these entries.
    Sole(u32),
    /// A group, and an alternative more, which has these entries.
    OrElse(u32, u32),
    /// No entries.
    NoEntries,
    /// Entries, and an entry more.
    Entries(u32, u32),
    /// An entry whose type is no group.
    Type(Option<u32>),
    /// An entry with a key.
    Pair(Option<u32>),
    /// An entry that is a group: one in parentheses, named, or opened. With no alternatives the group has no row.
    Group(Option<u32>, Option<u32>),
}

// What stands at this row.
pub(crate) fn row_at(
    terms: &Terms<'_>,
    closed: &Closed,
    kinds: &Kinds,
    openings: &[Opening],
    number: u32,
) -> GroupRow
    ensures { (xs : List L.Definition) (root : Text) (refs : List Ref) → IsResolved xs root refs terms.now closed.now kinds.now openings.now → IsRowAt xs root terms.now number result }
{
    let Some(row) = terms.row(number) else {
        return GroupRow::Other;
    };
    if row.form.is_entry() {
        entry_row(terms, closed, kinds, openings, row)
    } else {
        group_row(row.form, row.first, row.second)
    }
}

/// The number of the text of an entry's occurrence, if it has one.
pub fn occurrence_at(row: GroupRow) -> Option<u32>
    ensures { result ≡ occurrence_at row }
{
    match row {
        GroupRow::Type(occurrence) | GroupRow::Pair(occurrence) | GroupRow::Group(occurrence, _) =>
            occurrence,
        _ => None,
    }
}

// What stands at a row of a group or of entries.
fn group_row(form: Form, first: Option<u32>, second: Option<u32>) -> GroupRow
    ensures { result ≡ group_row form first second }
{
    match (form, first, second) {
        (Form::Sole, Some(first), _) => GroupRow::Sole(first),
        (Form::OrElse, Some(first), Some(second)) => GroupRow::OrElse(first, second),
        (Form::NoEntries, _, _) => GroupRow::NoEntries,
        (Form::Entries | Form::EntriesComma, Some(first), Some(second)) => {
            GroupRow::Entries(first, second)
        }
        _ => GroupRow::Other,
    }
}

// What stands at a row of an entry.
fn entry_row(
    terms: &Terms<'_>,
    closed: &Closed,
    kinds: &Kinds,
    openings: &[Opening],
    row: Row,
) -> GroupRow
    ensures { (xs : List L.Definition) (root : Text) (refs : List Ref) → IsResolved xs root refs terms.now closed.now kinds.now openings.now → (e : Entry) → HoldsRow terms.now row (entry_tree e) → AreReached xs root (entry_points e) → IsEntryRow xs root terms.now e result }
{
    match row.form {
        Form::Typed => typed_row(terms, closed, kinds, openings, row),
        Form::Grouped => GroupRow::Group(row.text, row.first),
        _ => GroupRow::Pair(row.text),
    }
}

// What stands at a row of an entry without a key: its type may name or open a group.
fn typed_row(
    terms: &Terms<'_>,
    closed: &Closed,
    kinds: &Kinds,
    openings: &[Opening],
    row: Row,
) -> GroupRow
    ensures { (xs : List L.Definition) (root : Text) (refs : List Ref) → IsResolved xs root refs terms.now closed.now kinds.now openings.now → (o : Option Text) (x : Term) → HoldsText terms.now.texts row.text o → Holds terms.now row.first (term_tree x) → AreReached xs root (points x) → IsEntryRow xs root terms.now (typed o x) result }
{
    part_is_reached();
    let Some(number) = row.first else {
        return GroupRow::Other;
    };
    let part = part_of(terms, closed, kinds, openings, number);
    part_row(closed, row.text, part)
}

// The same by what the type is.
fn part_row(closed: &Closed, occurrence: Option<u32>, part: Part) -> GroupRow
    ensures { result ≡ part_row closed.now.meanings.items occurrence part }
{
    match part {
        Part::AsksType => GroupRow::Type(occurrence),
        Part::NamesGroup(place) => match closed.meanings.get(place as usize) {
            Some(meaning) => GroupRow::Group(occurrence, meaning.group),
            None => GroupRow::Other,
        },
        Part::Opens(_, group) => GroupRow::Group(occurrence, Some(group)),
    }
}
