//! From which rows it follows that what stands at a row may be empty.

ghost use Rattle.std.specs.Prelude.{◌≡◌};
ghost use Rattle.check_groups.specs.Causes.Rows.{occurrence_at};
ghost use Rattle.check_groups.specs.Empty.Causes.{cause_from, cause_in, empty_cause};

use crate::causes::cause::RowCause;
use crate::causes::rows::{GroupRow, occurrence_at};
use crate::empty::occurrences::is_optional;
use check_terms::Terms;

// The cause of a row, where an entry that may stand no time may be empty whatever it is.
pub(crate) fn cause_of(terms: &Terms<'_>, row: GroupRow) -> RowCause
    ensures { result ≡ empty_cause terms.now.texts row }
{
    if is_optional(terms, occurrence_at(row)) {
        RowCause::Always
    } else {
        cause_in(row)
    }
}

// The same, whatever the occurrence: one alternative may be empty, all entries may be, and an entry is a group that may be.
fn cause_in(row: GroupRow) -> RowCause
    ensures { result ≡ cause_in row }
{
    match row {
        GroupRow::Other => RowCause::Never,
        GroupRow::Sole(entries) => RowCause::One(entries as usize),
        GroupRow::OrElse(group, entries) => RowCause::Either(group as usize, entries as usize),
        GroupRow::NoEntries => RowCause::Always,
        GroupRow::Entries(entries, entry) => RowCause::Both(entries as usize, entry as usize),
        GroupRow::Type(_) | GroupRow::Pair(_) => RowCause::Never,
        GroupRow::Group(_, group) => cause_from(group),
    }
}

fn cause_from(group: Option<u32>) -> RowCause
    ensures { result ≡ cause_from group }
{
    match group {
        Some(group) => RowCause::One(group as usize),
        None => RowCause::Never,
    }
}
