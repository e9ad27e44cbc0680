//! From which rows it follows that `&` can choose from what stands at a row.

ghost use Rattle.std.specs.Prelude.{◌≡◌};
ghost use Rattle.check_groups.specs.Causes.Rows.{occurrence_at};
ghost use Rattle.check_groups.specs.Choosing.Causes.{cause_from, cause_in, choosing_cause};

use crate::causes::cause::RowCause;
use crate::causes::rows::{GroupRow, occurrence_at};
use crate::choosing::occurrences::is_once;
use check_terms::Terms;

// The cause of a row, where an entry has to occur once.
pub(crate) fn cause_of(terms: &Terms<'_>, row: GroupRow) -> RowCause
    ensures { result ≡ choosing_cause terms.now.texts row }
{
    if is_once(terms, occurrence_at(row)) {
        cause_in(row)
    } else {
        RowCause::Never
    }
}

// The same, whatever the occurrence: what is chosen from are all alternatives, all entries, and each entry that is a group.
fn cause_in(row: GroupRow) -> RowCause
    ensures { result ≡ cause_in row }
{
    match row {
        GroupRow::Other => RowCause::Never,
        GroupRow::Sole(entries) => RowCause::One(entries as usize),
        GroupRow::OrElse(group, entries) => RowCause::Both(group as usize, entries as usize),
        GroupRow::NoEntries => RowCause::Always,
        GroupRow::Entries(entries, entry) => RowCause::Both(entries as usize, entry as usize),
        GroupRow::Type(_) | GroupRow::Pair(_) => RowCause::Always,
        GroupRow::Group(_, group) => cause_from(group),
    }
}

// Without alternatives there is nothing that a group would need.
fn cause_from(group: Option<u32>) -> RowCause
    ensures { result ≡ cause_from group }
{
    match group {
        Some(group) => RowCause::One(group as usize),
        None => RowCause::Always,
    }
}
