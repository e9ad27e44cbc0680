//! The forms of groups.

ghost use Rattle.std.specs.Prelude.{◌≡◌, IfOk, List};
ghost use Rattle.cddl_language.specs.Language.{GroupName};
ghost use Rattle.cddl_language.specs.Terms.{Entries, Entry as AnEntry, Term, occurrence_of};
ghost use Rattle.check_instances.specs.Closed.Closed.{AreAlternatives};
ghost use Rattle.check_terms.specs.Table.{HoldsText};
ghost use Rattle.check_terms.specs.Trees.{IsEntries, IsEntry, IsTerm};
ghost use Rattle.table_making.specs.Basis.{IsSource, Sense};
ghost use Rattle.table_making.specs.Origins.{AreKnown, AreKnownEntries, IsAlternativesForm, IsEntriesForm, IsEntryForm, IsGroupForm, IsGroupOrigin, IsKnown, IsKnownEntry, IsPartForm, IsRoundForm};

use crate::asked::{Asked, asked_at};
use crate::chosen::alternative_rows;
use crate::form::GroupForm;
use crate::origin::{GroupOrigin, TypeOrigin};
use crate::row_origins::{entry_origins, sequence_origins};
use crate::shape::{EntryShape, entry_shape_at};
use crate::source::Source;
use crate::texts::times_at;
use check_instances::closed::entries;
use check_terms::{NoRoom, Terms};
use std::alloc::Global;

// The form of the group that is of this.
pub(crate) fn group_form(
    alloc: Global,
    terms: &Terms<'_>,
    source: &Source<'_>,
    origin: GroupOrigin,
) -> Result<GroupForm, NoRoom>
    ensures { IfOk result (λ f. (s : Sense) (n : GroupName) → IsSource s terms.now source.now → IsGroupOrigin s terms.now n origin → IsGroupForm s terms.now n f) }
{
    match origin {
        GroupOrigin::Alternatives(group) => alternatives_form(alloc, terms, group),
        GroupOrigin::Sequence(row) => entries_form(alloc, terms, row),
        GroupOrigin::Entry(row) => entry_form(alloc, terms, source, row),
        GroupOrigin::Round(row) => Ok(round_form(terms, source, row)),
    }
}

fn alternatives_form(
    alloc: Global,
    terms: &Terms<'_>,
    group: Option<u32>,
) -> Result<GroupForm, NoRoom>
    ensures { IfOk result (λ f. (s : Sense) (ess : List Entries) → AreAlternatives terms.now ess group → AreKnown s ess → IsAlternativesForm s terms.now ess f) }
{
    let rows = alternative_rows(alloc, terms, group)?;
    match sequence_origins(alloc, &rows) {
        Ok(origins) => Ok(GroupForm::Alternatives(origins)),
        Err(_) => Err(NoRoom),
    }
}

fn entries_form(alloc: Global, terms: &Terms<'_>, row: u32) -> Result<GroupForm, NoRoom>
    ensures { IfOk result (λ f. (s : Sense) (es : Entries) → IsEntries terms.now row es → AreKnownEntries s es → IsEntriesForm s terms.now es f) }
{
    let Ok(rows) = entries(alloc, terms, row) else {
        return Err(NoRoom);
    };
    match entry_origins(alloc, &rows) {
        Ok(origins) => Ok(GroupForm::Sequence(origins)),
        Err(_) => Err(NoRoom),
    }
}

// An entry, as often as it may stand (RFC 8610 section 3.2). Where the least number of times is over the most, no items are
// as the entry says.
fn entry_form(
    alloc: Global,
    terms: &Terms<'_>,
    source: &Source<'_>,
    row: u32,
) -> Result<GroupForm, NoRoom>
    ensures { IfOk result (λ f. (s : Sense) (e : AnEntry) → IsSource s terms.now source.now → IsEntry terms.now row e → IsKnownEntry s e → IsEntryForm s terms.now e f) }
{
    let Some(text) = occurrence_text(terms, row) else {
        return Ok(round_form(terms, source, row));
    };
    let times = times_at(terms, text)?;
    if times.are_once() {
        return Ok(round_form(terms, source, row));
    }
    if times.are_impossible() {
        return Ok(GroupForm::Alternatives(Vec::new(alloc)));
    }
    Ok(GroupForm::Repeat {
        least: times.least,
        most: times.most,
        group: GroupOrigin::Round(row),
    })
}

// The number of the text of the entry's occurrence, if it has one.
fn occurrence_text(terms: &Terms<'_>, row: u32) -> Option<u32>
    ensures { (e : AnEntry) → IsEntry terms.now row e → HoldsText terms.now.texts result (occurrence_of e) }
{
    match terms.row(row) {
        Some(row) => row.text,
        None => None,
    }
}

// One round of an entry.
fn round_form(terms: &Terms<'_>, source: &Source<'_>, row: u32) -> GroupForm
    ensures { (s : Sense) (e : AnEntry) → IsSource s terms.now source.now → IsEntry terms.now row e → IsKnownEntry s e → IsRoundForm s terms.now e result }
{
    match entry_shape_at(terms, row) {
        EntryShape::Typed(part) => part_form(terms, source, part),
        EntryShape::Keyed(part) => GroupForm::Entry(TypeOrigin::Row(part)),
        EntryShape::Grouped(group) => GroupForm::Ref(GroupOrigin::Alternatives(Some(group))),
        EntryShape::Other => GroupForm::Ref(GroupOrigin::Alternatives(None)),
    }
}

fn part_form(terms: &Terms<'_>, source: &Source<'_>, row: u32) -> GroupForm
    ensures { (s : Sense) (x : Term) → IsSource s terms.now source.now → IsTerm terms.now row x → IsKnown s x → IsPartForm s terms.now x result }
{
    match asked_at(terms, source, row) {
        Asked::Type => GroupForm::Entry(TypeOrigin::Row(row)),
        Asked::Group(group) => GroupForm::Ref(GroupOrigin::Alternatives(group)),
    }
}
