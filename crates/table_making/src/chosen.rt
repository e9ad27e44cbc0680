//! The types from which `&` chooses (RFC 8610 section 2.2.2.2).

ghost use Rattle.std.specs.Prelude.{◌≡◌, IfOk, List, OnOk, true};
ghost use Rattle.cddl_language.specs.Choices.{can_choose};
ghost use Rattle.cddl_language.specs.Language as L;
ghost use Rattle.cddl_language.specs.Kinds as K;
ghost use Rattle.cddl_language.specs.Terms.{Entries, Entry as AnEntry, Term};
ghost use Rattle.cddl_meaning.specs.Alike.{AlikeAll};
ghost use Rattle.check_groups.specs.Choosing.Nesting.{AreChosenEntries, IsChosenEntry, IsChosenPart};
ghost use Rattle.check_instances.specs.Closed.Closed.{AreAlternatives, EntriesRow};
ghost use Rattle.check_terms.specs.Trees.{IsEntries, IsEntry, IsTerm};
ghost use Rattle.table_making.specs.Basis.{IsSource, Sense};
ghost use Rattle.table_making.specs.Origins.{AddsChosen, AreChosen, AreKnown, AreKnownEntries, IsKnown, IsKnownEntry, IsTypeOrigin};

use crate::asked::{Asked, asked_at};
use crate::origin::TypeOrigin;
use crate::shape::{EntryShape, entry_shape_at};
use crate::source::Source;
use check_groups::choosing::laws::choices_nest;
use check_instances::closed::{alternatives, entries};
use check_terms::{NoRoom, Terms, push};
use std::alloc::Global;

// The rows of the alternatives of a group's row, or of none.
pub(crate) fn alternative_rows(
    alloc: Global,
    terms: &Terms<'_>,
    group: Option<u32>,
) -> Result<Vec<u32>, NoRoom>
    ensures { IfOk result (λ v. (ess : List Entries) → AreAlternatives terms.now ess group → AlikeAll (EntriesRow terms.now) ess v.items) }
{
    let Some(group) = group else {
        return Ok(Vec::new(alloc));
    };
    match alternatives(alloc, terms, group) {
        Ok(rows) => Ok(rows),
        Err(_) => Err(NoRoom),
    }
}

// The types of all entries of the alternatives, from which `&` can choose.
pub(crate) fn chosen(
    alloc: Global,
    terms: &Terms<'_>,
    source: &Source<'_>,
    group: Option<u32>,
) -> Result<Vec<TypeOrigin>, NoRoom>
    ensures { IfOk result (λ v. (s : Sense) (ess : List Entries) → IsSource s terms.now source.now → AreAlternatives terms.now ess group → AreKnown s ess → can_choose s.definitions ess ≡ true → AreChosen s terms.now ess v.items) }
{
    choices_nest();
    let rows = alternative_rows(alloc, terms, group)?;
    let mut chosen = Vec::new(alloc);
    for row in &rows {
        add_chosen(alloc, terms, source, *row, &mut chosen)?;
    }
    Ok(chosen)
}

// Adds the types of the entries of an alternative.
fn add_chosen(
    alloc: Global,
    terms: &Terms<'_>,
    source: &Source<'_>,
    row: u32,
    chosen: &mut Vec<TypeOrigin>,
) -> Result<(), NoRoom>
    ensures { OnOk result ((s : Sense) (es : Entries) → IsSource s terms.now source.now → IsEntries terms.now row es → AreKnownEntries s es → AreChosenEntries s.definitions es → AddsChosen s terms.now es chosen.old.items chosen.new.items) }
{
    let Ok(entries) = entries(alloc, terms, row) else {
        return Err(NoRoom);
    };
    for entry in &entries {
        push(chosen, chosen_entry(terms, source, *entry))?;
    }
    Ok(())
}

fn chosen_entry(terms: &Terms<'_>, source: &Source<'_>, entry: u32) -> TypeOrigin
    ensures { (s : Sense) (e : AnEntry) → IsSource s terms.now source.now → IsEntry terms.now entry e → IsKnownEntry s e → IsChosenEntry s.definitions e → IsTypeOrigin s terms.now (L.chosen_name s.worth s.definitions e) result }
{
    match entry_shape_at(terms, entry) {
        EntryShape::Typed(row) => chosen_part(terms, source, row),
        EntryShape::Keyed(row) => TypeOrigin::Row(row),
        EntryShape::Grouped(group) => TypeOrigin::Chosen(Some(group)),
        EntryShape::Other => TypeOrigin::Chosen(None),
    }
}

fn chosen_part(terms: &Terms<'_>, source: &Source<'_>, row: u32) -> TypeOrigin
    ensures { (s : Sense) (x : Term) → IsSource s terms.now source.now → IsTerm terms.now row x → IsKnown s x → IsChosenPart s.definitions (K.part_of s.definitions x) → IsTypeOrigin s terms.now (L.chosen_part_name s.worth s.definitions x (K.part_of s.definitions x)) result }
{
    match asked_at(terms, source, row) {
        Asked::Type => TypeOrigin::Row(row),
        Asked::Group(group) => TypeOrigin::Chosen(group),
    }
}
