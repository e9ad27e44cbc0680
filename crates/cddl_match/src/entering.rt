//! Which entries of an alternative are asked about a pair.

ghost use Rattle.std.specs.Prelude.{◌≡◌, ◌-◌, List, Some, IfSome, drop, slice_get};
ghost use Rattle.cddl_match.specs.Entering.{ArePassed, IsFirstAsked, IsLead};
ghost use Rattle.cddl_meaning.specs.Forms.{Language, MapEntry as Entry, MapOf};
ghost use Rattle.item_nodes.specs.View.{view};
ghost use Rattle.table_nodes.specs.Fronts.{BeginAlike};
ghost use Rattle.table_nodes.specs.Language.{language_of};
ghost use Rattle.table_nodes.specs.Nodes.{entries_view};
ghost use Rattle.table_nodes.specs.declared.nodes.GroupId.{GroupId};
ghost use Rattle.table_nodes.specs.declared.nodes.TypeId.{TypeId as Id};

use item_nodes::Item;
use match_held::work_of_keys;
use match_tests::is_passed_over;
use table_nodes::{LiteralIndex, MapEntry, Table, TypeId};

// These entries from the first one on that is asked about a pair with this key. The pair passes over those before it.
pub(crate) fn asked_from<'t>(table: &Table, entries: &'t [MapEntry], key: &Item) -> &'t [MapEntry]
    ensures passed { ArePassed (language_of table.now) (view key.now) (entries_view entries.now) (entries_view result.now) }
    ensures asked { IsFirstAsked (language_of table.now) (view key.now) (entries_view result.now) }
{
    let mut left = entries;
    while let Some((entry, others)) = left.split_first() {
        if !is_passed_over(table, entry, key) {
            break;
        }
        left = others;
    }
    left
}

/// An index that leads from one entry that may be asked about a pair to the next, among the first ones of an alternative. It may be that
/// of an alternative before, which begins with the same entries.
#[derive(Clone, Copy)]
pub(crate) struct Lead<'t> {
    pub(crate) index: &'t LiteralIndex,
    /// Among so many.
    pub(crate) entries: usize,
}

// What leads in an alternative that begins with so many of the entries of the one in which this leads.
#[inline]
fn narrowed<'t>(lead: Lead<'t>, front: usize) -> Option<Lead<'t>>
    ensures { (l : Language Id GroupId) (some others : List (Entry Id)) → BeginAlike front some others → IsLead l some lead.entry → IfSome result (IsLead l others) }
{
    if front == 0 {
        return None;
    }
    let Lead { index, entries } = lead;
    Some(Lead {
        index,
        entries: entries.min(front),
    })
}

/// Whether fewer entries are the same is not looked up.
const LEAST_KNOWN: usize = 10;

// With how many of these entries the alternative before begins, too, as far as that is looked up.
#[inline]
pub(crate) fn front_for(table: &Table, map: TypeId, way: usize, entries: &[MapEntry]) -> usize
    ensures { (ways : List (List (Entry Id))) (some : List (Entry Id)) → (language_of table.now).type_at map ≡ MapOf ways → slice_get ways (way - 1) ≡ Some some → slice_get ways way ≡ Some (entries_view entries.now) → BeginAlike result some (entries_view entries.now) }
{
    if way == 0 || entries.len() < LEAST_KNOWN {
        return 0;
    }
    table.front_of(map, way)
}

// What leads among the entries of an alternative of a map, of which so many come first in the one before, too: its own index, or what
// led there.
#[inline]
pub(crate) fn lead_for<'t>(
    table: &'t Table,
    map: TypeId,
    way: usize,
    entries: &[MapEntry],
    front: usize,
    before: Option<Lead<'t>>,
) -> Option<Lead<'t>>
    ensures { (ways : List (List (Entry Id))) (some : List (Entry Id)) → (language_of table.now).type_at map ≡ MapOf ways → slice_get ways way ≡ Some (entries_view entries.now) → BeginAlike front some (entries_view entries.now) → IfSome before.entry (IsLead (language_of table.now) some) → IfSome result (IsLead (language_of table.now) (entries_view entries.now)) }
{
    match table.entry_index_of(map, way, entries) {
        Some(index) => Some(Lead {
            index,
            entries: entries.len(),
        }),
        None => narrowed(before?, front),
    }
}

// How much work it may be that the pairs of a map pass over these entries. Where an index leads each pair finds its own among few.
pub(crate) fn work_for(
    lead: Option<Lead<'_>>,
    entries: &[MapEntry],
    pairs: &[(Item, Item)],
) -> usize {
    let led = match lead {
        Some(lead) => lead.entries,
        None => 0,
    };
    match entries.len().saturating_sub(led) {
        0 => 0,
        others => others.saturating_mul(work_of_keys(pairs)),
    }
}

// The entries from this position on.
#[inline]
pub(crate) fn entries_from(entries: &[MapEntry], at: usize) -> &[MapEntry]
    ensures { entries_view result.now ≡ drop at (entries_view entries.now) }
{
    match entries.split_at_checked(at) {
        Some((_, others)) => others,
        None => &[],
    }
}
