//! What maps say: what becomes of their pairs with the entries of each alternative.

ghost use Rattle.std.specs.Prelude.{◌≡◌, IfSome};
ghost use Rattle.item_nodes.specs.View.{pairs_view};
ghost use Rattle.cddl_meaning.specs.Forms as F;
ghost use Rattle.cddl_meaning.specs.Judges as J;
ghost use Rattle.cddl_meaning.specs.Moves as M;
ghost use Rattle.cddl_match.specs.Entering.{IsLead};
ghost use Rattle.cddl_match.specs.Tellings.{BeginAlike, IsTallied, KeySays, Meets, Sorts, Tallies};
ghost use Rattle.cddl_match.specs.Within.{Ends, Says, said_view};
ghost use Rattle.table_nodes.specs.Language.{language_of};
ghost use Rattle.table_nodes.specs.Nodes.{alternatives_view, entries_view, entry_view};

use crate::calls::{Said, Stop};
use crate::entering::{Lead, entries_from, front_for, lead_for, work_for};
use crate::means::Means;
use crate::replies::{either_said, key_tested};
use crate::saying::type_says_here;
use crate::tallied::{Tallied, nothing_tallied, told_with};
use cbor_item::Item;
use match_moves::{Fate, begin_tally, first_are_enough, place_after, plus, tally_pair};
use match_tests::{is_passed_at_once, is_passed_over};
use table_nodes::{MapEntry, Node, Table, TypeId};

// What a map at `base` says by what its alternatives say, all of them.
#[inline(never)]
#[cycle(saying)]
pub(crate) fn map_says<'i>(
    table: &Table,
    means: &mut Means<'i>,
    map: TypeId,
    alternatives: &[Vec<MapEntry>],
    base: usize,
    pairs: &'i [(Item, Item)],
    depth: u8,
) -> Said
    requires { (language_of table.now).type_at map ≡ F.MapOf (alternatives_view alternatives.now) }
    ensures { Ends (language_of table.now) (M.next_way (alternatives_view alternatives.now) base (pairs_view pairs.now) (J.Fails base)) means.old.left means.new.left (said_view result) }
{
    let mut tallied = nothing_tallied(means.shelf.alloc);
    let mut lead = None;
    let mut sofar = Said::No { far: base };
    for (way, entries) in alternatives.iter().enumerate() {
        let front = front_for(table, map, way, entries);
        lead = lead_for(table, map, way, entries, front, lead);
        tallied.alike = tallied.alike.min(front);
        match alternative_says(
            table,
            means,
            &mut tallied,
            lead,
            entries,
            base,
            pairs,
            depth,
        ) {
            Said::Spent => return Said::Spent,
            Said::NoMemory => return Said::NoMemory,
            said => sofar = either_said(sofar, said),
        }
    }
    sofar
}

// What an alternative of these entries says of the map at `base`. Alternatives often begin with the same entries: where
// these told what became of each pair in the one before, the pairs are not asked again.
#[cycle(saying)]
fn alternative_says<'t, 'i>(
    table: &Table,
    means: &mut Means<'i>,
    tallied: &mut Tallied<'t>,
    lead: Option<Lead<'_>>,
    entries: &'t [MapEntry],
    base: usize,
    pairs: &'i [(Item, Item)],
    depth: u8,
) -> Said
    requires known { IsTallied (language_of table.now) base (pairs_view pairs.now) tallied.old }
    requires alike { BeginAlike tallied.old.alike tallied.old.entries.now entries.now }
    requires lead { IfSome lead (IsLead (language_of table.now) (entries_view entries.now)) }
    ensures says { Says (language_of table.now) (M.OfAlternative (entries_view entries.now) base (pairs_view pairs.now)) means.old.left means.new.left (said_view result) }
    ensures known { IsTallied (language_of table.now) base (pairs_view pairs.now) tallied.new }
    ensures alike { BeginAlike tallied.new.alike tallied.new.entries.now entries.now }
{
    // Its entries are gone through at the end, also those that no pair belongs to.
    if !means.shelf.allowance.take_for(entries.len()) {
        return Said::NoMemory;
    }
    if let Some(told) = tallied.told_in(entries) {
        return tallied.says_again(table, means, told, entries, base, pairs);
    }
    let Some(left) = means.left.checked_sub(1) else {
        return Said::Spent;
    };
    means.left = left;
    match tally_pairs(table, means, tallied, lead, entries, base, pairs, depth) {
        Ok(()) => tallied.says(table, base, pairs),
        Err(Stop::Spent) => Said::Spent,
        Err(Stop::NoMemory) => Said::NoMemory,
    }
}

// What the pairs of the map at `base` come to with these entries, one after the other.
#[cycle(saying)]
fn tally_pairs<'t, 'i>(
    table: &Table,
    means: &mut Means<'i>,
    tallied: &mut Tallied<'t>,
    lead: Option<Lead<'_>>,
    entries: &'t [MapEntry],
    base: usize,
    pairs: &'i [(Item, Item)],
    depth: u8,
) -> Result<(), Stop>
    requires lead { IfSome lead (IsLead (language_of table.now) (entries_view entries.now)) }
    requires alike { BeginAlike tallied.old.alike tallied.old.entries.now entries.now }
    ensures comes { Tallies (language_of table.now) (entries_view entries.now) base (pairs_view pairs.now) means.old.left means.new.left tallied.new result }
    ensures known { IsTallied (language_of table.now) base (pairs_view pairs.now) tallied.new }
    ensures alike { BeginAlike tallied.new.alike tallied.new.entries.now entries.now }
{
    tallied.told = None;
    let Ok(()) = begin_tally(&mut tallied.tally, entries) else {
        return Err(Stop::NoMemory);
    };
    if !means
        .shelf
        .allowance
        .take_for(work_for(lead, entries, pairs))
    {
        return Err(Stop::NoMemory);
    }
    let mut told = Some(0);
    let steps = means.left;
    let mut place = plus(base, 1);
    let mut left = pairs;
    while let Some((pair, others)) = left.split_first() {
        // Each pair takes a step.
        let Some(some) = means.left.checked_sub(1) else {
            return Err(Stop::Spent);
        };
        means.left = some;
        let fate = pair_fate(table, means, lead, entries, pair, place, depth)?;
        told = told_with(told, fate, entries.len());
        tally_pair(&mut tallied.tally, fate);
        place = place_after(&pair.1, place_after(&pair.0, place));
        left = others;
    }
    if !means.shelf.allowance.may_count(base, place) {
        return Err(Stop::NoMemory);
    }
    tallied.entries = entries;
    tallied.alike = entries.len();
    tallied.told = told;
    tallied.enough = first_are_enough(told, entries, &tallied.tally);
    tallied.asked = steps - means.left;
    tallied.next = place;
    Ok(())
}

// What an entry's key type says of the key of a pair. An entry that is asked takes a step. One that is passed over takes
// none: it is known to be for one key, and the pair has another.
#[inline(always)]
#[cycle(saying)]
fn key_says<'i>(
    table: &Table,
    means: &mut Means<'i>,
    entry: &MapEntry,
    pair: &'i (Item, Item),
    place: usize,
    depth: u8,
) -> Said
    ensures { KeySays (language_of table.now) place pair.now (entry_view entry.now) means.old.left means.new.left (said_view result) }
{
    if let Some(Node::Plain(test)) = table.node(entry.key_type) {
        return key_tested(table, means, test, place, pair);
    }
    if is_passed_over(table, entry, &pair.0) {
        return Said::No { far: place };
    }
    let Some(left) = means.left.checked_sub(1) else {
        return Said::Spent;
    };
    means.left = left;
    type_says_here(table, means, entry.key_type, place, &pair.0, depth)
}

// What becomes of a pair, its key at `place`, at an entry with so many after it, if the pair is not handed on to those.
#[inline(always)]
#[cycle(saying)]
fn entry_meets<'i>(
    table: &Table,
    means: &mut Means<'i>,
    entry: &MapEntry,
    after: usize,
    pair: &'i (Item, Item),
    place: usize,
    depth: u8,
) -> Result<Option<Fate>, Stop>
    ensures { Meets (language_of table.now) place pair.now (entry_view entry.now) after means.old.left means.new.left result }
{
    match key_says(table, means, entry, pair, place, depth) {
        Said::Yes { .. } => {}
        Said::No { .. } => return Ok(None),
        Said::Spent => return Err(Stop::Spent),
        Said::NoMemory => return Err(Stop::NoMemory),
    }
    let value_place = place_after(&pair.0, place);
    if !means.shelf.allowance.may_count(place, value_place) {
        return Err(Stop::NoMemory);
    }
    match type_says_here(table, means, entry.value_type, value_place, &pair.1, depth) {
        Said::Yes { .. } => return Ok(Some(Fate::Matches { after })),
        Said::No { far } => {
            if entry.cuts {
                return Ok(Some(Fate::Fails { after, far }));
            }
            Ok(None)
        }
        Said::Spent => return Err(Stop::Spent),
        Said::NoMemory => return Err(Stop::NoMemory),
    }
}

// What becomes of a pair, its key at `place`, that is tried with these entries: with each in order, or where an index leads.
#[inline(always)]
#[cycle(saying)]
fn pair_fate<'i>(
    table: &Table,
    means: &mut Means<'i>,
    lead: Option<Lead<'_>>,
    entries: &[MapEntry],
    pair: &'i (Item, Item),
    place: usize,
    depth: u8,
) -> Result<Fate, Stop>
    requires { IfSome lead (IsLead (language_of table.now) (entries_view entries.now)) }
    ensures { Sorts (language_of table.now) place pair.now (entries_view entries.now) means.old.left means.new.left result }
{
    if let Some(lead) = lead {
        return led_fate(table, means, lead, entries, pair, place, depth);
    }
    let mut left = entries;
    while let Some((entry, others)) = left.split_first() {
        left = others;
        if is_passed_at_once(table, entry, &pair.0) {
            continue;
        }
        let after = others.len();
        if let Some(fate) = entry_meets(table, means, entry, after, pair, place, depth)? {
            return Ok(fate);
        }
    }
    Ok(Fate::Stray { place })
}

// What becomes of a pair, its key at `place`, that goes from one of these entries that may be asked about it to the next, by
// an index of them. It is no part of the loop over entries in order, which has no test for an index so.
#[inline(never)]
#[cycle(saying)]
fn led_fate<'i>(
    table: &Table,
    means: &mut Means<'i>,
    lead: Lead<'_>,
    entries: &[MapEntry],
    pair: &'i (Item, Item),
    place: usize,
    depth: u8,
) -> Result<Fate, Stop>
    requires { IsLead (language_of table.now) (entries_view entries.now) lead }
    ensures { Sorts (language_of table.now) place pair.now (entries_view entries.now) means.old.left means.new.left result }
{
    let mut next = lead.index.first(&pair.0);
    let mut at = next.first().min(lead.entries);
    while let Some((entry, others)) = entries_from(entries, at).split_first() {
        let after = others.len();
        if let Some(fate) = entry_meets(table, means, entry, after, pair, place, depth)? {
            return Ok(fate);
        }
        if at < lead.entries {
            next = lead.index.after(next);
            at = next.first().min(lead.entries);
        } else {
            at += 1;
        }
    }
    Ok(Fate::Stray { place })
}
