//! What maps on a tape say by what becomes of their pairs with the entries of each alternative.
ghost use Rattle.std.specs.Prelude.{◌≡◌, ◌<◌, ◌≤◌, ◌+◌, ◌-◌, ◌^◌, ℕ, List, length, slice_get, IfSome, IsTrue, Some, true, false};
ghost use Rattle.cbor_data.specs.Value.{Pairs, Value};
ghost use Rattle.cbor_tape.specs.Places.{ArePairsAt, IsAt};
ghost use Rattle.cbor_tape.specs.declared.places.Taped.{Taped};
ghost use Rattle.cddl_meaning.specs.Forms as F;
ghost use Rattle.cddl_meaning.specs.Judges.{is_up_to_most};
ghost use Rattle.table_nodes.specs.declared.nodes.GroupId.{GroupId as G};
ghost use Rattle.table_nodes.specs.declared.nodes.TypeId.{TypeId as N};
ghost use Rattle.table_nodes.specs.Language.{language_of};
ghost use Rattle.table_nodes.specs.Nodes.{alternatives_view, entries_view, entry_view, most_view};
ghost use Rattle.table_nodes.specs.Fronts.{BeginAlike};
ghost use Rattle.tape_match.specs.Says.{BeginSame, FormSays, IsLacking, is_enough};
ghost use Rattle.tape_match.specs.Told.{AreMet, IsNextOf, AreSorted, AreSortedAt, IsEntryTold, IsEntryToldAt, IsFormTold, IsFormToldAt, IsHandedWithin, IsKnown, IsLiteralKnown, IsMetWithin, IsPairToldAt, IsWayTold, IsWithin};

use crate::asking::part_tells;
use crate::before::{MOST_MET, MetPair, keep, met_before, same_from};
use crate::keys::key_known;
use crate::told::{Asked, Known, Meets, Met, Sorted, Spare, Tells, not_sorted};
use cbor_tape::Seen;
use table_nodes::{MapEntry, Most, Table, TypeId};

/// Counts of pairs are kept for so many entries. An alternative of more is not gone through: the table has an index of them.
const MOST_ENTRIES: usize = 16;

/// Of alternatives of so many entries it is kept what became of each pair.
const LEAST_LONG: usize = 10;

/// That is kept only where so many questions may still be asked in each other: it takes 700 bytes of the stack.
const LEAST_CALLS: u8 = 48;

// What a map says by what its alternatives say, all of them.
#[cycle(asking)]
#[inline(never)]
pub(crate) fn map_tells(
    on: &Asked<'_, '_>,
    spare: &mut Spare<'_>,
    map: TypeId,
    ways: &[Vec<MapEntry>],
    place: usize,
    depth: u8,
    most: u64,
) -> Tells
    requires some { 0 < most }
    requires form { (language_of on.now.table.now).type_at map ≡ F.MapOf (alternatives_view ways.now) }
    ensures told { IsFormToldAt (language_of on.now.table.now) (F.MapOf (alternatives_view ways.now)) on.now.taped place result }
    ensures within { IsWithin most result }
{
    let Some(Seen::Map { first, end }) = on.taped.seen(place) else {
        return Tells::Nothing;
    };
    if depth >= LEAST_CALLS && are_long(ways) {
        return long_ways_tell(on, spare, map, ways, first, end, depth, most);
    }
    ways_tell(on, spare, &mut [], map, ways, first, end, depth, most)
}

// Whether these are alternatives of so many entries that what became of each pair in one is kept for the next.
#[inline(always)]
fn are_long(ways: &[Vec<MapEntry>]) -> bool {
    match ways {
        [first, _, ..] => first.len() >= LEAST_LONG,
        _ => false,
    }
}

// The same of a map whose pairs have the places from this one up to `end`, where what became of each is kept.
#[cycle(asking)]
#[inline(never)]
fn long_ways_tell(
    on: &Asked<'_, '_>,
    spare: &mut Spare<'_>,
    map: TypeId,
    ways: &[Vec<MapEntry>],
    place: usize,
    end: usize,
    depth: u8,
    most: u64,
) -> Tells
    requires some { 0 < most }
    requires form { (language_of on.now.table.now).type_at map ≡ F.MapOf (alternatives_view ways.now) }
    ensures told { (ps : Pairs) → ArePairsAt on.now.taped place end ps → (x : Value) → F.pairs_in x ≡ Some ps → IsFormTold (language_of on.now.table.now) (F.MapOf (alternatives_view ways.now)) x result }
    ensures within { IsWithin most result }
{
    let mut met = [None; MOST_MET];
    ways_tell(on, spare, &mut met, map, ways, place, end, depth, most)
}

// The same, where as much is kept as there is room for.
#[cycle(asking)]
#[inline(always)]
fn ways_tell(
    on: &Asked<'_, '_>,
    spare: &mut Spare<'_>,
    met: &mut [Option<MetPair>],
    map: TypeId,
    ways: &[Vec<MapEntry>],
    place: usize,
    end: usize,
    depth: u8,
    most: u64,
) -> Tells
    requires some { 0 < most }
    requires form { (language_of on.now.table.now).type_at map ≡ F.MapOf (alternatives_view ways.now) }
    requires met { AreMet (language_of on.now.table.now) (alternatives_view ways.now) on.now.taped met.now }
    ensures told { (ps : Pairs) → ArePairsAt on.now.taped place end ps → (x : Value) → F.pairs_in x ≡ Some ps → IsFormTold (language_of on.now.table.now) (F.MapOf (alternatives_view ways.now)) x result }
    ensures within { IsWithin most result }
{
    let mut asked = 1;
    let mut says = false;
    let mut sorted = not_sorted();
    let mut fronts = fronts_from(on.table, map, ways, spare.fronts);
    spare.fronts = fronts;
    let mut number = 0;
    let mut left = ways;
    while let Some((way, others)) = left.split_first() {
        let entries = way.as_slice();
        let front = front_for(on.table, fronts, map, number);
        fronts = next_of(fronts, front);
        way_sorts(
            on,
            spare,
            met,
            &mut sorted,
            ways,
            number,
            front,
            entries,
            place,
            end,
            depth,
            most - asked,
        );
        match way_tells(&sorted, entries, most - asked) {
            Tells::Yes(more) => {
                asked += more;
                says = true;
            }
            Tells::No(more) => asked += more,
            Tells::Nothing => return Tells::Nothing,
        }
        number += 1;
        left = others;
    }
    if says {
        Tells::Yes(asked)
    } else {
        Tells::No(asked)
    }
}

// Where the table may keep with how many entries the alternatives of a map begin alike: often where it did so of the map before.
#[inline(always)]
fn fronts_from(table: &Table, map: TypeId, ways: &[Vec<MapEntry>], before: usize) -> usize {
    if ways.len() < 2 || table.front_near(before, map, 1) > 0 {
        return before;
    }
    table.fronts_from(map)
}

// With how many entries an alternative begins as the one before does, as far as the table keeps it there.
#[inline(always)]
fn front_for(table: &Table, fronts: usize, map: TypeId, way: usize) -> usize
    ensures { (ways : List (List (F.MapEntry N))) (some others : List (F.MapEntry N)) → (language_of table.now).type_at map ≡ F.MapOf ways → slice_get ways (way - 1) ≡ Some some → slice_get ways way ≡ Some others → BeginAlike result some others }
{
    if way == 0 {
        return 0;
    }
    table.front_near(fronts, map, way)
}

// The same after an alternative of which it keeps this.
#[inline(always)]
fn next_of(fronts: usize, front: usize) -> usize {
    fronts.wrapping_add(usize::from(front > 0))
}

// What becomes of the pairs that have the places from this one up to `end` in an alternative of these entries, by what became of
// them in the one before, which begins with so many of these: where each pair belongs to an entry that asks the same in both, the
// pairs are not asked again.
#[cycle(asking)]
#[inline(always)]
fn way_sorts(
    on: &Asked<'_, '_>,
    spare: &mut Spare<'_>,
    met: &mut [Option<MetPair>],
    sorted: &mut Sorted,
    ways: &[Vec<MapEntry>],
    number: usize,
    front: usize,
    entries: &[MapEntry],
    place: usize,
    end: usize,
    depth: u8,
    most: u64,
)
    ensures sorted { (before : List (F.MapEntry N)) → slice_get (alternatives_view ways.now) (number - 1) ≡ Some before → slice_get (alternatives_view ways.now) number ≡ Some (entries_view entries.now) → BeginAlike front before (entries_view entries.now) → AreMet (language_of on.now.table.now) (alternatives_view ways.now) on.now.taped met.old → AreSortedAt (language_of on.now.table.now) before on.now.taped place end sorted.old → AreSortedAt (language_of on.now.table.now) (entries_view entries.now) on.now.taped place end sorted.new }
    ensures met { (before : List (F.MapEntry N)) → slice_get (alternatives_view ways.now) (number - 1) ≡ Some before → slice_get (alternatives_view ways.now) number ≡ Some (entries_view entries.now) → BeginAlike front before (entries_view entries.now) → AreMet (language_of on.now.table.now) (alternatives_view ways.now) on.now.taped met.old → AreMet (language_of on.now.table.now) (alternatives_view ways.now) on.now.taped met.new }
{
    if entries.len() > MOST_ENTRIES {
        *sorted = not_sorted();
        return;
    }
    if !sorted.fallen && sorted.reach <= front {
        sorts_still(sorted, front, entries);
        return;
    }
    if met.is_empty() {
        *sorted = pairs_sort(on, spare, entries, place, end, depth, most);
        return;
    }
    let same = same_as_before(ways, number, front, entries);
    if !sorted.fallen && sorted.reach <= same {
        sorts_still(sorted, front, entries);
        return;
    }
    *sorted = long_pairs_sort(
        on, spare, met, entries, number, same, place, end, depth, most,
    );
}

// How many of the first entries of an alternative, which has this number and begins with so many of those of the one before, ask the
// same there.
#[inline(always)]
fn same_as_before(
    ways: &[Vec<MapEntry>],
    number: usize,
    front: usize,
    entries: &[MapEntry],
) -> usize
    ensures { (before : List (F.MapEntry N)) → slice_get (alternatives_view ways.now) (number - 1) ≡ Some before → BeginAlike front before (entries_view entries.now) → BeginSame result before (entries_view entries.now) }
{
    match ways.get(number.saturating_sub(1)) {
        Some(before) => same_from(before.as_slice(), entries, front),
        None => 0,
    }
}

// Pairs that were sorted to an alternative are sorted to one of these entries so, of which as many ask the same as these pairs belong
// to, and so many are the same.
#[inline(always)]
fn sorts_still(sorted: &mut Sorted, front: usize, entries: &[MapEntry])
    requires few { length entries.now ≤ 16 }
    requires none { sorted.now.fallen ≡ false }
    ensures { (l : F.Language N G) (t : Taped) (place end : ℕ) (before : List (F.MapEntry N)) → ((m n : ℕ) → F.pair_cost l.counting m ≡ F.pair_cost l.counting n) → BeginAlike front before (entries_view entries.now) → BeginSame sorted.old.reach before (entries_view entries.now) → AreSortedAt l before t place end sorted.old → AreSortedAt l (entries_view entries.now) t place end sorted.new }
{
    if front <= sorted.lacks {
        sorted.lacks = lacking(entries, &sorted.counts, front);
    }
}

// The same by each pair, where it is kept what becomes of it, and was kept what became of it in the alternative before. So many of the
// first entries ask the same there.
#[cycle(asking)]
#[inline(never)]
fn long_pairs_sort(
    on: &Asked<'_, '_>,
    spare: &mut Spare<'_>,
    met: &mut [Option<MetPair>],
    entries: &[MapEntry],
    number: usize,
    same: usize,
    place: usize,
    end: usize,
    depth: u8,
    most: u64,
) -> Sorted
    requires { length entries.now ≤ 16 }
    ensures sorted { (ws : List (List (F.MapEntry N))) → IsNextOf ws number same (entries_view entries.now) → AreMet (language_of on.now.table.now) ws on.now.taped met.old → AreSortedAt (language_of on.now.table.now) (entries_view entries.now) on.now.taped place end result }
    ensures met { (ws : List (List (F.MapEntry N))) → IsNextOf ws number same (entries_view entries.now) → AreMet (language_of on.now.table.now) ws on.now.taped met.old → AreMet (language_of on.now.table.now) ws on.now.taped met.new }
{
    each_sorts(
        on, spare, met, entries, number, same, place, end, depth, most,
    )
}

// The same, where nothing is kept.
#[cycle(asking)]
#[inline(never)]
fn pairs_sort(
    on: &Asked<'_, '_>,
    spare: &mut Spare<'_>,
    entries: &[MapEntry],
    place: usize,
    end: usize,
    depth: u8,
    most: u64,
) -> Sorted
    requires { length entries.now ≤ 16 }
    ensures { AreSortedAt (language_of on.now.table.now) (entries_view entries.now) on.now.taped place end result }
{
    each_sorts(on, spare, &mut [], entries, 0, 0, place, end, depth, most)
}

// The same, where as much is kept as there is room for.
#[cycle(asking)]
#[inline(always)]
fn each_sorts(
    on: &Asked<'_, '_>,
    spare: &mut Spare<'_>,
    met: &mut [Option<MetPair>],
    entries: &[MapEntry],
    number: usize,
    same: usize,
    place: usize,
    end: usize,
    depth: u8,
    most: u64,
) -> Sorted
    requires { length entries.now ≤ 16 }
    ensures sorted { (ws : List (List (F.MapEntry N))) → IsNextOf ws number same (entries_view entries.now) → AreMet (language_of on.now.table.now) ws on.now.taped met.old → AreSortedAt (language_of on.now.table.now) (entries_view entries.now) on.now.taped place end result }
    ensures met { (ws : List (List (F.MapEntry N))) → IsNextOf ws number same (entries_view entries.now) → AreMet (language_of on.now.table.now) ws on.now.taped met.old → AreMet (language_of on.now.table.now) ws on.now.taped met.new }
{
    let mut counts = [0u16; MOST_ENTRIES];
    let mut asked = 0;
    let mut fallen = false;
    let mut reach = 0;
    let mut at = place;
    let mut index = 0usize;
    while let Some((held, next)) = on.taped.first_pair(at, end) {
        if asked >= most || next <= at || next > end {
            return not_sorted();
        }
        let (key, number_of_pair) = (at, index);
        at = next;
        index = index.saturating_add(1);
        let left = most - asked - 1;
        match pair_met(
            on,
            spare,
            met,
            number_of_pair,
            entries,
            number,
            same,
            key,
            held,
            depth,
            left,
        ) {
            Meets::Takes { after, asked: more } => {
                asked += 1 + more;
                let position = entries.len() - 1 - after;
                let Some(count) = counts[position].checked_add(1) else {
                    return not_sorted();
                };
                counts[position] = count;
                reach = further(reach, position);
            }
            Meets::Falls(more) => {
                asked += 1 + more;
                fallen = true;
            }
            Meets::Nothing => return not_sorted(),
        }
    }
    Sorted {
        asked: Some(asked),
        fallen,
        reach,
        lacks: lacking(entries, &counts, 0),
        counts,
    }
}

// What becomes of a pair in the alternative of this number, by what became of it in the one before, where that is known.
#[cycle(asking)]
#[inline(always)]
fn pair_met(
    on: &Asked<'_, '_>,
    spare: &mut Spare<'_>,
    met: &mut [Option<MetPair>],
    index: usize,
    entries: &[MapEntry],
    number: usize,
    same: usize,
    key: usize,
    held: usize,
    depth: u8,
    most: u64,
) -> Meets
    ensures told { (ws : List (List (F.MapEntry N))) → IsNextOf ws number same (entries_view entries.now) → AreMet (language_of on.now.table.now) ws on.now.taped met.old → IsPairToldAt (language_of on.now.table.now) (entries_view entries.now) on.now.taped key held result }
    ensures met { (ws : List (List (F.MapEntry N))) → IsNextOf ws number same (entries_view entries.now) → AreMet (language_of on.now.table.now) ws on.now.taped met.old → AreMet (language_of on.now.table.now) ws on.now.taped met.new }
    ensures within { IsMetWithin most (length entries.now) result }
{
    let meets = match met_before(met, index, number, same, entries.len(), key, held, most) {
        Some(meets) => meets,
        None => pair_meets(on, spare, entries, key, held, depth, most),
    };
    keep(met, index, number, entries.len(), key, held, meets);
    meets
}

// The first entries, so many, and the one of this number with those before it.
#[inline(always)]
fn further(reach: usize, number: usize) -> usize
    requires { number < 16 }
    ensures least { reach ≤ result }
    ensures one { number < result }
    ensures most { (n : ℕ) → reach ≤ n → number < n → result ≤ n }
{
    if number < reach { reach } else { number + 1 }
}

// What an alternative of these entries says of pairs that were sorted to them, with its own judgement.
#[inline(always)]
fn way_tells(sorted: &Sorted, entries: &[MapEntry], most: u64) -> Tells
    ensures told { (l : F.Language N G) (ps : Pairs) → AreSorted l (entries_view entries.now) ps sorted.now → IsWayTold l (entries_view entries.now) ps result }
    ensures within { IsWithin most result }
{
    let Some(asked) = sorted.asked else {
        return Tells::Nothing;
    };
    if asked >= most {
        return Tells::Nothing;
    }
    if sorted.fallen {
        return Tells::No(1 + asked);
    }
    if sorted.lacks < entries.len() {
        return Tells::No(1 + asked);
    }
    Tells::Yes(1 + asked)
}

// The number of the first of these entries, from this one on, to which too few pairs belong, or too many; or a number that is none
// of theirs.
#[inline(always)]
fn lacking(entries: &[MapEntry], counts: &[u16; MOST_ENTRIES], from: usize) -> usize
    requires { length entries.now ≤ 16 }
    ensures { IsLacking (entries_view entries.now) counts.now from result }
{
    let mut number = from;
    while let Some(entry) = entries.get(number) {
        if !is_enough(entry, u64::from(counts[number])) {
            return number;
        }
        number += 1;
    }
    number
}

// Whether an entry asks for no more and no fewer pairs.
#[inline(always)]
fn is_enough(entry: &MapEntry, count: u64) -> bool
    ensures { result ≡ is_enough (entry_view entry.now) count }
{
    if count == 0 {
        return entry.least == 0;
    }
    count >= entry.least && is_up_to(count, entry.most)
}

// Whether so many pairs may belong to an entry.
#[inline(always)]
fn is_up_to(count: u64, most: Most) -> bool
    ensures { result ≡ is_up_to_most count (most_view most) }
{
    match most {
        Most::AtMost(most) => count <= most,
        Most::Any => true,
    }
}

// What becomes of a pair, whose key and value have these places, that is tried with these entries.
#[cycle(asking)]
#[inline(always)]
fn pair_meets(
    on: &Asked<'_, '_>,
    spare: &mut Spare<'_>,
    entries: &[MapEntry],
    key: usize,
    held: usize,
    depth: u8,
    most: u64,
) -> Meets
    ensures told { IsPairToldAt (language_of on.now.table.now) (entries_view entries.now) on.now.taped key held result }
    ensures within { IsMetWithin most (length entries.now) result }
{
    let Some(seen) = on.taped.seen(key) else {
        return Meets::Nothing;
    };
    let mut asked = 0;
    let mut left = entries;
    while let Some((entry, others)) = left.split_first() {
        left = others;
        let cost = match key_known(on.table, entry, seen) {
            Known::Other => continue,
            Known::Asked { cost } => cost,
            Known::Nothing => return Meets::Nothing,
        };
        if asked >= most {
            return Meets::Nothing;
        }
        match entry_meets(on, spare, entry, cost, key, held, depth, most - asked - 1) {
            Met::Takes(more) => {
                return Meets::Takes {
                    after: others.len(),
                    asked: asked + (1 + more),
                }
            }
            Met::Falls(more) => return Meets::Falls(asked + (1 + more)),
            Met::HandsOn(more) => asked += 1 + more,
            Met::Nothing => return Meets::Nothing,
        }
    }
    Meets::Falls(asked)
}

// What becomes of a pair at an entry that is asked about it: about its value alone where it is known in how many judgements the
// entry's key type says yes to its key. Where it is not, that number is 0.
#[cycle(asking)]
#[inline(always)]
fn entry_meets(
    on: &Asked<'_, '_>,
    spare: &mut Spare<'_>,
    entry: &MapEntry,
    cost: u64,
    key: usize,
    held: usize,
    depth: u8,
    most: u64,
) -> Met
    requires { 0 < cost → (k : Value) → IsAt on.now.taped key k → FormSays (language_of on.now.table.now) ((language_of on.now.table.now).type_at entry.now.key_type) k true cost }
    ensures told { IsEntryToldAt (language_of on.now.table.now) (entry_view entry.now) on.now.taped key held result }
    ensures within { IsHandedWithin most result }
{
    if cost > 0 {
        if most < cost {
            return Met::Nothing;
        }
        return value_meets(on, spare, entry, cost, held, depth, most - cost);
    }
    match part_tells(on, spare, entry.key_type, key, depth, most) {
        Tells::Yes(asked) => { value_meets(on, spare, entry, asked, held, depth, most - asked) }
        Tells::No(asked) => Met::HandsOn(asked),
        Tells::Nothing => Met::Nothing,
    }
}

// What becomes of a pair at an entry whose key type has said yes to its key, in so many judgements.
#[cycle(asking)]
#[inline(always)]
fn value_meets(
    on: &Asked<'_, '_>,
    spare: &mut Spare<'_>,
    entry: &MapEntry,
    asked: u64,
    held: usize,
    depth: u8,
    most: u64,
) -> Met
    requires { asked + most < 2 ^ 64 }
    ensures told { (k x : Value) → FormSays (language_of on.now.table.now) ((language_of on.now.table.now).type_at entry.now.key_type) k true asked → IsAt on.now.taped held x → IsEntryTold (language_of on.now.table.now) (entry_view entry.now) k x result }
    ensures within { IsHandedWithin (asked + most) result }
{
    match part_tells(on, spare, entry.value_type, held, depth, most) {
        Tells::Yes(more) => Met::Takes(asked + more),
        Tells::No(more) if entry.cuts => Met::Falls(asked + more),
        Tells::No(more) => Met::HandsOn(asked + more),
        Tells::Nothing => Met::Nothing,
    }
}
