//! How the pairs of a map are sorted to the entries of an alternative.

ghost use Rattle.std.specs.Prelude.{◌≡◌, ◌≤◌, ◌+◌, ◌++◌, suc, [], length, take, drop, Some, IfNone, IfOk, IfSome, MatchOption};
ghost use Rattle.cbor_data.specs.Value.{place_count};
ghost use Rattle.item_nodes.specs.View.{pairs_view, view};
ghost use Rattle.cddl_meaning.specs.Forms.{pairs_in};
ghost use Rattle.cddl_meaning.specs.Judges as J;
ghost use Rattle.cddl_meaning.specs.Judges.{is_up_to_most};
ghost use Rattle.cddl_meaning.specs.Moves as M;
ghost use Rattle.cddl_meaning.specs.Moves.{
  InKey,
  InValue,
  OfAlternative,
  answer_reply,
  counted,
  either_reply,
  enough_of,
  first_move,
  fresh,
  map_move,
  next_entry,
  next_move,
  next_pair,
  next_way,
  no_counts,
  plus,
  sorted,
  tallied,
  tally_says,
};
ghost use Rattle.match_moves.specs.Tallies.{counted_again};
ghost use Rattle.match_moves.specs.Views.{counts_view, fate_view, move_view, pending_map_view, pending_view, reply_view, sorting_view, tally_view};
ghost use Rattle.match_tests.specs.Views.{subject_view};
ghost use Rattle.table_nodes.specs.declared.nodes.GroupId.{GroupId};
ghost use Rattle.table_nodes.specs.declared.nodes.TypeId.{TypeId};
ghost use Rattle.table_nodes.specs.Nodes.{alternatives_view, entries_view, entry_view, most_view};

use crate::counts::Counts;
use crate::places::{place_after, plus};
use crate::questions::{
    Entering, Fate, Move, Pending, PendingMap, Question, Reply, Sorting, Tally,
};
use item_nodes::Item;
use match_tests::Subject;
use std::alloc::{AllocError, Global};
use table_nodes::{MapEntry, Most};

/// Takes in what has become of a pair.
#[inline]
pub fn tally_pair(tally: &mut Tally, fate: Fate)
    ensures { tally_view tally.new ≡ tallied (tally_view tally.old) (fate_view fate) }
{
    match fate {
        Fate::Matches { after } => tally.counts.count(after),
        Fate::Fails { after, far } => {
            tally.counts.count(after);
            tally.failing = tally.failing.or(Some(far));
        }
        Fate::Stray { place } => tally.stray = tally.stray.or(Some(place)),
    }
}

/// The tally of an alternative without entries, before any pair. It takes no memory.
pub fn no_tally(alloc: Global) -> Tally
    ensures { tally_view result ≡ fresh {N = TypeId} [] }
{
    Tally {
        counts: Counts::new(alloc),
        stray: None,
        failing: None,
    }
}

/// Begins a tally anew, for an alternative with these entries and before any pair.
#[inline]
pub fn begin_tally(tally: &mut Tally, entries: &[MapEntry]) -> Result<(), AllocError>
    ensures { IfOk result (λ _. tally_view tally.new ≡ fresh (entries_view entries.now)) }
{
    tally.counts.begin(entries.len())?;
    tally.stray = None;
    tally.failing = None;
    Ok(())
}

// Before any pair of an alternative with these entries.
fn empty_tally(alloc: Global, entries: &[MapEntry]) -> Result<Tally, AllocError>
    ensures { IfOk result (λ tally. tally_view tally ≡ fresh (entries_view entries.now)) }
{
    let mut tally = no_tally(alloc);
    begin_tally(&mut tally, entries)?;
    Ok(tally)
}

// Whether so many pairs may belong to an entry.
fn is_up_to(count: u64, most: Most) -> bool
    ensures { result ≡ is_up_to_most count (most_view most) }
{
    match most {
        Most::AtMost(most) => count <= most,
        Most::Any => true,
    }
}

// Whether as many pairs belong to each entry as it asks for.
fn are_enough(entries: &[MapEntry], counts: &[u64]) -> bool
    ensures { result ≡ enough_of (entries_view entries.now) counts.now }
{
    let mut left = counts;
    for entry in entries {
        let (count, rest) = match left.split_first() {
            Some((count, rest)) => (*count, rest),
            None => return true,
        };
        if count < entry.least || !is_up_to(count, entry.most) {
            return false;
        }
        left = rest;
    }
    true
}

/// Where an alternative's no shows once all pairs of the map at `base` are tallied, if it says no.
#[inline(never)]
pub fn shown_by_tally(entries: &[MapEntry], base: usize, tally: &Tally) -> Option<usize>
    ensures { MatchOption result (tally_says (entries_view entries.now) base (tally_view tally.now) ≡ J.Yes) (λ far. tally_says (entries_view entries.now) base (tally_view tally.now) ≡ J.No far) }
{
    if let Some(far) = tally.stray {
        return Some(far);
    }
    if let Some(far) = tally.failing {
        return Some(far);
    }
    if !are_enough(entries, tally.counts.as_slice()) {
        return Some(base);
    }
    None
}

// Whether each entry lets no pair belong to it.
fn need_none(entries: &[MapEntry]) -> bool
    ensures { result ≡ enough_of (entries_view entries.now) (no_counts (entries_view entries.now)) }
{
    for entry in entries {
        if entry.least > 0 {
            return false;
        }
    }
    true
}

/// Whether as many pairs belong to each of the first entries, so many, as it asks for.
#[inline(never)]
pub fn first_are_enough(told: Option<usize>, entries: &[MapEntry], tally: &Tally) -> bool
    requires { IfSome told (λ told. (told ≤ length entries.now) × (told ≤ length (counts_view tally.now.counts))) }
    ensures { IfSome told (λ told. result ≡ enough_of (entries_view (take told entries.now)) (take told (counts_view tally.now.counts))) }
{
    match told {
        Some(told) => are_enough(&entries[..told], &tally.counts.as_slice()[..told]),
        None => false,
    }
}

// Whether as many pairs belong to each entry as it asks for, where they are those of so many of the first entries, which
// have enough or not.
#[inline]
fn are_enough_in_front(told: usize, enough: bool, entries: &[MapEntry], tally: &Tally) -> bool
    requires counted { told ≤ length (counts_view tally.now.counts) }
    requires there { told ≤ length entries.now }
    requires enough { enough ≡ enough_of (entries_view (take told entries.now)) (take told (counts_view tally.now.counts)) }
    ensures { result ≡ enough_of (entries_view entries.now) (take told (counts_view tally.now.counts) ++ no_counts (drop told (entries_view entries.now))) }
{
    let (_, others) = entries.split_at(told);
    enough && need_none(others)
}

/// Where an alternative's no shows once all pairs of the map at `base` are tallied, which belong to so many of the first
/// entries, if it says no.
#[inline]
pub fn shown_by_first(
    told: usize,
    enough: bool,
    entries: &[MapEntry],
    base: usize,
    tally: &Tally,
) -> Option<usize>
    requires counted { told ≤ length (counts_view tally.now.counts) }
    requires there { told ≤ length entries.now }
    requires enough { enough ≡ enough_of (entries_view (take told entries.now)) (take told (counts_view tally.now.counts)) }
    ensures { MatchOption result (tally_says (entries_view entries.now) base (counted_again told (entries_view entries.now) (tally_view tally.now)) ≡ J.Yes) (λ far. tally_says (entries_view entries.now) base (counted_again told (entries_view entries.now) (tally_view tally.now)) ≡ J.No far) }
{
    if let Some(far) = tally.stray.or(tally.failing) {
        return Some(far);
    }
    if !are_enough_in_front(told, enough, entries, tally) {
        return Some(base);
    }
    None
}

// What an alternative replies once all pairs of the map at `base`, which ends before `next`, are tallied.
fn alternative_reply<'i>(entries: &[MapEntry], base: usize, next: usize, tally: &Tally) -> Reply<'i>
    ensures { reply_view result ≡ answer_reply next (tally_says (entries_view entries.now) base (tally_view tally.now)) }
{
    match shown_by_tally(entries, base, tally) {
        Some(far) => Reply::Fails { far },
        None => Reply::Takes {
            left: &[],
            next,
            far: 0,
        },
    }
}

// The next pair of an alternative, its key at `place`; the reply, where there is none.
fn next_pair<'t, 'i>(
    entries: &'t [MapEntry],
    base: usize,
    place: usize,
    pairs: &'i [(Item, Item)],
    tally: Box<Tally>,
) -> Move<'t, 'i>
    ensures { (o : M.Pending TypeId GroupId) → move_view result o ≡ next_pair (entries_view entries.now) base place (pairs_view pairs.now) (tally_view tally.value) }
{
    match pairs {
        [] => Move::Answered(alternative_reply(entries, base, place, &tally)),
        [pair, rest @ ..] => Move::Tries(Sorting {
            entries,
            base,
            place,
            pair,
            rest,
            tally,
        }),
    }
}

/// An alternative asks first about the first pair of the map at `base`.
///
/// # Errors
///
/// `AllocError` where there is no memory for the tally.
pub fn alternative_move<'t, 'i>(
    alloc: Global,
    entries: &'t [MapEntry],
    base: usize,
    pairs: &'i [(Item, Item)],
) -> Result<Move<'t, 'i>, AllocError>
    ensures { IfOk result (λ m. (o : M.Pending TypeId GroupId) → move_view m o ≡ next_pair (entries_view entries.now) base (plus base 1) (pairs_view pairs.now) (fresh (entries_view entries.now))) }
{
    let tally = Box::new(alloc, empty_tally(alloc, entries)?)?;
    Ok(next_pair(entries, base, plus(base, 1), pairs, tally))
}

// The place of the pair's value.
fn value_place(sorting: &Sorting<'_, '_>) -> usize
    ensures { result ≡ (sorting_view sorting.now).value_place }
{
    place_after(&sorting.pair.0, sorting.place)
}

// It is known what becomes of the pair, and the next one is sorted.
fn sorted<'t, 'i>(sorting: Sorting<'t, 'i>, fate: Fate) -> Move<'t, 'i>
    ensures { (o : M.Pending TypeId GroupId) → move_view result o ≡ sorted (sorting_view sorting.entry) (fate_view fate) }
{
    let place = place_after(&sorting.pair.1, value_place(&sorting));
    let Sorting {
        entries,
        base,
        rest,
        mut tally,
        ..
    } = sorting;
    tally_pair(&mut tally, fate);
    next_pair(entries, base, place, rest, tally)
}

/// The pair is tried with the next of these entries.
pub fn next_entry<'t, 'i>(entries: &'t [MapEntry], sorting: Sorting<'t, 'i>) -> Move<'t, 'i>
    ensures { (o : M.Pending TypeId GroupId) → move_view result o ≡ next_entry (entries_view entries.now) (sorting_view sorting.entry) }
{
    let place = sorting.place;
    match entries {
        [] => sorted(sorting, Fate::Stray { place }),
        [entry, others @ ..] => Move::Enters(Entering {
            entry,
            others,
            sorting,
        }),
    }
}

/// The entry that a pair has come to is asked whether the pair's key is of its key type.
pub fn enter<'t, 'i>(entering: Entering<'t, 'i>, pending: &mut Pending<'t, 'i>) -> Move<'t, 'i>
    ensures { move_view result (pending_view pending.new) ≡ M.Asks (M.OfType (entry_view entering.entry.entry.now).key_type (sorting_view entering.entry.sorting).key_place (sorting_view entering.entry.sorting).key) (InKey (entry_view entering.entry.entry.now) (entries_view entering.entry.others.now) (sorting_view entering.entry.sorting)) }
{
    let Entering {
        entry,
        others,
        sorting,
    } = entering;
    let place = sorting.place;
    let pair = sorting.pair;
    *pending = Pending::Map(PendingMap::Key {
        entry,
        others,
        sorting,
    });
    Move::Asks(Question::OfType {
        node: entry.key_type,
        place,
        subject: Subject::Item(&pair.0),
    })
}

// An entry's key type has replied: where it says yes, the entry asks about the value.
fn next_in_key<'t, 'i>(
    entry: &'t MapEntry,
    others: &'t [MapEntry],
    sorting: Sorting<'t, 'i>,
    reply: Reply<'i>,
    pending: &mut Pending<'t, 'i>,
) -> Move<'t, 'i>
    ensures { move_view result (pending_view pending.new) ≡ next_move (InKey (entry_view entry.now) (entries_view others.now) (sorting_view sorting.entry)) (reply_view reply.entry) }
{
    match reply {
        Reply::Takes { .. } => {
            let place = value_place(&sorting);
            let pair = sorting.pair;
            *pending = Pending::Map(PendingMap::Value {
                entry,
                others,
                sorting,
            });
            Move::Asks(Question::OfType {
                node: entry.value_type,
                place,
                subject: Subject::Item(&pair.1),
            })
        }
        Reply::Fails { .. } => next_entry(others, sorting),
    }
}

// An entry's value type has replied: where it says no, the pair is the entry's only if it cuts.
fn next_in_value<'t, 'i>(
    entry: &'t MapEntry,
    others: &'t [MapEntry],
    sorting: Sorting<'t, 'i>,
    reply: Reply<'i>,
    pending: &mut Pending<'t, 'i>,
) -> Move<'t, 'i>
    ensures { move_view result (pending_view pending.new) ≡ next_move (InValue (entry_view entry.now) (entries_view others.now) (sorting_view sorting.entry)) (reply_view reply.entry) }
{
    let after = others.len();
    match reply {
        Reply::Takes { .. } => sorted(sorting, Fate::Matches { after }),
        Reply::Fails { far } if entry.cuts => sorted(sorting, Fate::Fails { after, far }),
        Reply::Fails { .. } => next_entry(others, sorting),
    }
}

// The next alternative of the map at `base`; what those before replied, where there is none.
fn next_way<'t, 'i>(
    alternatives: &'t [Vec<MapEntry>],
    base: usize,
    pairs: &'i [(Item, Item)],
    sofar: Reply<'i>,
    pending: &mut Pending<'t, 'i>,
) -> Move<'t, 'i>
    ensures { move_view result (pending_view pending.new) ≡ next_way (alternatives_view alternatives.now) base (pairs_view pairs.now) (reply_view sofar.entry) }
{
    match alternatives {
        [] => Move::Answered(sofar),
        [entries, alternatives @ ..] => {
            *pending = Pending::Map(PendingMap::Ways {
                alternatives,
                base,
                pairs,
                sofar,
            });
            Move::Asks(Question::OfAlternative {
                entries,
                base,
                pairs,
            })
        }
    }
}

// A map asks its alternatives, all of them.
#[tactic(auto, using(crate::proofs::Lists::pairs_of_map))]
pub(crate) fn map_move<'t, 'i>(
    alternatives: &'t [Vec<MapEntry>],
    place: usize,
    subject: Subject<'i>,
    pending: &mut Pending<'t, 'i>,
) -> Move<'t, 'i>
    ensures { move_view result (pending_view pending.new) ≡ map_move (alternatives_view alternatives.now) place (pairs_in (subject_view subject.entry)) }
{
    let no = Reply::Fails { far: place };
    match subject {
        Subject::Item(Item::Map(pairs)) => next_way(alternatives, place, pairs, no, pending),
        _ => Move::Answered(no),
    }
}

// The yes of one of them; else a no that shows at the greater place.
fn either_reply<'i>(sofar: Reply<'i>, reply: Reply<'i>) -> Reply<'i>
    ensures { reply_view result ≡ either_reply (reply_view sofar.entry) (reply_view reply.entry) }
{
    match (sofar, reply) {
        (Reply::Fails { far }, Reply::Fails { far: later }) => Reply::Fails {
            far: far.max(later),
        },
        (Reply::Fails { .. }, _) => reply,
        _ => sofar,
    }
}

// An alternative of a map has replied.
fn next_in_map<'t, 'i>(
    alternatives: &'t [Vec<MapEntry>],
    base: usize,
    pairs: &'i [(Item, Item)],
    sofar: Reply<'i>,
    reply: Reply<'i>,
    pending: &mut Pending<'t, 'i>,
) -> Move<'t, 'i>
    ensures { move_view result (pending_view pending.new) ≡ next_move (M.InMap (alternatives_view alternatives.now) base (pairs_view pairs.now) (reply_view sofar.entry)) (reply_view reply.entry) }
{
    next_way(
        alternatives,
        base,
        pairs,
        either_reply(sofar, reply),
        pending,
    )
}

// What a map or an alternative of one that waits asks next, or its reply.
pub(crate) fn next_of_map<'t, 'i>(
    waits: PendingMap<'t, 'i>,
    reply: Reply<'i>,
    pending: &mut Pending<'t, 'i>,
) -> Move<'t, 'i>
    ensures { move_view result (pending_view pending.new) ≡ next_move (pending_map_view waits.entry) (reply_view reply.entry) }
{
    match waits {
        PendingMap::Ways {
            alternatives,
            base,
            pairs,
            sofar,
        } => return next_in_map(alternatives, base, pairs, sofar, reply, pending),
        PendingMap::Key {
            entry,
            others,
            sorting,
        } => return next_in_key(entry, others, sorting, reply, pending),
        PendingMap::Value {
            entry,
            others,
            sorting,
        } => return next_in_value(entry, others, sorting, reply, pending),
    }
}
