//! What is known of the pairs of a map from the alternative before.

ghost use Rattle.std.specs.Prelude.{◌≡◌, ◌-◌, ℕ, List, Option, Some, IfSome, IsTrue, length, slice_get};
ghost use Rattle.cbor_tape.specs.declared.places.Taped.{Taped};
ghost use Rattle.cddl_meaning.specs.Forms as F;
ghost use Rattle.table_nodes.specs.declared.nodes.GroupId.{GroupId as G};
ghost use Rattle.table_nodes.specs.declared.nodes.TypeId.{TypeId as N};
ghost use Rattle.table_nodes.specs.Nodes.{entries_view, entry_view};
ghost use Rattle.tape_match.specs.Says.{AskTheSame, BeginSame};
ghost use Rattle.tape_match.specs.Told.{AreMet, IsMetWithin, IsNextOf, IsPairToldAt};

use crate::told::Meets;
use table_nodes::MapEntry;

/// So many pairs of a map are known from one alternative to the next.
pub(crate) const MOST_MET: usize = 8;

/// A pair that belongs to an entry of an alternative, which says yes to its value.
#[derive(Clone, Copy)]
pub(crate) struct MetPair {
    /// The alternative's number.
    pub way: usize,
    /// The places of the pair's key and value.
    pub key: usize,
    pub held: usize,
    /// The entry's number.
    pub number: usize,
    /// So many judgements were made.
    pub asked: u64,
}

// Whether two entries ask the same of a pair, however many pairs they ask for.
#[inline(always)]
fn ask_the_same(one: &MapEntry, other: &MapEntry) -> bool
    ensures { IsTrue result → AskTheSame (entry_view one.now) (entry_view other.now) }
{
    one.key_type.number == other.key_type.number
        && one.value_type.number == other.value_type.number
        && one.cuts == other.cuts
}

// Whether the entries of this number ask the same.
#[inline(always)]
fn are_same_at(some: &[MapEntry], others: &[MapEntry], number: usize) -> bool
    ensures { IsTrue result → (e : F.MapEntry N) × (f : F.MapEntry N) × (slice_get (entries_view some.now) number ≡ Some e) × (slice_get (entries_view others.now) number ≡ Some f) × AskTheSame e f }
{
    match (some.get(number), others.get(number)) {
        (Some(one), Some(other)) => ask_the_same(one, other),
        _ => false,
    }
}

// How many of the first entries of two alternatives ask the same, where so many do.
#[inline(never)]
pub(crate) fn same_from(some: &[MapEntry], others: &[MapEntry], front: usize) -> usize
    ensures { BeginSame front (entries_view some.now) (entries_view others.now) → BeginSame result (entries_view some.now) (entries_view others.now) }
{
    let mut number = front;
    while are_same_at(some, others, number) {
        number += 1;
    }
    number
}

// What becomes of a pair in the alternative of this number, which has so many entries, if it belongs to one of the first ones in the
// alternative before, of which so many ask the same in both.
#[inline(always)]
pub(crate) fn met_before(
    met: &[Option<MetPair>],
    index: usize,
    number: usize,
    same: usize,
    entries: usize,
    key: usize,
    held: usize,
    most: u64,
) -> Option<Meets>
    ensures told { IfSome result (λ m. (l : F.Language N G) (ws : List (List (F.MapEntry N))) (t : Taped) (es : List (F.MapEntry N)) → IsNextOf ws number same es → length es ≡ entries → AreMet l ws t met.now → IsPairToldAt l es t key held m) }
    ensures within { IfSome result (IsMetWithin most entries) }
{
    let Some(Some(pair)) = met.get(index) else {
        return None;
    };
    if pair.way != number.saturating_sub(1) || pair.key != key || pair.held != held {
        return None;
    }
    if pair.number >= same || pair.number >= entries || pair.asked > most {
        return None;
    }
    Some(Meets::Takes {
        after: entries - 1 - pair.number,
        asked: pair.asked,
    })
}

// Keeps what became of a pair in the alternative of this number, which has so many entries, for the next one.
#[inline(always)]
pub(crate) fn keep(
    met: &mut [Option<MetPair>],
    index: usize,
    way: usize,
    entries: usize,
    key: usize,
    held: usize,
    meets: Meets,
)
    ensures { (l : F.Language N G) (ws : List (List (F.MapEntry N))) (t : Taped) (es : List (F.MapEntry N)) → slice_get ws way ≡ Some es → length es ≡ entries → IsPairToldAt l es t key held meets → AreMet l ws t met.old → AreMet l ws t met.new }
{
    if index >= met.len() {
        return;
    }
    if let Meets::Takes { after, asked } = meets {
        if after < entries {
            met[index] = Some(MetPair {
                way,
                key,
                held,
                number: entries - 1 - after,
                asked,
            });
        }
    }
}
