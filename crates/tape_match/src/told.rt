//! What is told of a question about items on a tape.
ghost use Rattle.std.specs.Prelude.{◌≡◌, ◌+◌, ◌<◌, ◌^◌, None};
ghost use Rattle.cbor_data.specs.Value.{Value};
ghost use Rattle.cddl_meaning.specs.Forms as F;
ghost use Rattle.cddl_meaning.specs.Forms.{Language};
ghost use Rattle.table_nodes.specs.declared.nodes.GroupId.{GroupId};
ghost use Rattle.table_nodes.specs.declared.nodes.TypeId.{TypeId};
ghost use Rattle.tape_match.specs.Says.{FormSays};
ghost use Rattle.tape_match.specs.Told.{IsDoneWithin, IsFormTold, IsWithin, more_done, more_told, one_more, one_more_done};

use cbor_tape::{Entry, Taped};
use table_nodes::Table;

/// Where the tapes of what byte strings hold are written, how many bytes of them may be read yet, and where the table keeps with
/// how many entries the alternatives of the map that was asked last begin alike.
#[derive(Drop)]
pub(crate) struct Spare<'s> {
    pub tape: &'s mut [Entry],
    pub left: usize,
    pub fronts: usize,
}

/// What is asked: the types and groups of a table, of the items on a tape.
#[derive(Drop)]
pub(crate) struct Asked<'t, 'a> {
    pub table: &'t Table,
    pub taped: Taped<'a>,
}

/// What a type says of an item.
#[derive(Clone, Copy)]
pub(crate) enum Tells {
    /// Yes, in so many judgements.
    Yes(u64),
    /// No, in so many.
    No(u64),
    /// That is not told.
    Nothing,
}

/// What a test says of an item, in so many judgements beside its own: one for each bit that it asks about.
#[derive(Clone, Copy)]
pub(crate) struct Tested {
    pub says: bool,
    pub bits: u64,
}

/// What a group does with items.
#[derive(Clone, Copy)]
pub(crate) enum Does {
    /// It takes those up to the place `next`, in so many judgements.
    Takes { next: usize, asked: u64 },
    /// It fails, in so many.
    Fails(u64),
    /// That is not told.
    Nothing,
}

/// What becomes of a pair of a map in an alternative.
#[derive(Clone, Copy)]
pub(crate) enum Meets {
    /// It belongs to the entry with so many after it, which says yes to its value, in so many judgements.
    Takes { after: usize, asked: u64 },
    /// It belongs to none, or to one that says no to its value, in so many.
    Falls(u64),
    /// That is not told.
    Nothing,
}

/// What becomes of a pair at an entry that it is tried with.
#[derive(Clone, Copy)]
pub(crate) enum Met {
    /// It belongs to the entry, which says yes to its value, in so many judgements of its types.
    Takes(u64),
    /// It belongs to the entry, which says no to its value, in so many.
    Falls(u64),
    /// It is handed on to the entries after this one, in so many.
    HandsOn(u64),
    /// That is not told.
    Nothing,
}

/// What is known of the key of a pair and of an entry of a map.
#[derive(Clone, Copy)]
pub(crate) enum Known {
    /// The entry's key type is one value, and the key is another: the entry is not asked.
    Other,
    /// The entry is asked. Its key type is known to say yes to the key in so many judgements, or that is not known where it is 0.
    Asked { cost: u64 },
    /// That is not told.
    Nothing,
}

/// What becomes of the pairs of a map in an alternative.
#[derive(Clone, Copy)]
pub(crate) struct Sorted {
    /// So many judgements were made, if it is told.
    pub asked: Option<u64>,
    /// A pair belongs to no entry, or to one that says no to its value; or it is not told.
    pub fallen: bool,
    /// Each pair belongs to one of so many of the first entries.
    pub reach: usize,
    /// The number of the first entry to which too few pairs belong, or too many; or one that is no entry's, if there is none.
    pub lacks: usize,
    /// So many pairs belong to each entry, by its number.
    pub counts: [u16; 16],
}

// It is not told.
#[inline(always)]
pub(crate) fn not_sorted() -> Sorted
    ensures { result.asked ≡ None }
{
    Sorted {
        asked: None,
        fallen: true,
        reach: 0,
        lacks: 0,
        counts: [0u16; 16],
    }
}

// What is said in so many judgements, if they are no more than `most`.
#[inline(always)]
pub(crate) fn within(says: bool, asked: u64, most: u64) -> Tells
    ensures told { (l : Language TypeId GroupId) (f : F.Node TypeId GroupId) (x : Value) → FormSays l f x says asked → IsFormTold l f x result }
    ensures within { IsWithin most result }
{
    if asked > most {
        return Tells::Nothing;
    }
    if says {
        Tells::Yes(asked)
    } else {
        Tells::No(asked)
    }
}

// What is said in one judgement more.
#[inline(always)]
pub(crate) fn one_more(told: Tells, left: u64) -> Tells
    requires within { IsWithin left told }
    requires room { left + 1 < 2 ^ 64 }
    ensures more { result ≡ one_more told }
    ensures within { IsWithin (1 + left) result }
{
    match told {
        Tells::Yes(asked) => Tells::Yes(1 + asked),
        Tells::No(asked) => Tells::No(1 + asked),
        Tells::Nothing => Tells::Nothing,
    }
}

// What is said in so many judgements more.
#[inline(always)]
pub(crate) fn more_told(told: Tells, more: u64, left: u64) -> Tells
    requires within { IsWithin left told }
    requires room { left + more < 2 ^ 64 }
    ensures more { result ≡ more_told more told }
    ensures within { IsWithin (more + left) result }
{
    match told {
        Tells::Yes(asked) => Tells::Yes(more + asked),
        Tells::No(asked) => Tells::No(more + asked),
        Tells::Nothing => Tells::Nothing,
    }
}

// What is done in one judgement more.
#[inline(always)]
pub(crate) fn one_more_done(done: Does, left: u64) -> Does
    requires within { IsDoneWithin left done }
    requires room { left + 1 < 2 ^ 64 }
    ensures more { result ≡ one_more_done done }
    ensures within { IsDoneWithin (1 + left) result }
{
    match done {
        Does::Takes { next, asked } => Does::Takes {
            next,
            asked: 1 + asked,
        },
        Does::Fails(asked) => Does::Fails(1 + asked),
        Does::Nothing => Does::Nothing,
    }
}

// What is done in so many judgements more.
#[inline(always)]
pub(crate) fn more_done(done: Does, more: u64, left: u64) -> Does
    requires within { IsDoneWithin left done }
    requires room { left + more < 2 ^ 64 }
    ensures more { result ≡ more_done more done }
    ensures within { IsDoneWithin (more + left) result }
{
    match done {
        Does::Takes { next, asked } => Does::Takes {
            next,
            asked: more + asked,
        },
        Does::Fails(asked) => Does::Fails(more + asked),
        Does::Nothing => Does::Nothing,
    }
}
