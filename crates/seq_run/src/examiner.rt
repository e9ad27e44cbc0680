//! What says of items whether they are accepted.

ghost use Rattle.std.specs.Prelude.{◌≡◌, ◌/◌, ◌<◌, ◌≤◌, ◌↔◌, ℕ, [], length, take, IfSome, IsTrue};
ghost use Rattle.cbor_data.specs.Value.{uint, Value};
ghost use Rattle.cbor_tape.specs.Tape.{IsWholeTape};
ghost use Rattle.cddl_meaning.specs.Forms.{major_of};
ghost use Rattle.seq_run.specs.Smalls.{AreSmallsTaken, IsLongestFront, IsMarked};

use cbor_item::{Item, Sound};
use cbor_read::ItemReader;
use cbor_tape::Entry;
use cddl_match::{Verdict, verdict};
use std::alloc::{AllocError, Global};
use std::marker::Model;
use table_nodes::{Table, Told};
use tape_match::accepts;

// How many unsigned integers are one byte.
const NUMBERS: usize = 24;

// How many items are passed over at most before the tape of one is asked again.
const LONGEST_PAUSE: u8 = 63;

// A specification with the steps that an item may take. It asks about a number below 24 until that is accepted once, since
// the specification accepts it again then.
#[derive(Drop)]
pub(crate) struct Examiner<'t> {
    table: &'t Table,
    steps: u64,
    accepted: [bool; NUMBERS],
    // So many items are passed over yet before the tape of one is asked again, and so many after the next that is not told by
    // its tape.
    passed: u8,
    pause: u8,
}

impl<'t> Model for Examiner<'t> {
    ghost use Rattle.seq_run.specs.Judge.{Judge, judge_of, coded_judge};
    ghost use Rattle.seq_run.specs.Accepted.{AreAccepted};

    ghost Value = { Judge };

    ghost coded = { coded_judge };

    ghost view = { λ e. judge_of e.table.now e.steps };

    ghost invariant = { λ e. AreAccepted (judge_of e.table.now e.steps) e.accepted };
}

impl<'t> Examiner<'t> {
    ghost use Rattle.seq_run.specs.Judge.{judge_of};
    ghost use Rattle.seq_run.specs.Ends.{Accepts, Misses, Overruns};

    // An examiner that has accepted no number yet.
    pub(crate) fn new(table: &'t Table, steps: u64) -> Examiner<'t>
        ensures { result ≡ judge_of table.now steps }
    {
        Examiner {
            table,
            steps,
            accepted: [false; NUMBERS],
            passed: 0,
            pause: 0,
        }
    }

    // What the specification says of the item.
    #[inline]
    pub(crate) fn verdict(&self, alloc: Global, item: &Sound) -> Result<Verdict, AllocError>
        ensures yes { result ≡ Ok Verdict.Yes → Accepts self.now item.now [] }
        ensures no { (place : ℕ) → result ≡ Ok (Verdict.No place) → Misses self.now item.now [] place }
        ensures spent { result ≡ Ok Verdict.Spent → Overruns self.now item.now [] }
    {
        verdict(alloc, self.table, item, self.steps)
    }

    // Whether to ask about the next item by its tape, where it begins with this byte. Where several in a row were not told so,
    // fewer are asked about, but each whose first byte tells it.
    #[inline]
    pub(crate) fn may_tell(&mut self, byte: u8) -> bool
        ensures { self.new ≡ self.old }
    {
        if self.passed == 0 || self.accepts_kind(byte) {
            return true;
        }
        self.passed -= 1;
        false
    }

    // Whether the table tells that the specification accepts each item whose initial byte is this one, whatever is in it.
    #[inline]
    fn accepts_kind(&self, byte: u8) -> bool
        ensures { IsTrue result → (x : Value) → major_of x ≡ byte / 32 → Accepts self.now x [] }
    {
        match self.table.told(self.table.root(), byte / 32) {
            Told::Yes(judgements) => u64::from(judgements) <= self.steps,
            Told::No(_) | Told::Nothing => false,
        }
    }

    // Whether the specification accepts the item that the tape stands for, where its first byte or the tape tells so. What its
    // byte strings hold has its tape on `spare`.
    #[inline]
    pub(crate) fn accepts_taped(
        &mut self,
        bytes: &[u8],
        tape: &[Entry],
        spare: &mut [Entry],
    ) -> bool
        requires { 0 < length bytes.now }
        ensures kept { self.new ≡ self.old }
        ensures accepted { IsTrue result → (depth n : ℕ) (whole : IsWholeTape depth bytes.now tape.now n) → Accepts self.old whole.value [] }
    {
        if self.accepts_kind(bytes[0]) {
            return true;
        }
        let is_told = accepts(self.table, bytes, tape, spare, self.steps);
        self.note(is_told);
        is_told
    }

    // Notes whether an item was told by its tape.
    #[inline]
    fn note(&mut self, is_told: bool)
        ensures { self.new ≡ self.old }
    {
        if is_told {
            self.pause = 0;
            return;
        }
        self.passed = self.pause;
        if self.pause < LONGEST_PAUSE {
            self.pause = 2 * self.pause + 1;
        }
    }

    // Whether the specification accepts the item. False also where there was no memory to say so.
    fn accepts_item(&self, alloc: Global, item: &Sound) -> bool
        ensures { IsTrue result → Accepts self.now item.now [] }
    {
        matches!(self.verdict(alloc, item), Ok(Verdict::Yes))
    }

    // Marks the number below 24 that the piece begins with, if it begins with one, where that is accepted.
    #[inline]
    pub(crate) fn ask(&mut self, alloc: Global, piece: &[u8])
        ensures { self.new ≡ self.old }
    {
        if piece.is_empty() || piece[0] >= 24 || self.accepted[usize::from(piece[0])] {
            return;
        }
        self.ask_now(alloc, piece[0]);
    }

    // The same of the number n, which is not marked.
    fn ask_now(&mut self, alloc: Global, n: u8)
        requires { n < 24 }
        ensures { self.new ≡ self.old }
    {
        let Some(item) = small_item(alloc, n) else {
            return;
        };
        if self.accepts_item(alloc, &item) {
            self.accepted[usize::from(n)] = true;
        }
    }

    // Takes the numbers at the front of the piece that are the next items and are marked, and answers how many.
    #[inline]
    pub(crate) fn take_marked(&self, reader: &mut ItemReader, piece: &[u8]) -> usize
        ensures within { result ≤ length piece.now }
        ensures taken { AreSmallsTaken (λ n. Accepts self.now (uint n) []) reader.old (take result piece.now) reader.new }
    {
        take_front(&self.accepted, reader, piece)
    }
}

// Takes the numbers at the front of the piece that are the next items and are marked, as many as there are, and answers how
// many.
#[inline]
fn take_front(marks: &[bool], reader: &mut ItemReader, piece: &[u8]) -> usize
    ensures front { IsLongestFront marks.now piece.now result reader.new }
    ensures taken { AreSmallsTaken (IsMarked marks.now) reader.old (take result piece.now) reader.new }
{
    for count in 0..piece.len() {
        if !is_marked(marks, piece[count]) {
            return count;
        }
        let Some(_) = reader.take_small(&piece[count..]) else {
            return count;
        };
    }
    piece.len()
}

#[inline]
fn is_marked(marks: &[bool], n: u8) -> bool
    ensures { IsTrue result ↔ IsMarked marks.now n }
{
    let n = usize::from(n);
    n < marks.len() && marks[n]
}

// The item that a byte below 24 is.
fn small_item(alloc: Global, byte: u8) -> Option<Sound>
    requires { byte < 24 }
    ensures { IfSome result (λ item. item ≡ uint byte) }
{
    Sound::try_spelled(alloc, Item::Uint(u64::from(byte))).ok()
}
