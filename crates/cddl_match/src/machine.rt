//! A machine that judges an item, one question a turn.

ghost use Rattle.std.specs.Prelude.{◌≡◌, ◌⊎◌, ◌+◌, ◌*◌, ◌≤◌, ℕ, [], length, None, Some, Ok, IfOk, OnErr};
ghost use Rattle.cbor_data.specs.Preferred.{preferred};
ghost use Rattle.cddl_meaning.specs.Judges.{Answer};
ghost use Rattle.cddl_match.specs.Machine.{IsVerdict, LastNeedsRoom, root_question};
ghost use Rattle.cddl_match.specs.Open.{AreOpen};
ghost use Rattle.cddl_match.specs.Progress.{GoesOn, IsAnswer, IsSame};
ghost use Rattle.match_moves.specs.Views.{reply_view};
ghost use Rattle.cddl_match.specs.Machine.{verdict_of};
ghost use Rattle.cddl_match.specs.declared.answers.End.TheVariants as E;
ghost use Rattle.match_moves.specs.declared.questions.Reply as R;
ghost use Rattle.cddl_meaning.specs.Ranks.Decided.{IsDecided};
ghost use Rattle.table_nodes.specs.Language.{RootSays, language_of, ranks_of, root_form};

use crate::answers::{End, Verdict};
use crate::stack::{Run, Turned, step};
use cbor_item::Sound;
use match_held::{Cells, Shelf};
use match_moves::{Move, Question, Reply};
use match_tests::Subject;
use std::alloc::{AllocError, Global};
use std::marker::Model;
use table_nodes::Table;

/// Asks the root type of a table about an item, one question a turn.
///
/// A question is a type asked of an item, or of the number of a tag or of a simple value; a group asked of a list of items; or
/// an alternative of a map asked of its pairs. It is open from the turn that asks it until the turn that takes it off, which is
/// when it has its reply. The first open question is that of the root type, and each further one was asked by the one before
/// it.
///
/// Contracts see the table, the item, the most steps, how many open questions there is room for, the steps taken so far,
/// the list of open questions, and what ended it, if something has.
#[derive(Drop)]
pub struct Machine<'t, 'i> {
    table: &'t Table,
    item: &'i Sound,
    steps: u64,
    room: usize,
    run: Run<'t, 'i>,
    shelf: Shelf<'i>,
    end: Option<End>,
}

impl<'t, 'i> Model for Machine<'t, 'i> {
    ghost use Rattle.cddl_match.specs.Progress.{IsMachine, Progress, coded_progress, progress_of};

    ghost Value = { Progress };

    ghost coded = { coded_progress };

    ghost view = { λ m. progress_of m.table.now m.item.now m.steps m.room m.run m.end };

    ghost invariant = { λ m. IsMachine m.table.now m.item.now m.steps m.room m.run m.end };
}

// What a table says whose root type has replied.
fn verdict_by(next: &Move<'_, '_>) -> Verdict
    ensures { (r : R.Reply) → next.now ≡ Move.Answered r → result ≡ verdict_of (reply_view r) }
{
    match next {
        Move::Answered(Reply::Takes { .. }) => Verdict::Yes,
        Move::Answered(Reply::Fails { far }) => Verdict::No { place: *far },
        _ => Verdict::Spent,
    }
}

impl<'t, 'i> Machine<'t, 'i> {
    /// A machine that has asked nothing yet, with the room for so many open questions. What byte strings hold is put into the
    /// cells, and stays there as long as these; what is in them before is let go of.
    ///
    /// # Errors
    ///
    /// `AllocError` where there is no memory for that room.
    pub fn new(
        alloc: Global,
        cells: &'i mut Cells,
        table: &'t Table,
        item: &'i Sound,
        steps: u64,
        room: usize,
    ) -> Result<Machine<'t, 'i>, AllocError>
        ensures { IfOk result (λ it. it ≡ record { table = table.now; item = item.now; steps = steps; room = room; taken = 0; asked = []; ended = None }) }
    {
        let waiting = Vec::with_capacity(alloc, room)?;
        *cells = Cells::new(alloc);
        let whole = item.item();
        let root = Question::OfType {
            node: table.root(),
            place: 0,
            subject: Subject::Item(whole),
        };
        Ok(Machine {
            table,
            item,
            steps,
            room,
            run: Run {
                waiting,
                next: Move::Asks(root),
                taken: 0,
                owed: 0,
            },
            shelf: Shelf::for_item(alloc, cells, whole),
            end: None,
        })
    }

    /// Takes a turn. One that answers `None` asks one question more; or tries a pair of a map, or comes to an entry that is asked
    /// about it; or counts a bit that is set; or takes the last question off, which has its reply. All but the last are steps.
    /// Entries that a pair passes over are gone by in the turn that goes on after them, at no step. From an answer on each turn
    /// answers the same. A turn takes a time in proportion to the item and to the entries of an alternative at most.
    ///
    /// # Errors
    ///
    /// `AllocError` where there is no memory. From then on each turn answers so. The first time this comes only where as many
    /// questions are open as there was room for, or where the last one is of a map, of an alternative of one, or of what a byte
    /// string holds.
    pub fn turn(&mut self) -> Result<Option<Verdict>, AllocError>
        // Whatever is answered, the root type says exactly one thing of the item.
        ensures decided { IsDecided (language_of self.old.table) (root_form self.old.table) 0 self.old.item }
        ensures same { IsSame self.old self.new }
        // It goes on: one step was taken, and one question more is open or none; or the last one was taken off.
        ensures goes { result ≡ Ok None → GoesOn self.old self.new }
        // It answers what the definitions say, within the steps; or these are spent, and more judgements are in the answer.
        ensures verdict { (v : _) → result ≡ Ok (Some v) → IsVerdict self.old.table self.old.item self.old.steps v × (self.new.ended ≡ Some (E.Said v)) }
        ensures memory { OnErr result (self.new.ended ≡ Some E.NoMemory) }
        ensures room { self.old.ended ≡ None → OnErr result ((self.old.room ≤ length self.old.asked) ⊎ LastNeedsRoom (language_of self.old.table) self.old.asked) }
        // After an end it answers the same, and nothing changes.
        ensures again { (e : _) → self.old.ended ≡ Some e → IsAnswer result e × (self.new ≡ self.old) }
    {
        if let Some(end) = self.end {
            return end.answer();
        }
        match step(self.table, &mut self.shelf, &mut self.run, self.steps) {
            Turned::GoesOn => return Ok(None),
            Turned::Replied => {
                let verdict = verdict_by(&self.run.next);
                self.end = Some(End::Said(verdict));
                return Ok(Some(verdict));
            }
            Turned::Spent => {
                self.end = Some(End::Said(Verdict::Spent));
                return Ok(Some(Verdict::Spent));
            }
            Turned::NoMemory => {
                self.end = Some(End::NoMemory);
                return Err(AllocError);
            }
        }
    }

    /// How many questions are open. Takes no memory.
    pub fn frames(&self) -> usize
        ensures count { result ≡ length self.now.asked }
        // They are the first question and further ones, each asked by the one before it.
        ensures opened { AreOpen (language_of self.now.table) (root_question self.now.table self.now.item) self.now.asked }
        // There are few of them, however the types and groups lead to each other.
        ensures few { result ≤ (ranks_of self.now.table + 1) * (length (preferred self.now.item) + 1) }
    {
        self.run.waiting.len()
    }

    /// How many steps were taken. Takes no memory.
    pub fn steps_taken(&self) -> u64
        ensures count { result ≡ self.now.taken }
        ensures within { result ≤ self.now.steps }
        // Never more than there are judgements in an answer.
        ensures least { (a : Answer) (w : ℕ) → RootSays self.now.table self.now.item a w → result ≤ w }
    {
        self.run.taken
    }
}
