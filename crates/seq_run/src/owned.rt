//! A session that shares the table of its specification with others.

ghost use Rattle.std.specs.Prelude.{◌≡◌, [], None, option_copied};
ghost use Rattle.std.specs.Arc.{arc_value};
ghost use Rattle.seq_run.specs.Answers.{Appends, IsAnswer, IsCount, IsFinish, IsLent, IsStep};
ghost use Rattle.seq_run.specs.Judge.{judge_of};
ghost use Rattle.seq_run.specs.Rest.{AreRest, progress_of};

use crate::end::{End, State, Stopped};
use crate::session::{Rest, Session, Step};
use cbor_item::Sound;
use cbor_read::Limits;
use std::alloc::{AllocError, Global};
use std::marker::Model;
use std::mem;
use std::sync::Arc;
use table_nodes::Table;

/// A [`Session`] that is one of the owners of the table of its specification, and so borrows nothing: it can be kept beside other
/// things, moved to another thread, or handed to a caller in another language, and many may share one table. Contracts see of it
/// what they see of a session.
#[derive(Drop)]
pub struct OwnedSession {
    alloc: Global,
    table: Arc<Table>,
    limits: Limits,
    steps: u64,
    rest: Rest,
}

impl Model for OwnedSession {
    ghost use Rattle.std.specs.Prelude.{◌≡◌};
    ghost use Rattle.std.specs.Arc.{arc_value};
    ghost use Rattle.seq_run.specs.Judge.{judge_of};
    ghost use Rattle.seq_run.specs.Progress.{Progress, coded_progress};
    ghost use Rattle.seq_run.specs.Rest.{AreRest, progress_of};

    ghost Value = { Progress };

    ghost coded = { coded_progress };

    ghost view = { λ s. progress_of (judge_of (arc_value s.table) s.steps) s.rest };

    ghost invariant = { λ s. AreRest (judge_of (arc_value s.table) s.steps) s.rest × (s.rest.reader.limits ≡ s.limits) };
}

impl OwnedSession {
    /// A session at the first byte of a stream. Of each item the specification may ask so many questions, its steps.
    /// Takes no memory.
    pub fn new(alloc: Global, table: Arc<Table>, limits: Limits, steps: u64) -> OwnedSession
        ensures { result ≡ record { judge = judge_of (arc_value table) steps; limits = limits; fed = []; taken = []; stopped = None } }
    {
        let rest = Session::new(alloc, &table, limits, steps).into_rest();
        OwnedSession {
            alloc,
            table,
            limits,
            steps,
            rest,
        }
    }

    /// Begins another stream, whatever has come of the one before. Takes no memory.
    pub fn restart(&mut self)
        ensures { self.new ≡ record { judge = self.old.judge; limits = self.old.limits; fed = []; taken = []; stopped = None } }
    {
        self.rest = self.fresh();
    }

    /// What [`Session::feed`] does and answers.
    ///
    /// # Errors
    ///
    /// [`AllocError`] where an allocation was refused. From then on each call answers so.
    pub fn feed(&mut self, piece: &[u8], out: &mut Vec<Sound>) -> Result<State, AllocError>
        ensures appends { Appends self.old self.new out.old.items out.new.items }
        ensures answer { IsAnswer self.old.stopped self.old piece.now result self.new }
    {
        let fresh = self.fresh();
        let rest = mem::replace(&mut self.rest, fresh);
        let mut session = Session::resumed(self.alloc, &self.table, self.steps, rest);
        let state = session.feed(piece, out);
        self.rest = session.into_rest();
        state
    }

    /// What [`Session::feed_one`] does and answers.
    ///
    /// # Errors
    ///
    /// [`AllocError`] where an allocation was refused. From then on each call answers so.
    pub fn feed_one(&mut self, piece: &[u8]) -> Result<Step, AllocError>
        ensures { IsStep self.old.stopped self.old piece.now result self.new }
    {
        let fresh = self.fresh();
        let rest = mem::replace(&mut self.rest, fresh);
        let mut session = Session::resumed(self.alloc, &self.table, self.steps, rest);
        let step = session.feed_one(piece);
        self.rest = session.into_rest();
        step
    }

    /// What [`Session::finish`] does and answers.
    ///
    /// # Errors
    ///
    /// [`AllocError`] where an earlier call answered so.
    pub fn finish(&mut self) -> Result<End, AllocError>
        ensures { IsFinish self.old.stopped self.old result self.new }
    {
        let fresh = self.fresh();
        let rest = mem::replace(&mut self.rest, fresh);
        let mut session = Session::resumed(self.alloc, &self.table, self.steps, rest);
        let end = session.finish();
        self.rest = session.into_rest();
        end
    }

    /// Why it takes nothing more, if so. Takes no memory.
    pub fn stopped(&self) -> Option<Stopped>
        ensures { result ≡ self.now.stopped }
    {
        self.rest.stopped
    }

    /// The item that does not match, exactly where the session has ended by that. Takes no memory.
    pub fn rejected(&self) -> Option<&Sound>
        ensures { IsLent self.now.stopped self.now (option_copied result) }
    {
        self.rest.rejected.as_ref()
    }

    /// How many items were taken so far, and how many bytes they have in the stream: also after an end, and after want of
    /// memory. Takes no memory.
    pub fn taken(&self) -> (u64, u64)
        ensures { IsCount self.now result.0 result.1 }
    {
        (self.rest.count.items, self.rest.count.offset)
    }

    // What a session keeps at the first byte of a stream.
    fn fresh(&self) -> Rest
        ensures parts { AreRest self.now.judge result }
        ensures same { progress_of self.now.judge result ≡ record { judge = self.now.judge; limits = self.now.limits; fed = []; taken = []; stopped = None } }
    {
        Session::new(self.alloc, &self.table, self.limits, self.steps).into_rest()
    }
}
