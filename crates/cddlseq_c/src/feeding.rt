//! A stream that comes in pieces, what is reported for it, and what is shown of it.

ghost use Rattle.std.specs.Prelude.{◌≡◌, ◌≢◌, [], None, IfNone, IfOk, IfSome, option_copied};
ghost use Rattle.cddlseq_c.specs.Pieces.{IsFedAll, IsFedTo, IsFinished, IsShownBy, IsShownPlace, IsSoFar, Shows, number_of_shown, status_after};
ghost use Rattle.cddlseq_c.specs.Wanted.{notation_at, path_to};
ghost use Rattle.cddlseq_c.specs.declared.feeding.Shown.{Shown as AnyShown};

use crate::running::put;
use crate::told::{
    BAD_WANTED, CddlseqEnd, ENDED, FAILED, ITEM, NO_MEMORY, NO_ROOM, OK, status_of, told_end,
};
use crate::wanted::{deterministic_of, notation_of, path_of, preferred_of};
use cbor_item::Sound;
use seq_run::{End, OwnedSession, State, Step, Stopped};
use std::alloc::{AllocError, Global};
use std::marker::Model;

/// What may be shown of a stream that comes in pieces.
#[derive(Clone, Copy)]
pub(crate) enum Shown {
    /// The path of the place of a mismatch.
    Path,
    /// What is there, in diagnostic notation.
    Notation,
    /// The item that was reported last, in preferred encoding.
    Preferred,
    /// The same item, in deterministic encoding.
    Deterministic,
}

// A session, and the item that the last piece completed, where it was fed for one.
#[derive(Drop)]
pub(crate) struct Feeding {
    session: OwnedSession,
    item: Option<Sound>,
}

impl Model for Feeding {
    ghost use Rattle.cddlseq_c.specs.Fed.{Fed, coded_fed};

    ghost Value = { Fed };

    ghost coded = { coded_fed };

    ghost view = { λ f. record { progress = f.session; item = f.item } };
}

impl Feeding {
    pub(crate) fn new(session: OwnedSession) -> Feeding
        ensures { result ≡ record { progress = session; item = None } }
    {
        Feeding {
            session,
            item: None,
        }
    }

    // Feeds a piece up to the end of an item, keeps that item, and tells how far it took the session.
    pub(crate) fn feed(&mut self, piece: &[u8], used: &mut usize, told: &mut CddlseqEnd) -> u32
        ensures { IsFedTo self.old self.new piece.now used.new told.old told.new result }
    {
        self.item = None;
        match self.session.feed_one(piece) {
            Ok(Step::More) => {
                *used = piece.len();
                *told = so_far(&self.session);
                OK
            }
            Ok(Step::Item { used: count, item }) => {
                *used = count;
                *told = so_far(&self.session);
                self.item = Some(item);
                ITEM
            }
            Ok(Step::Ended(end)) => {
                *used = piece.len();
                *told = told_end(&end);
                status_after(&end)
            }
            Err(_) => {
                *used = 0;
                NO_MEMORY
            }
        }
    }

    // Feeds a whole piece, and tells how far that took the session. It keeps no item.
    pub(crate) fn feed_all(&mut self, alloc: Global, piece: &[u8], told: &mut CddlseqEnd) -> u32
        ensures { IsFedAll self.old self.new piece.now told.old told.new result }
    {
        self.item = None;
        let mut items = Vec::new(alloc);
        match self.session.feed(piece, &mut items) {
            Ok(State::Open) => {
                *told = so_far(&self.session);
                OK
            }
            Ok(State::Ended(end)) => {
                *told = told_end(&end);
                status_after(&end)
            }
            Err(_) => NO_MEMORY,
        }
    }

    // Ends the stream, and tells its end.
    pub(crate) fn finish(&mut self, told: &mut CddlseqEnd) -> u32
        ensures { IsFinished self.old self.new told.old told.new result }
    {
        match self.session.finish() {
            Ok(end) => {
                *told = told_end(&end);
                status_of(&end)
            }
            Err(_) => NO_MEMORY,
        }
    }

    // Begins another stream.
    pub(crate) fn restart(&mut self)
        ensures progress { self.new.progress ≡ record { judge = self.old.progress.judge; limits = self.old.progress.limits; fed = []; taken = []; stopped = None } }
        ensures item { self.new.item ≡ None }
    {
        self.item = None;
        self.session.restart();
    }

    // Writes what is to be shown, where there is room for it, and how many bytes that is.
    pub(crate) fn show(&self, alloc: Global, number: u32, out: &mut [u8], needed: &mut usize) -> u32
        ensures { IsShownBy number self.now out.old out.new needed.new result }
    {
        *needed = 0;
        let Some(shown) = shown_by(number) else {
            return BAD_WANTED;
        };
        match self.shown(alloc, shown) {
            Ok(bytes) => {
                *needed = bytes.len();
                if put(bytes.as_slice(), out) {
                    OK
                } else {
                    NO_ROOM
                }
            }
            Err(_) => NO_MEMORY,
        }
    }

    fn shown(&self, alloc: Global, shown: Shown) -> Result<Vec<u8>, AllocError>
        ensures { IfOk result (λ bytes. Shows shown self.now bytes.items) }
    {
        match shown {
            Shown::Path => path_in(alloc, &self.session),
            Shown::Notation => notation_in(alloc, &self.session),
            Shown::Preferred => preferred_of(alloc, self.item.as_ref()),
            Shown::Deterministic => deterministic_of(alloc, self.item.as_ref()),
        }
    }
}

// How many items were taken, and their bytes.
fn so_far(session: &OwnedSession) -> CddlseqEnd
    ensures { IsSoFar session.now result }
{
    let (items, offset) = session.taken();
    CddlseqEnd {
        items,
        offset,
        cause: 0,
        place: 0,
    }
}

fn status_after(end: &End) -> u32
    ensures { result ≡ status_after end.now }
{
    match end {
        End::Clean { .. } => ENDED,
        End::Failed { .. } => FAILED,
    }
}

// What is to be shown by a number, if it is one.
fn shown_by(number: u32) -> Option<Shown>
    ensures some { IfSome result (λ s. number ≡ number_of_shown s) }
    ensures none { IfNone result ((s : AnyShown) → number ≢ number_of_shown s) }
{
    match number {
        2 => Some(Shown::Preferred),
        3 => Some(Shown::Deterministic),
        4 => Some(Shown::Path),
        5 => Some(Shown::Notation),
        _ => None,
    }
}

// The path of the place of the mismatch, and nothing where the session has not ended by one.
fn path_in(alloc: Global, session: &OwnedSession) -> Result<Vec<u8>, AllocError>
    ensures { IfOk result (λ text. IsShownPlace path_to session.now text.items) }
{
    let Some(Stopped::Ended(end)) = session.stopped() else {
        return Ok(Vec::new(alloc));
    };
    path_of(alloc, &end, session.rejected())
}

// What is at that place, in diagnostic notation.
fn notation_in(alloc: Global, session: &OwnedSession) -> Result<Vec<u8>, AllocError>
    ensures { IfOk result (λ text. IsShownPlace notation_at session.now text.items) }
{
    let Some(Stopped::Ended(end)) = session.stopped() else {
        return Ok(Vec::new(alloc));
    };
    notation_of(alloc, &end, session.rejected())
}
