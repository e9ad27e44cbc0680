//! What both kinds of sessions of `seq_run` have: that which borrows its table, and that which is one of its owners.
use cbor_item::Sound;
use seq_run::{End, OwnedSession, Session, State, Step};
use std::alloc::AllocError;

pub(crate) trait Sessions {
    fn feed(&mut self, piece: &[u8], items: &mut Vec<Sound>) -> Result<State, AllocError>;

    fn feed_one(&mut self, piece: &[u8]) -> Result<Step, AllocError>;

    fn finish(&mut self) -> Result<End, AllocError>;

    fn rejected(&self) -> Option<&Sound>;

    fn taken(&self) -> (u64, u64);
}

impl<'t> Sessions for Session<'t> {
    fn feed(&mut self, piece: &[u8], items: &mut Vec<Sound>) -> Result<State, AllocError> {
        Session::feed(self, piece, items)
    }

    fn feed_one(&mut self, piece: &[u8]) -> Result<Step, AllocError> {
        Session::feed_one(self, piece)
    }

    fn finish(&mut self) -> Result<End, AllocError> {
        Session::finish(self)
    }

    fn rejected(&self) -> Option<&Sound> {
        Session::rejected(self)
    }

    fn taken(&self) -> (u64, u64) {
        Session::taken(self)
    }
}

impl Sessions for OwnedSession {
    fn feed(&mut self, piece: &[u8], items: &mut Vec<Sound>) -> Result<State, AllocError> {
        OwnedSession::feed(self, piece, items)
    }

    fn feed_one(&mut self, piece: &[u8]) -> Result<Step, AllocError> {
        OwnedSession::feed_one(self, piece)
    }

    fn finish(&mut self) -> Result<End, AllocError> {
        OwnedSession::finish(self)
    }

    fn rejected(&self) -> Option<&Sound> {
        OwnedSession::rejected(self)
    }

    fn taken(&self) -> (u64, u64) {
        OwnedSession::taken(self)
    }
}
