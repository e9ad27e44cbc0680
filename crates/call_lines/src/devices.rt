//! Devices: a reader of bytes in pieces, and a writer with little room.

ghost use Rattle.std.specs.Prelude.{◌≡◌, [], IfOk};

use std::alloc::{AllocError, Global};
use std::io::{self, ErrorKind, Read, Write};

/// Gives its bytes in a first piece and in later ones of another size, and fails after so many reads.
#[derive(Drop)]
pub struct Source<'a> {
    /// What it has not given yet.
    pub bytes: &'a [u8],
    /// How many bytes the next read gives, at most.
    pub piece: usize,
    /// How many bytes each read after it gives, at most.
    pub later: usize,
    /// How many reads it still answers.
    pub reads: usize,
    /// How the read after these fails.
    pub fault: ErrorKind,
    /// How large the largest buffer was that it was to fill.
    pub largest: usize,
}

impl<'a> Source<'a> {
    /// One that was asked for nothing yet.
    pub fn new(
        bytes: &'a [u8],
        piece: usize,
        later: usize,
        reads: usize,
        fault: ErrorKind,
    ) -> Source<'a>
        ensures bytes { result.bytes.now ≡ bytes.now }
        ensures piece { result.piece ≡ piece }
        ensures later { result.later ≡ later }
        ensures reads { result.reads ≡ reads }
        ensures fault { result.fault ≡ fault }
        ensures largest { result.largest ≡ 0 }
    {
        Source {
            bytes,
            piece,
            later,
            reads,
            fault,
            largest: 0,
        }
    }
}

impl Read for Source<'_> {
    fn read(&mut self, buf: &mut [u8]) -> io::Result<usize> {
        self.largest = self.largest.max(buf.len());
        if self.reads == 0 {
            return Err(io::Error::from(self.fault));
        }
        self.reads -= 1;
        let count = self.piece.min(buf.len()).min(self.bytes.len());
        let (front, rest) = self.bytes.split_at(count);
        buf[..count].copy_from_slice(front);
        self.bytes = rest;
        self.piece = self.later;
        Ok(count)
    }
}

/// Takes so many bytes at most in a write, until it is full, and then fails, or takes none.
#[derive(Drop)]
pub struct Sink {
    /// What it took.
    pub taken: Vec<u8>,
    /// How many bytes it still takes.
    pub room: usize,
    /// How many of them in one write.
    pub at_once: usize,
    /// Whether it fails where it is full.
    pub fails: bool,
    /// How often it was written to.
    pub writes: usize,
}

impl Sink {
    /// One that took nothing yet. Its room is made at once, so that a write takes no memory.
    ///
    /// # Errors
    ///
    /// An allocation was refused.
    pub fn new(alloc: Global, room: usize, fails: bool, at_once: usize) -> Result<Sink, AllocError>
        ensures taken { IfOk result (λ sink. sink.taken.items ≡ []) }
        ensures room { IfOk result (λ sink. sink.room ≡ room) }
        ensures at_once { IfOk result (λ sink. sink.at_once ≡ at_once) }
        ensures fails { IfOk result (λ sink. sink.fails ≡ fails) }
        ensures writes { IfOk result (λ sink. sink.writes ≡ 0) }
    {
        let taken = Vec::with_capacity(alloc, room)?;
        Ok(Sink {
            taken,
            room,
            at_once,
            fails,
            writes: 0,
        })
    }
}

impl Write for Sink {
    fn write(&mut self, buf: &[u8]) -> io::Result<usize> {
        self.writes = self.writes.saturating_add(1);
        if self.room == 0 && self.fails && !buf.is_empty() {
            return Err(io::Error::from(ErrorKind::TimedOut));
        }
        let count = self.room.min(self.at_once).min(buf.len());
        self.taken.extend_from_slice(&buf[..count])?;
        self.room -= count;
        Ok(count)
    }

    fn flush(&mut self) -> io::Result<()> {
        Ok(())
    }
}
