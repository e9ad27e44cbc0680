//! A reader or writer whose failures are counted.

ghost use Rattle.std.specs.Prelude.{◌≡◌, ◌+◌, ◌-◌, ◌^◌, min};
ghost use Rattle.std.specs.Io.{ReadsAtMost, WritesAtMost};
ghost use Rattle.std.specs.Io.KnownBytes.{ReadConsumes, WriteAppends};
ghost use Rattle.item_nodes.specs.Counted.{device_of, failures_of, failures_after_read, failures_after_write, is_failed_write, one_more};

use std::io;
use std::io::{Read, Write};

/// A reader or writer, with a count of its failures: of the errors that it answered, and of the writes that took 0 bytes
/// of a piece that had some. At 2^64 - 1 the count stays.
#[derive(Debug, Drop)]
pub struct Counted<D> {
    device: D,
    failures: u64,
}

impl<D> Counted<D> {
    /// The device, with no failure yet.
    pub fn new(device: D) -> Counted<D>
        ensures device { device_of result ≡ device }
        ensures failures { failures_of result ≡ 0 }
    {
        Counted {
            device,
            failures: 0,
        }
    }

    /// The device.
    pub fn into_inner(self) -> D
        ensures { result ≡ device_of self }
    {
        self.device
    }

    /// How often the device failed, as far as 2^64 - 1.
    pub fn failures(&self) -> u64
        ensures { result ≡ failures_of self.now }
    {
        self.failures
    }

    fn note_failure(&mut self)
        ensures device { device_of self.new ≡ device_of self.old }
        ensures failures { failures_of self.new ≡ one_more (failures_of self.old) }
    {
        self.failures = self.failures.saturating_add(1);
    }
}

impl<D: Read> Counted<D> {
    /// Reads once from the device, and hands on its answer.
    pub fn read(&mut self, buf: &mut [u8]) -> io::Result<usize>
        ensures bound { ReadsAtMost result buf.new }
        ensures bytes { ReadConsumes (D.remaining (device_of self.old)) (D.remaining (device_of self.new)) result buf.new }
        ensures count { failures_of self.new ≡ failures_after_read (failures_of self.old) result }
    {
        let answer = self.device.read(buf);
        if answer.is_err() {
            self.note_failure();
        }
        answer
    }
}

impl<D: Write> Counted<D> {
    /// Writes once to the device, and hands on its answer.
    pub fn write(&mut self, piece: &[u8]) -> io::Result<usize>
        ensures bound { WritesAtMost result piece.now }
        ensures bytes { WriteAppends (D.contents (device_of self.old)) (D.contents (device_of self.new)) result piece.now }
        ensures count { failures_of self.new ≡ failures_after_write (failures_of self.old) result piece.now }
    {
        let answer = self.device.write(piece);
        if has_failed(&answer, piece) {
            self.note_failure();
        }
        answer
    }
}

// Whether a write of the piece that answered so is a failure.
fn has_failed(answer: &io::Result<usize>, piece: &[u8]) -> bool
    ensures { result ≡ is_failed_write answer.now piece.now }
{
    match answer {
        Ok(taken) => *taken == 0 && !piece.is_empty(),
        Err(_) => true,
    }
}
