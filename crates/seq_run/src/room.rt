//! What is written of a piece, at the front of room for more.

ghost use Rattle.std.specs.Prelude.{◌≡◌, ◌≤◌, ◌<◌, ◌+◌, ◌*◌, ◌++◌, ◌^◌, All, ℕ, [], length, suc, take, IfSome, OnOk};
ghost use Rattle.cbor_tape.specs.Tape.{IsWholeTape};
ghost use Rattle.tape_notation.specs.OnTape.{IsTaped};
ghost use Rattle.tape_notation.specs.Put.{IsPut};
ghost use Rattle.seq_run.specs.Output.{items_output};
ghost use Rattle.seq_run.specs.Report.{item_line};
ghost use Rattle.seq_run.specs.Smalls.{smalls_from};
ghost use Rattle.seq_run.specs.declared.output.Mode.TheVariants.{Report};

use crate::head::Heads;
use cbor_tape::Entry;
use std::alloc::{AllocError, Global};
use std::marker::Model;
use std::mem;
use tape_notation::put::{put, put_byte};
use tape_notation::put_notation;

// How much room a line takes beside the notation of its item: a head is copied with 64 bytes, of which the longest one fills 51.
const LINE: usize = 64;

// The notation of an item is at most so many times as long as the item.
const LONGEST: usize = 12;

// So much more room is made than is needed, so that it serves many lines.
const MORE: usize = 4096;

// A vector of at most so many bytes is kept beside a longer line: more than the lines of a piece take.
const KEPT: usize = 1 << 19;

// Bytes that are written, at the front of a vector that may be longer, so that lines are put into room that is there.
#[derive(Drop)]
pub(crate) struct Output {
    bytes: Vec<u8>,
    len: usize,
}

impl Model for Output {
    ghost use Rattle.std.specs.Prelude.{List, ℕ, ◌≤◌, length, take};

    ghost Value = { List ℕ };

    ghost view = { λ o. take o.len o.bytes.items };

    ghost invariant = { λ o. o.len ≤ length o.bytes.items };
}

impl Output {
    // Nothing is written.
    pub(crate) fn new(alloc: Global) -> Output
        ensures { result ≡ [] }
    {
        Output {
            bytes: Vec::new(alloc),
            len: 0,
        }
    }

    // Forgets what is written. The room stays.
    pub(crate) fn clear(&mut self)
        ensures { self.new ≡ [] }
    {
        self.len = 0;
    }

    // How many bytes are written.
    pub(crate) fn len(&self) -> usize
        ensures { result ≡ length self.now }
    {
        self.len
    }

    pub(crate) fn as_slice(&self) -> &[u8]
        ensures { result.now ≡ self.now }
    {
        &self.bytes.as_slice()[..self.len]
    }

    // Gives what is written as a vector of no more. Then nothing is. Where nothing was, the room stays if it is not much.
    pub(crate) fn take(&mut self, alloc: Global) -> Vec<u8>
        ensures taken { result.items ≡ self.old }
        ensures left { self.new ≡ [] }
    {
        if self.len == 0 && self.bytes.len() <= KEPT {
            return Vec::new(alloc);
        }
        let mut bytes = mem::replace(&mut self.bytes, Vec::new(alloc));
        bytes.truncate(self.len);
        self.len = 0;
        bytes
    }

    // Has these bytes as what is written, in the room that is there if there is enough.
    pub(crate) fn set(&mut self, bytes: Vec<u8>)
        ensures { self.new ≡ bytes.items }
    {
        if bytes.len() > self.bytes.len() {
            self.len = bytes.len();
            self.bytes = bytes;
            return;
        }
        self.len = put(self.bytes.as_mut_slice(), 0, bytes.as_slice());
    }

    // Appends these bytes.
    pub(crate) fn push(&mut self, alloc: Global, more: &[u8]) -> Result<(), AllocError>
        ensures { OnOk result (self.new ≡ self.old ++ more.now) }
    {
        let mut bytes = self.take(alloc);
        bytes.extend_from_slice(more)?;
        self.set(bytes);
        Ok(())
    }

    // Appends the line of the item that the first `end` bytes spell, from these and its tape.
    #[inline]
    pub(crate) fn push_taped_line(
        &mut self,
        heads: &mut Heads,
        number: u64,
        offset: u64,
        bytes: &[u8],
        end: usize,
        tape: &[Entry],
    ) -> Result<(), AllocError>
        requires { IsTaped bytes.now tape.now end }
        ensures { OnOk result ((depth : ℕ) (whole : IsWholeTape depth bytes.now tape.now end) → self.new ≡ self.old ++ item_line number (record { offset = offset; item = whole.value })) }
    {
        let Some(room) = room_for(1, end) else {
            return Err(AllocError);
        };
        make_room(&mut self.bytes, self.len, room)?;
        let out = self.bytes.as_mut_slice();
        self.len = put_taped_line(out, self.len, heads, number, offset, bytes, end, tape);
        Ok(())
    }

    // Appends the lines of unsigned integers below 24: so many items come before them, and the first one has this offset.
    pub(crate) fn push_small_lines(
        &mut self,
        heads: &mut Heads,
        before: u64,
        offset: u64,
        numbers: &[u8],
    ) -> Result<(), AllocError>
        requires small { All (λ n. n < 24) numbers.now }
        requires count { before ≤ offset }
        requires short { offset + length numbers.now < 2 ^ 64 }
        ensures { OnOk result (self.new ≡ self.old ++ items_output Report (suc before) (smalls_from offset numbers.now)) }
    {
        let Some(room) = room_for(numbers.len(), 0) else {
            return Err(AllocError);
        };
        make_room(&mut self.bytes, self.len, room)?;
        let out = self.bytes.as_mut_slice();
        self.len = heads.put_small_lines(out, self.len, before, offset, numbers);
        Ok(())
    }
}

// How much room so many lines take, with the notations of items of so many bytes. None where it is more than a vector has.
#[inline]
fn room_for(lines: usize, len: usize) -> Option<usize>
    ensures { IfSome result (λ room. room ≡ 64 * lines + 12 * len) }
{
    lines
        .checked_mul(LINE)?
        .checked_add(len.checked_mul(LONGEST)?)
}

// Makes the vector so long that there is this room after its first `len` bytes, which are kept.
#[inline]
fn make_room(bytes: &mut Vec<u8>, len: usize, room: usize) -> Result<(), AllocError>
    requires { len ≤ length bytes.old.items }
    ensures room { OnOk result (len + room ≤ length bytes.new.items) }
    ensures kept { take len bytes.new.items ≡ take len bytes.old.items }
    ensures within { len ≤ length bytes.new.items }
{
    if room <= bytes.len() - len {
        return Ok(());
    }
    lengthen(bytes, room)
}

// Lengthens the vector by this and more.
#[cold]
#[inline(never)]
fn lengthen(bytes: &mut Vec<u8>, more: usize) -> Result<(), AllocError>
    ensures long { OnOk result (length bytes.old.items + more ≤ length bytes.new.items) }
    ensures kept { take (length bytes.old.items) bytes.new.items ≡ bytes.old.items }
    ensures within { length bytes.old.items ≤ length bytes.new.items }
{
    let Some(len) = longer(bytes.len(), more) else {
        return Err(AllocError);
    };
    bytes.resize(len, 0)
}

fn longer(len: usize, more: usize) -> Option<usize>
    ensures { IfSome result (λ longer. len + more ≤ longer) }
{
    len.checked_add(more)?.checked_add(MORE)
}

// Puts the line of the item that the first `end` bytes spell, from these and its tape, and answers where it ends.
#[inline]
fn put_taped_line(
    out: &mut [u8],
    at: usize,
    heads: &mut Heads,
    number: u64,
    offset: u64,
    bytes: &[u8],
    end: usize,
    tape: &[Entry],
) -> usize
    requires taped { IsTaped bytes.now tape.now end }
    requires room { at + (64 + 12 * end) ≤ length out.old }
    ensures put { (depth : ℕ) (whole : IsWholeTape depth bytes.now tape.now end) → IsPut out.old out.new at (item_line number (record { offset = offset; item = whole.value })) result }
    ensures within { result ≤ length out.new }
{
    let start = heads.put(out, at, number, offset);
    let after = put_notation(out, start, bytes, end, tape);
    put_byte(out, after, b'\n')
}
