//! The text of a specification's file.

ghost use Rattle.std.specs.Prelude.{◌≡◌, ◌≤◌, ◌<◌, ◌-◌, ◌^◌, ◌⊎◌, drop, length, take, IfErr, IfOk, IfSome, OnOk, Some, vec_items};
ghost use Rattle.std.specs.Io.KnownBytes.{Appends};
ghost use Rattle.item_nodes.specs.Counted.{device_of, failures_of};
ghost use Rattle.command_line.specs.Lines.{memory_line, unread_line};
ghost use Rattle.command_line.specs.Reading.{most_read, IsReadWithin};
ghost use Rattle.command_line.specs.declared.status.TheConstants.{BROKEN};

use crate::lines::{say_no_memory, say_of_file};
use cbor_item::Counted;
use cddl_token::SOURCE_LIMIT;
use std::alloc::Global;
use std::io::{self, ErrorKind, Read, Write};

// How many bytes are read of a specification, at most: it is too long where it has as many.
const MOST_READ: usize = SOURCE_LIMIT + 1;

// How many bytes are read at once, at most.
const PIECE: usize = 4096;

/// Reads the text of a specification: all that is left in its file, or, where that is more than a specification may have, so
/// much that this shows. No more than 1,048,577 bytes are read. That is linear in what is read, in time and in memory.
///
/// # Errors
///
/// [`BROKEN`], with a line on `err`, where a read failed, which is reported by the file's name, or an allocation was refused.
pub fn read_text<R: Read, E: Write>(
    alloc: Global,
    file: &mut R,
    name: &str,
    err: &mut Counted<E>,
) -> Result<Vec<u8>, u8>
    ensures front { IfOk result (λ text. IfSome (R.remaining file.old) (λ bytes. vec_items text ≡ take most_read bytes)) }
    ensures behind { OnOk result (IfSome (R.remaining file.old) (λ bytes. R.remaining file.new ≡ Some (drop most_read bytes))) }
    ensures within { IsReadWithin most_read (R.remaining file.old) (R.remaining file.new) }
    ensures quiet { OnOk result (err.new ≡ err.old) }
    ensures broken { IfErr result (λ status. status ≡ BROKEN) }
    ensures told { IfErr result (λ status. failures_of err.new ≡ failures_of err.old → failures_of err.old < 2 ^ 64 - 1 →
        Appends (E.contents (device_of err.old)) (E.contents (device_of err.new)) (unread_line name.now)
        ⊎ Appends (E.contents (device_of err.old)) (E.contents (device_of err.new)) memory_line) }
{
    match read_front(alloc, file) {
        Ok(text) => Ok(text),
        Err(error) if error.kind() == ErrorKind::OutOfMemory => Err(say_no_memory(err)),
        Err(_) => Err(say_of_file(alloc, "cannot read ", name, err)),
    }
}

// The bytes that are left in the file, as far as they are read of a specification. No read is tried again.
fn read_front<R: Read>(alloc: Global, file: &mut R) -> io::Result<Vec<u8>>
    ensures front { IfOk result (λ text. IfSome (R.remaining file.old) (λ bytes. vec_items text ≡ take most_read bytes)) }
    ensures behind { OnOk result (IfSome (R.remaining file.old) (λ bytes. R.remaining file.new ≡ Some (drop most_read bytes))) }
    ensures within { IsReadWithin most_read (R.remaining file.old) (R.remaining file.new) }
{
    let mut text = Vec::new(alloc);
    let mut buffer = [0; PIECE];
    'pieces: while text.len() < MOST_READ {
        let room = PIECE.min(MOST_READ - text.len());
        let count = file.read(&mut buffer[..room])?;
        if count == 0 {
            return Ok(text);
        }
        text.extend_from_slice(&buffer[..count])?;
    }
    Ok(text)
}
