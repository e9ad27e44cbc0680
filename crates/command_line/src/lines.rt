//! Lines on standard error, and what clap says of the words.

ghost use Rattle.std.specs.Prelude.{◌≡◌, ◌≢◌, ◌⊎◌, ℕ, ◌<◌, ◌≤◌, ◌^◌, ◌-◌, ◌+◌, List, ◌++◌, length, decimal, IfOk, string_bytes};
ghost use Rattle.std.specs.Io.KnownBytes.{Appends};
ghost use Rattle.item_nodes.specs.Counted.{device_of, failures_of, HasRisen};
ghost use Rattle.clap.specs.Words.{kind_of};
ghost use Rattle.command_line.specs.Errors.{IsAskedFor};
ghost use Rattle.command_line.specs.Lines.{file_line, memory_line, read_failed_line, unexplained_line, unopened_line, write_failed_line, IsCutAfter, IsPut};

use crate::status::BROKEN;
use arrayvec::ArrayString;
use cbor_item::{Counted, write_bytes};
use clap::Error;
use itoa::Buffer;
use std::alloc::{AllocError, Global};
use std::io::Write;
use text_shown::push_shown;

/// Writes a text to the standard error: all of it, unless the device failed. A failed write is passed over.
pub fn say<E: Write>(text: &[u8], err: &mut Counted<E>)
    ensures { failures_of err.new ≡ failures_of err.old → failures_of err.old < 2 ^ 64 - 1 →
        Appends (E.contents (device_of err.old)) (E.contents (device_of err.new)) text.now }
{
    put(text, err);
}

/// Says that a file cannot be opened, in one line, with what is shown of the file's name: control characters of it are shown as
/// `\u` and four hex digits. It answers the status.
pub fn say_unopened<E: Write>(alloc: Global, name: &str, err: &mut Counted<E>) -> u8
    ensures status { result ≡ BROKEN }
    ensures line { IsPut E.contents err.old err.new (unopened_line name.now) ⊎ IsPut E.contents err.old err.new memory_line }
{
    say_of_file(alloc, "cannot open ", name, err)
}

/// Says that a word names no code and no cause, in one line, with what is shown of the word as of a file's name. It answers the
/// status.
pub fn say_unexplained<E: Write>(alloc: Global, word: &str, err: &mut Counted<E>) -> u8
    ensures status { result ≡ BROKEN }
    ensures line { IsPut E.contents err.old err.new (unexplained_line word.now) ⊎ IsPut E.contents err.old err.new memory_line }
{
    say_of_file(
        alloc,
        "no such code or cause (cddlseq explain --help lists them): ",
        word,
        err,
    )
}

// Says that a file cannot be used, in one line: `text`, what is shown of the file's name, and a line end. It answers the status.
pub(crate) fn say_of_file<E: Write>(
    alloc: Global,
    text: &str,
    name: &str,
    err: &mut Counted<E>,
) -> u8
    ensures status { result ≡ BROKEN }
    ensures line { IsPut E.contents err.old err.new (file_line text.now name.now) ⊎ IsPut E.contents err.old err.new memory_line }
{
    match line_of_file(alloc, text, name) {
        Ok(line) => {
            say(line.as_str().as_bytes(), err);
            BROKEN
        }
        Err(_) => say_no_memory(err),
    }
}

fn line_of_file(alloc: Global, text: &str, name: &str) -> Result<String, AllocError>
    ensures { IfOk result (λ line. string_bytes line ≡ file_line text.now name.now) }
{
    let mut line = String::from_str(alloc, text)?;
    push_shown(&mut line, name)?;
    line.push('\n')?;
    Ok(line)
}

/// Says that an allocation was refused, and answers the status.
pub fn say_no_memory<E: Write>(err: &mut Counted<E>) -> u8
    ensures status { result ≡ BROKEN }
    ensures line { failures_of err.new ≡ failures_of err.old → failures_of err.old < 2 ^ 64 - 1 →
        Appends (E.contents (device_of err.old)) (E.contents (device_of err.new)) memory_line }
{
    say(b"out of memory\n", err);
    BROKEN
}

/// Says that a read failed after so many items, and answers the status. It takes no memory.
pub fn say_read_failed<E: Write>(items: u64, err: &mut Counted<E>) -> u8
    ensures status { result ≡ BROKEN }
    ensures line { IsPut E.contents err.old err.new (read_failed_line items) }
{
    say_number("read failed after ", u128::from(items), " items\n", err);
    BROKEN
}

/// Says that a write failed after so many bytes, and answers the status. It takes no memory.
pub fn say_write_failed<E: Write>(bytes: u128, err: &mut Counted<E>) -> u8
    ensures status { result ≡ BROKEN }
    ensures line { IsPut E.contents err.old err.new (write_failed_line bytes) }
{
    say_number("write failed after ", bytes, " bytes\n", err);
    BROKEN
}

// How many bytes a line with a number may have: 40 of them are for its digits.
const LINE: usize = 80;

// Says a number between two texts, in one write. It takes no memory.
pub(crate) fn say_number<E: Write>(before: &str, number: u128, after: &str, err: &mut Counted<E>)
    requires { length before.now + length after.now ≤ 40 }
    ensures { IsPut E.contents err.old err.new (before.now ++ decimal number ++ after.now) }
{
    let mut line = ArrayString::<LINE>::new();
    let mut digits = Buffer::new();
    line.push_str(before);
    line.push_str(digits.format(number));
    line.push_str(after);
    say(line.as_str().as_bytes(), err);
}

/// Says what clap says of words that give no options: help and the version, where the words ask for them, on `out`, and what
/// is wrong with the words on `err`. It answers the status: 0 where the words ask and the text went out whole, and else
/// [`BROKEN`], with a line on `err` where a write failed or an allocation was refused.
pub fn say_words<W: Write, E: Write>(
    alloc: Global,
    error: &Error,
    out: &mut Counted<W>,
    err: &mut Counted<E>,
) -> u8
    ensures asked { result ≢ BROKEN → (result ≡ 0) × IsAskedFor (kind_of error.now) × (failures_of out.new ≡ failures_of out.old) }
    ensures quiet { result ≢ BROKEN → err.new ≡ err.old }
    ensures broken { result ≡ BROKEN → (out.new ≡ out.old) ⊎ HasRisen (failures_of out.old) (failures_of out.new) }
    ensures told { result ≡ BROKEN → IsAskedFor (kind_of error.now) → ((out.new ≡ out.old) × IsPut E.contents err.old err.new memory_line)
        ⊎ ((sent : List ℕ) × IsCutAfter W.contents out.old out.new sent × IsPut E.contents err.old err.new (write_failed_line (length sent))) }
    ensures apart { (IsAskedFor (kind_of error.now) → ⊥) → out.new ≡ out.old }
{
    let Ok(text) = format!(in alloc; "{error}") else {
        return say_no_memory(err);
    };
    if error.use_stderr() {
        say(text.as_str().as_bytes(), err);
        return BROKEN;
    }
    match write_bytes(text.as_str().as_bytes(), out) {
        Ok(()) => 0,
        Err(fault) => say_write_failed(fault.written, err),
    }
}

// Writes a text, and leaves a failure to the device's count.
fn put<E: Write>(text: &[u8], err: &mut Counted<E>)
    ensures text { failures_of err.new ≡ failures_of err.old → failures_of err.old < 2 ^ 64 - 1 →
        Appends (E.contents (device_of err.old)) (E.contents (device_of err.new)) text.now }
    ensures count { (failures_of err.new ≡ failures_of err.old) ⊎ HasRisen (failures_of err.old) (failures_of err.new) }
{
    let _ = write_bytes(text, err);
}
