//! What a run writes.

ghost use Rattle.std.specs.Prelude.{◌≡◌, ◌+◌, ◌<◌, ◌≤◌, ◌++◌, ◌^◌, ℕ, All, length, suc, IsTrue, OnOk, option_copied};
ghost use Rattle.cbor_data.specs.Deterministic.{deterministic};
ghost use Rattle.cbor_data.specs.Preferred.{preferred};
ghost use Rattle.cbor_tape.specs.Tape.{IsWholeTape};
ghost use Rattle.tape_notation.specs.OnTape.{IsTaped};
ghost use Rattle.seq_run.specs.Output.{IsOfLines, end_output, item_output, items_output};
ghost use Rattle.seq_run.specs.Report.{IsShown};
ghost use Rattle.seq_run.specs.Smalls.{smalls_from};

use crate::end::End;
use crate::head::Heads;
use crate::lines::{end_line, push_item_line};
use crate::room::Output;
use cbor_item::{Counted, Sound, write_det, write_item};
use cbor_tape::Entry;
use std::alloc::{AllocError, Global};

/// What a run writes of a stream.
#[derive(Clone, Copy, Debug, PartialEq, Eq)]
pub enum Mode {
    /// Its report: a line for each accepted item, and one for its end.
    Report,
    /// The line of its end alone.
    EndLine,
    /// The preferred bytes (RFC 8949 section 4.1) of each accepted item, and nothing of its end.
    Rewrite,
    /// The deterministic bytes (RFC 8949 section 4.2.1) of each accepted item, and nothing of its end.
    Deterministic,
}

// Appends what is written of an accepted item.
pub(crate) fn push_item(
    alloc: Global,
    mode: Mode,
    heads: &mut Heads,
    out: &mut Output,
    number: u64,
    offset: u64,
    item: &Sound,
) -> Result<(), AllocError>
    ensures { OnOk result (out.new ≡ out.old ++ item_output mode number (record { offset = offset; item = item.now })) }
{
    match mode {
        Mode::Report => push_item_line(alloc, heads, out, number, offset, item),
        Mode::EndLine => Ok(()),
        Mode::Rewrite => push_preferred(alloc, out, item),
        Mode::Deterministic => push_deterministic(alloc, out, item),
    }
}

// Whether what is written of an item, if anything is, is its line.
pub(crate) fn writes_lines(mode: Mode) -> bool
    ensures { IsTrue result → IsOfLines mode }
{
    matches!(mode, Mode::Report | Mode::EndLine)
}

// Appends what is written of the item that the first `end` bytes spell, from these and its tape.
#[inline]
pub(crate) fn push_taped(
    mode: Mode,
    heads: &mut Heads,
    out: &mut Output,
    number: u64,
    offset: u64,
    bytes: &[u8],
    end: usize,
    tape: &[Entry],
) -> Result<(), AllocError>
    requires mode { IsOfLines mode }
    requires taped { IsTaped bytes.now tape.now end }
    ensures { OnOk result ((depth : ℕ) (whole : IsWholeTape depth bytes.now tape.now end) → out.new ≡ out.old ++ item_output mode number (record { offset = offset; item = whole.value })) }
{
    match mode {
        Mode::Report => out.push_taped_line(heads, number, offset, bytes, end, tape),
        Mode::EndLine => Ok(()),
        Mode::Rewrite | Mode::Deterministic => unreachable!(),
    }
}

// The same of unsigned integers below 24, each of which is one byte: so many items come before them, and the first one has this
// offset.
pub(crate) fn push_smalls(
    alloc: Global,
    mode: Mode,
    heads: &mut Heads,
    out: &mut Output,
    before: u64,
    offset: u64,
    numbers: &[u8],
) -> Result<(), AllocError>
    requires small { All (λ n. n < 24) numbers.now }
    requires count { before ≤ offset }
    requires short { offset + length numbers.now < 2 ^ 64 }
    ensures { OnOk result (out.new ≡ out.old ++ items_output mode (suc before) (smalls_from offset numbers.now)) }
{
    match mode {
        Mode::Report => out.push_small_lines(heads, before, offset, numbers),
        Mode::EndLine => Ok(()),
        Mode::Rewrite => out.push(alloc, numbers),
        Mode::Deterministic => out.push(alloc, numbers),
    }
}

// Appends the item's preferred bytes.
fn push_preferred(alloc: Global, out: &mut Output, item: &Sound) -> Result<(), AllocError>
    ensures { OnOk result (out.new ≡ out.old ++ preferred item.now) }
{
    let mut bytes = Counted::new(out.take(alloc));
    // A vector takes all bytes, unless there is no memory for them.
    if write_item(item, &mut bytes).is_err() {
        return Err(AllocError);
    }
    out.set(bytes.into_inner());
    Ok(())
}

// Appends the item's deterministic bytes.
fn push_deterministic(alloc: Global, out: &mut Output, item: &Sound) -> Result<(), AllocError>
    ensures { OnOk result (out.new ≡ out.old ++ deterministic item.now) }
{
    let mut bytes = Counted::new(out.take(alloc));
    // A vector takes all bytes, unless there is no memory for them.
    if write_det(alloc, item, &mut bytes).is_err() {
        return Err(AllocError);
    }
    out.set(bytes.into_inner());
    Ok(())
}

// Appends what is written of the end.
pub(crate) fn push_end(
    alloc: Global,
    mode: Mode,
    out: &mut Output,
    end: &End,
    rejected: Option<&Sound>,
) -> Result<(), AllocError>
    requires { IsShown end.now (option_copied rejected) }
    ensures { OnOk result (out.new ≡ out.old ++ end_output mode end.now (option_copied rejected.entry)) }
{
    match mode {
        Mode::Report | Mode::EndLine => {
            let line = end_line(alloc, end, rejected)?;
            out.push(alloc, line.as_slice())
        }
        Mode::Rewrite | Mode::Deterministic => Ok(()),
    }
}
