//! Runs a stream that is one buffer, and tells of it.

ghost use Rattle.std.specs.Prelude.{◌≡◌, ◌++◌, IfOk, drop, length};
ghost use Rattle.seq_run.specs.Judge.{judge_of};
ghost use Rattle.cddlseq_c.specs.Answers.{HasEnd, IsPut, IsRan, IsToldEnd, IsToldWanted, IsWanted, IsWrittenBy};
ghost use Rattle.cddlseq_c.specs.Wanted.{picked};

use crate::ready::Ready;
use crate::told::{BAD_WANTED, CddlseqEnd, NO_MEMORY, NO_ROOM, status_of, told_end};
use crate::wanted::{Wanted, mode_of, notation_of, path_of, wanted_by};
use cbor_item::{Counted, Sound};
use seq_run::{End, Mode, run};
use std::alloc::{AllocError, Global};

// What a run gives.
#[derive(Drop)]
struct Ran {
    end: End,
    // The item that fails, where that is a mismatch.
    rejected: Option<Sound>,
    output: Vec<u8>,
}

// Runs the stream, and writes its end.
pub(crate) fn tell_end(alloc: Global, ready: &Ready, stream: &[u8], told: &mut CddlseqEnd) -> u32
    ensures { IsToldEnd (judge_of ready.now.table ready.now.steps) ready.now.limits stream.now told.old told.new result }
{
    match end_of(alloc, ready, stream) {
        Ok(end) => {
            *told = told_end(&end);
            status_of(&end)
        }
        Err(_) => NO_MEMORY,
    }
}

// How the stream ends.
pub(crate) fn end_of(alloc: Global, ready: &Ready, stream: &[u8]) -> Result<End, AllocError>
    ensures { IfOk result (HasEnd (judge_of ready.now.table ready.now.steps) ready.now.limits stream.now) }
{
    let ran = run_buffer(alloc, ready, Mode::EndLine, stream)?;
    Ok(ran.end)
}

// Runs the stream, and writes its end, how many bytes are wanted, and these, where there is room for them.
pub(crate) fn tell_wanted(
    alloc: Global,
    ready: &Ready,
    wanted: Wanted,
    stream: &[u8],
    told: &mut CddlseqEnd,
    out: &mut [u8],
    needed: &mut usize,
) -> u32
    ensures { IsToldWanted wanted (judge_of ready.now.table ready.now.steps) ready.now.limits stream.now told.old told.new out.old out.new needed.new result }
{
    match wanted_of(alloc, ready, wanted, stream) {
        Ok((end, bytes)) => {
            *told = told_end(&end);
            *needed = bytes.len();
            if put(bytes.as_slice(), out) {
                status_of(&end)
            } else {
                NO_ROOM
            }
        }
        Err(_) => {
            *needed = 0;
            NO_MEMORY
        }
    }
}

// The same of what is wanted by a number.
pub(crate) fn tell_by_number(
    alloc: Global,
    ready: &Ready,
    number: u32,
    stream: &[u8],
    told: &mut CddlseqEnd,
    out: &mut [u8],
    needed: &mut usize,
) -> u32
    ensures { IsWrittenBy number (judge_of ready.now.table ready.now.steps) ready.now.limits stream.now told.old told.new out.old out.new needed.new result }
{
    let Some(wanted) = wanted_by(number) else {
        *needed = 0;
        return BAD_WANTED;
    };
    tell_wanted(alloc, ready, wanted, stream, told, out, needed)
}

// How the stream ends, and what is wanted of it.
fn wanted_of(
    alloc: Global,
    ready: &Ready,
    wanted: Wanted,
    stream: &[u8],
) -> Result<(End, Vec<u8>), AllocError>
    ensures { IfOk result (λ r. IsWanted wanted (judge_of ready.now.table ready.now.steps) ready.now.limits stream.now r.1.items r.0) }
{
    let ran = run_buffer(alloc, ready, mode_of(wanted), stream)?;
    let end = ran.end;
    let bytes = pick(alloc, wanted, ran)?;
    Ok((end, bytes))
}

// What is wanted of a stream that was run in the mode for it.
fn pick(alloc: Global, wanted: Wanted, ran: Ran) -> Result<Vec<u8>, AllocError>
    ensures { IfOk result (λ bytes. bytes.items ≡ picked wanted ran.output.items ran.end ran.rejected) }
{
    match wanted {
        Wanted::Report | Wanted::EndLine | Wanted::Preferred | Wanted::Deterministic => {
            Ok(ran.output)
        }
        Wanted::Path => path_of(alloc, &ran.end, ran.rejected.as_ref()),
        Wanted::Notation => notation_of(alloc, &ran.end, ran.rejected.as_ref()),
    }
}

fn run_buffer(alloc: Global, ready: &Ready, mode: Mode, stream: &[u8]) -> Result<Ran, AllocError>
    ensures { IfOk result (λ r. IsRan mode (judge_of ready.now.table ready.now.steps) ready.now.limits stream.now r.output.items r.end r.rejected) }
{
    let mut input = Counted::new(stream);
    let mut output = Counted::new(Vec::new(alloc));
    match run(
        alloc,
        ready.table(),
        ready.limits(),
        ready.steps(),
        mode,
        &mut input,
        &mut output,
    ) {
        Ok((end, rejected)) => Ok(Ran {
            end,
            rejected,
            output: output.into_inner(),
        }),
        // A slice can be read, and a vector takes all bytes, unless there is no memory for them.
        Err(_) => Err(AllocError),
    }
}

// Writes the bytes to the front of the buffer, if there is room for them.
pub(crate) fn put(bytes: &[u8], out: &mut [u8]) -> bool
    ensures { IsPut result bytes.now out.old out.new }
{
    if bytes.len() > out.len() {
        return false;
    }
    out[..bytes.len()].copy_from_slice(bytes);
    true
}
