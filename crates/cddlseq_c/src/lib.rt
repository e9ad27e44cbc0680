//! The calls for programs in C: a text is checked, and a stream in a buffer is validated, reported and rewritten by it, or by a
//! handle of a text that was read before. `include/cddlseq.h` declares them.
#![tactic(auto)]

ghost use Rattle.std.specs.Prelude.{take};
ghost use Rattle.text_position.specs.Positions.{IsAt};
ghost use Rattle.cddlseq_c.specs.Answers.{AreValidated, IsChecked, IsValidated, IsWritten};

mod explaining;
mod feeding;
mod handle;
mod loose;
mod many;
mod opening;
mod pieces;
mod position;
mod ready;
mod running;
mod session;
mod stop;
mod told;
mod wanted;

use crate::many::{fits, tell_many};
use crate::position::CddlseqPosition;
use crate::ready::{prepare, table_of};
use crate::running::{tell_end, tell_wanted};
use crate::told::{
    BAD_OFFSETS, BAD_WANTED, CddlseqEnd, CddlseqLimits, CddlseqRefusal, NO_REFUSAL, OK, tell_stop,
};
use crate::wanted::wanted_by;
use std::alloc::Global;
use text_position::position_of;

/// Says whether a text is a specification, with the root of this name, or where it has no bytes the first rule.
#[unsafe(no_mangle)]
pub extern "C" fn cddlseq_check(
    alloc: Global,
    text: &[u8],
    root: &[u8],
    refusal: &mut CddlseqRefusal,
) -> u32
    ensures { IsChecked text.now root.now refusal.new result }
{
    match table_of(alloc, text, root) {
        Ok(table) => {
            drop(table);
            *refusal = NO_REFUSAL;
            OK
        }
        Err(why) => tell_stop(text, why, refusal),
    }
}

/// Tells the line and the column of an offset of a text, as that of a refusal.
#[unsafe(no_mangle)]
pub extern "C" fn cddlseq_position(text: &[u8], offset: usize, position: &mut CddlseqPosition)
    ensures { IsAt (take offset text.now) position.new.line position.new.column }
{
    let found = position_of(text, offset);
    *position = CddlseqPosition {
        line: found.line,
        column: found.column,
    };
}

/// Says how a stream ends by a text.
#[unsafe(no_mangle)]
pub extern "C" fn cddlseq_validate(
    alloc: Global,
    text: &[u8],
    root: &[u8],
    stream: &[u8],
    limits: &CddlseqLimits,
    refusal: &mut CddlseqRefusal,
    end: &mut CddlseqEnd,
) -> u32
    ensures { IsValidated text.now root.now stream.now limits.now refusal.new end.old end.new result }
{
    match prepare(alloc, text, root, limits) {
        Ok(ready) => {
            *refusal = NO_REFUSAL;
            tell_end(alloc, &ready, stream, end)
        }
        Err(why) => tell_stop(text, why, refusal),
    }
}

/// Says how a stream ends by a text, and writes what is wanted of it by a number: its report, the line of its end, its items in
/// preferred or in deterministic encoding, the path of the place of a mismatch, or what is there.
#[unsafe(no_mangle)]
pub extern "C" fn cddlseq_write(
    alloc: Global,
    text: &[u8],
    root: &[u8],
    stream: &[u8],
    limits: &CddlseqLimits,
    wanted: u32,
    refusal: &mut CddlseqRefusal,
    end: &mut CddlseqEnd,
    out: &mut [u8],
    needed: &mut usize,
) -> u32
    ensures { IsWritten text.now root.now stream.now limits.now wanted refusal.new end.old end.new out.old out.new needed.new result }
{
    *needed = 0;
    *refusal = NO_REFUSAL;
    let Some(wanted) = wanted_by(wanted) else {
        return BAD_WANTED;
    };
    match prepare(alloc, text, root, limits) {
        Ok(ready) => tell_wanted(alloc, &ready, wanted, stream, end, out, needed),
        Err(why) => tell_stop(text, why, refusal),
    }
}

/// Says how each of many streams ends by one text, which is read once. Stream k has the bytes from offset k up to offset
/// k + 1. `done` is how many were reported.
#[unsafe(no_mangle)]
pub extern "C" fn cddlseq_validate_many(
    alloc: Global,
    text: &[u8],
    root: &[u8],
    bytes: &[u8],
    offsets: &[usize],
    limits: &CddlseqLimits,
    refusal: &mut CddlseqRefusal,
    ends: &mut [CddlseqEnd],
    done: &mut usize,
) -> u32
    ensures { AreValidated text.now root.now bytes.now offsets.now limits.now refusal.new ends.old ends.new done.new result }
{
    *done = 0;
    *refusal = NO_REFUSAL;
    if !fits(offsets.len(), ends.len()) {
        return BAD_OFFSETS;
    }
    match prepare(alloc, text, root, limits) {
        Ok(ready) => tell_many(alloc, &ready, bytes, offsets, ends, done),
        Err(why) => tell_stop(text, why, refusal),
    }
}
