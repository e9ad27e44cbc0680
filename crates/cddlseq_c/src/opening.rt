//! The calls by a handle of a specification that was read before. Each handle is an owner of its table, which is freed with the last.

ghost use Rattle.std.specs.Prelude.{◌≡◌, None, IfOk};
ghost use Rattle.cddlseq_c.specs.Handles.{IsMadeBy, IsOpened, IsValidatedBy, IsWrittenFor};

use crate::handle::CddlseqHandle;
use crate::ready::{Ready, prepare};
use crate::running::{tell_by_number, tell_end};
use crate::told::{
    CLOSED, CddlseqEnd, CddlseqLimits, CddlseqRefusal, NO_MEMORY, NO_REFUSAL, OK, tell_stop,
};
use std::alloc::{AllocError, Global};

/// Reads a text for many streams, and has the handle hold it. What it held before is freed then. [`cddlseq_close`] frees what it
/// holds.
#[unsafe(no_mangle)]
pub extern "C" fn cddlseq_open(
    alloc: Global,
    text: &[u8],
    root: &[u8],
    limits: &CddlseqLimits,
    refusal: &mut CddlseqRefusal,
    handle: &mut CddlseqHandle,
) -> u32
    ensures { IsOpened (λ ready. ready) text.now root.now limits.now refusal.new handle.old.value handle.new.value result }
{
    *refusal = NO_REFUSAL;
    match prepare(alloc, text, root, limits) {
        Ok(ready) => match Box::new(alloc, ready) {
            Ok(held) => {
                handle.put(held);
                OK
            }
            Err(_) => NO_MEMORY,
        },
        Err(why) => tell_stop(text, why, refusal),
    }
}

/// Says how a stream ends by what a handle holds, which it holds still.
#[unsafe(no_mangle)]
pub extern "C" fn cddlseq_validate_by(
    alloc: Global,
    handle: &mut CddlseqHandle,
    stream: &[u8],
    end: &mut CddlseqEnd,
) -> u32
    ensures held { handle.new.value ≡ handle.old.value }
    ensures told { IsValidatedBy handle.old.value stream.now end.old end.new result }
{
    let Some(held) = handle.take(alloc) else {
        return CLOSED;
    };
    let status = tell_end(alloc, &held, stream, end);
    handle.put(held);
    status
}

/// Says how a stream ends by what a handle holds, which it holds still, and writes what is wanted of the stream by a number.
#[unsafe(no_mangle)]
pub extern "C" fn cddlseq_write_by(
    alloc: Global,
    handle: &mut CddlseqHandle,
    stream: &[u8],
    wanted: u32,
    end: &mut CddlseqEnd,
    out: &mut [u8],
    needed: &mut usize,
) -> u32
    ensures held { handle.new.value ≡ handle.old.value }
    ensures told { IsWrittenFor handle.old.value wanted stream.now end.old end.new out.old out.new needed.new result }
{
    let Some(held) = handle.take(alloc) else {
        *needed = 0;
        return CLOSED;
    };
    let status = tell_by_number(alloc, &held, wanted, stream, end, out, needed);
    handle.put(held);
    status
}

/// Frees what a handle holds, so that it holds nothing.
#[unsafe(no_mangle)]
pub extern "C" fn cddlseq_close(alloc: Global, handle: &mut CddlseqHandle)
    ensures { handle.new.value ≡ None }
{
    if let Some(held) = handle.take(alloc) {
        drop(Box::into_inner(held));
    }
}

/// Has another handle hold the specification that a handle holds, which is not read anew. What the other one held before is freed
/// then.
#[unsafe(no_mangle)]
pub extern "C" fn cddlseq_share(
    alloc: Global,
    handle: &mut CddlseqHandle,
    other: &mut CddlseqHandle,
) -> u32
    ensures held { handle.new.value ≡ handle.old.value }
    ensures made { IsMadeBy (λ ready. ready) handle.old.value other.old.value other.new.value result }
{
    let Some(held) = handle.take(alloc) else {
        return CLOSED;
    };
    let made = another(alloc, &held);
    handle.put(held);
    match made {
        Ok(made) => {
            other.put(made);
            OK
        }
        Err(_) => NO_MEMORY,
    }
}

// One more owner of what is ready.
fn another(alloc: Global, ready: &Ready) -> Result<Box<Ready>, AllocError>
    ensures { IfOk result (λ held. held.value ≡ ready.now) }
{
    Ok(Box::new(alloc, ready.another()?)?)
}
