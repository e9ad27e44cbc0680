//! The calls for a stream that comes in pieces.

ghost use Rattle.std.specs.Prelude.{◌≡◌, None, IfOk, option_map};
ghost use Rattle.cddlseq_c.specs.Handles.{IsFedAllBy, IsFedBy, IsFinishedBy, IsMadeBy, IsOpened, IsShownFor};
ghost use Rattle.cddlseq_c.specs.Pieces.{begun_by, restarted};

use crate::feeding::Feeding;
use crate::handle::CddlseqHandle;
use crate::ready::{Ready, prepare};
use crate::session::CddlseqSession;
use crate::told::{
    CLOSED, CddlseqEnd, CddlseqLimits, CddlseqRefusal, NO_MEMORY, NO_REFUSAL, OK, tell_stop,
};
use std::alloc::{AllocError, Global};

/// Reads a text, and has the session hold a stream at its first byte. What it held before is freed then. [`cddlseq_discard`] frees
/// what it holds.
#[unsafe(no_mangle)]
pub extern "C" fn cddlseq_begin(
    alloc: Global,
    text: &[u8],
    root: &[u8],
    limits: &CddlseqLimits,
    refusal: &mut CddlseqRefusal,
    session: &mut CddlseqSession,
) -> u32
    ensures { IsOpened begun_by text.now root.now limits.now refusal.new session.old.value session.new.value result }
{
    *refusal = NO_REFUSAL;
    match prepare(alloc, text, root, limits) {
        Ok(ready) => match Box::new(alloc, ready.into_feeding(alloc)) {
            Ok(held) => {
                session.put(held);
                OK
            }
            Err(_) => NO_MEMORY,
        },
        Err(why) => tell_stop(text, why, refusal),
    }
}

/// Has a session hold a stream at its first byte, by the specification that a handle holds, which is not read anew. What the
/// session held before is freed then. It may be used after the handle is closed.
#[unsafe(no_mangle)]
pub extern "C" fn cddlseq_begin_by(
    alloc: Global,
    handle: &mut CddlseqHandle,
    session: &mut CddlseqSession,
) -> u32
    ensures held { handle.new.value ≡ handle.old.value }
    ensures made { IsMadeBy begun_by handle.old.value session.old.value session.new.value result }
{
    let Some(held) = handle.take(alloc) else {
        return CLOSED;
    };
    let begun = begin(alloc, &held);
    handle.put(held);
    match begun {
        Ok(begun) => {
            session.put(begun);
            OK
        }
        Err(_) => NO_MEMORY,
    }
}

// A stream in pieces by what is ready, at its first byte.
fn begin(alloc: Global, ready: &Ready) -> Result<Box<Feeding>, AllocError>
    ensures { IfOk result (λ held. held.value ≡ begun_by ready.now) }
{
    let feeding = ready.another()?.into_feeding(alloc);
    Ok(Box::new(alloc, feeding)?)
}

/// Takes the next piece of a stream up to the end of an item that it completes. What comes after it in the piece is for the next
/// call.
#[unsafe(no_mangle)]
pub extern "C" fn cddlseq_feed(
    alloc: Global,
    session: &mut CddlseqSession,
    piece: &[u8],
    used: &mut usize,
    end: &mut CddlseqEnd,
) -> u32
    ensures { IsFedBy session.old.value session.new.value piece.now used.new end.old end.new result }
{
    let Some(mut held) = session.take(alloc) else {
        *used = 0;
        return CLOSED;
    };
    let status = held.feed(piece, used, end);
    session.put(held);
    status
}

/// Takes the next piece of a stream whole.
#[unsafe(no_mangle)]
pub extern "C" fn cddlseq_feed_all(
    alloc: Global,
    session: &mut CddlseqSession,
    piece: &[u8],
    end: &mut CddlseqEnd,
) -> u32
    ensures { IsFedAllBy session.old.value session.new.value piece.now end.old end.new result }
{
    let Some(mut held) = session.take(alloc) else {
        return CLOSED;
    };
    let status = held.feed_all(alloc, piece, end);
    session.put(held);
    status
}

/// Ends a stream that comes in pieces, and says how it ends.
#[unsafe(no_mangle)]
pub extern "C" fn cddlseq_finish(
    alloc: Global,
    session: &mut CddlseqSession,
    end: &mut CddlseqEnd,
) -> u32
    ensures { IsFinishedBy session.old.value session.new.value end.old end.new result }
{
    let Some(mut held) = session.take(alloc) else {
        return CLOSED;
    };
    let status = held.finish(end);
    session.put(held);
    status
}

/// Writes what a number asks for of a stream that comes in pieces: of the mismatch by which it has ended the path of its place, or
/// what is there; or the item that the last call of [`cddlseq_feed`] reported, in preferred or in deterministic encoding. The session
/// holds what it held.
#[unsafe(no_mangle)]
pub extern "C" fn cddlseq_show(
    alloc: Global,
    session: &mut CddlseqSession,
    wanted: u32,
    out: &mut [u8],
    needed: &mut usize,
) -> u32
    ensures held { session.new.value ≡ session.old.value }
    ensures shown { IsShownFor session.old.value wanted out.old out.new needed.new result }
{
    let Some(held) = session.take(alloc) else {
        *needed = 0;
        return CLOSED;
    };
    let status = held.show(alloc, wanted, out, needed);
    session.put(held);
    status
}

/// Begins another stream by the same specification, where the session holds one.
#[unsafe(no_mangle)]
pub extern "C" fn cddlseq_restart(alloc: Global, session: &mut CddlseqSession)
    ensures { session.new.value ≡ option_map restarted session.old.value }
{
    if let Some(mut held) = session.take(alloc) {
        held.restart();
        session.put(held);
    }
}

/// Frees what a session holds, so that it holds nothing.
#[unsafe(no_mangle)]
pub extern "C" fn cddlseq_discard(alloc: Global, session: &mut CddlseqSession)
    ensures { session.new.value ≡ None }
{
    if let Some(held) = session.take(alloc) {
        drop(Box::into_inner(held));
    }
}
