//! Runs a stream that a device gives, and writes its report, or its items, to another.

ghost use Rattle.std.specs.Prelude.{◌≡◌, List, [], None, IfNone, IfOk, IfErr, OnOk, IfSome};
ghost use Rattle.cbor_data.specs.Value.{Value};
ghost use Rattle.item_nodes.specs.Counted.{device_of, failures_of};
ghost use Rattle.seq_run.specs.Answers.{IsFed, IsTapeFed};
ghost use Rattle.seq_run.specs.Ends.{IsDecisive};
ghost use Rattle.seq_run.specs.Judge.{judge_of};
ghost use Rattle.seq_run.specs.Output.{IsOfLines};
ghost use Rattle.seq_run.specs.Report.{IsShown};
ghost use Rattle.seq_run.specs.Running.{Adds, IsDecided, IsFault, IsPieceDone, ReadsByPieces, WritesAll, change_of};
ghost use Rattle.seq_run.specs.Watching.{TellsByPieces};
ghost use Rattle.seq_run.specs.Written.{IsReadBack, IsWrittenStream};

use crate::end::{End, State};
use crate::head::Heads;
use crate::laws::{decisive_end, written_is_read_back};
use crate::output::{Mode, push_end, push_item, push_smalls, push_taped, writes_lines};
use crate::room::Output;
use crate::session::{Session, Step};
use crate::watching::{Unwatched, Watch};
use cbor_item::{Counted, Sound, write_bytes};
use cbor_read::Limits;
use cbor_tape::Entry;
use cddl_match::shows_inside;
use std::alloc::{AllocError, Global};
use std::io::{Read, Write};
use table_nodes::Table;
use thiserror::Error;

// How many bytes are read at once, at most.
const PIECE: usize = 4096;

// How long the array for tapes is: where it is half as long again as the bytes, the keys of any map can be put in order on it.
const TAPE: usize = PIECE + PIECE / 2;

/// Why a run stopped before its output was whole.
#[derive(Clone, Copy, Debug, PartialEq, Eq, Error)]
pub enum RunFault {
    /// A read failed. Exactly the output of so many items went out, and they are all items of the bytes read.
    #[error("read failed after {0} items")]
    ReadFailed(u64),
    /// A write failed, or took no byte. Exactly so many bytes of the output went out.
    #[error("write failed after {0} bytes")]
    WriteFailed(u128),
    /// An allocation was refused. Exactly the output of so many items went out.
    #[error("out of memory")]
    Memory(u64),
}

/// Reads a stream in pieces of at most 4,096 bytes, up to the one in which its end is known, and writes what the mode says of
/// each accepted item and of the end. It answers the end, and for a mismatch the item that failed.
///
/// What a piece adds to the output is put together and written before the next one is read. Beside the item that is being read
/// it takes memory for the output of one piece: that of one item, and of items in 4,096 bytes more, with room for 64 bytes for the
/// line of each of these and for twelve bytes for each of its bytes. In [`Mode::Deterministic`] it takes what
/// [`cbor_item::write_det`] does, too, to put one item in order.
///
/// In [`Mode::Report`] and [`Mode::EndLine`] no item is built that is whole in a piece and of which a tape tells that it is
/// accepted ([`tape_match::accepts`]): it is checked, and its line is written, from its bytes by that tape
/// ([`cbor_tape::whole_tape`]). Tapes take 96 KiB, which are asked for once.
///
/// # Errors
///
/// A [`RunFault`], only where a read, a write or an allocation of this call failed.
pub fn run<R: Read, W: Write>(
    alloc: Global,
    table: &Table,
    limits: Limits,
    steps: u64,
    mode: Mode,
    input: &mut Counted<R>,
    output: &mut Counted<W>,
) -> Result<(End, Option<Sound>), RunFault>
    ensures reported { IfOk result (λ r. IfSome (R.remaining (device_of input.old)) (λ stream.
        WritesAll mode (judge_of table.now steps) limits stream (change_of W.contents output.old output.new) r.0 r.1)) }
    ensures read_back { IfOk result (λ r. (items : List Value) →
        IsWrittenStream table.now limits items (R.remaining (device_of input.old)) → IsDecisive r.0 →
        IsReadBack mode items (change_of W.contents output.old output.new) r.0 r.1) }
    ensures shown { IfOk result (λ r. IsShown r.0 r.1) }
    ensures counts { OnOk result ((failures_of input.new ≡ failures_of input.old) × (failures_of output.new ≡ failures_of output.old)) }
    ensures reads { ReadsByPieces (judge_of table.now steps) limits (change_of R.remaining input.old input.new) }
    ensures fault { IfErr result (IsFault mode (judge_of table.now steps) limits (change_of R.remaining input.old input.new) (change_of W.contents output.old output.new)) }
{
    let mut watch = Unwatched;
    run_watched(alloc, table, limits, steps, mode, input, output, &mut watch)
}

/// Runs a stream as [`run`] does, and tells the watch after each piece that leaves the end open how many items were taken so far,
/// and how many bytes were read.
///
/// # Errors
///
/// Those of [`run`].
pub fn run_watched<R: Read, W: Write, P: Watch>(
    alloc: Global,
    table: &Table,
    limits: Limits,
    steps: u64,
    mode: Mode,
    input: &mut Counted<R>,
    output: &mut Counted<W>,
    watch: &mut P,
) -> Result<(End, Option<Sound>), RunFault>
    ensures reported { IfOk result (λ r. IfSome (R.remaining (device_of input.old)) (λ stream.
        WritesAll mode (judge_of table.now steps) limits stream (change_of W.contents output.old output.new) r.0 r.1)) }
    ensures read_back { IfOk result (λ r. (items : List Value) →
        IsWrittenStream table.now limits items (R.remaining (device_of input.old)) → IsDecisive r.0 →
        IsReadBack mode items (change_of W.contents output.old output.new) r.0 r.1) }
    ensures shown { IfOk result (λ r. IsShown r.0 r.1) }
    ensures counts { OnOk result ((failures_of input.new ≡ failures_of input.old) × (failures_of output.new ≡ failures_of output.old)) }
    ensures reads { ReadsByPieces (judge_of table.now steps) limits (change_of R.remaining input.old input.new) }
    ensures fault { IfErr result (IsFault mode (judge_of table.now steps) limits (change_of R.remaining input.old input.new) (change_of W.contents output.old output.new)) }
    ensures told { TellsByPieces (judge_of table.now steps) limits (change_of R.remaining input.old input.new) (P.told watch.old) (P.told watch.new) }
{
    let mut session = Session::new(alloc, table, limits, steps);
    let mut buffer = [0; PIECE];
    let mut tape = tape_for(alloc, mode);
    let mut spare = tape_for(alloc, mode);
    let mut bytes = Output::new(alloc);
    let mut reported = 0;
    let mut written = 0;
    let mut consumed = 0;
    'pieces: loop {
        let Ok(count) = input.read(&mut buffer) else {
            return Err(RunFault::ReadFailed(reported));
        };
        bytes.clear();
        let piece = &buffer[..count];
        let Ok(end) = take_piece(
            alloc,
            mode,
            &mut tape,
            &mut spare,
            &mut session,
            piece,
            &mut bytes,
        ) else {
            return Err(RunFault::Memory(reported));
        };
        if let Err(fault) = write_bytes(bytes.as_slice(), output) {
            return Err(RunFault::WriteFailed(written + fault.written));
        }
        written += bytes.len() as u128;
        if let Some(end) = end {
            shows_inside();
            written_is_read_back();
            decisive_end();
            return Ok((end, session.into_rejected()));
        }
        reported = session.taken().0;
        consumed += count as u64;
        watch.tell(reported, consumed);
    }
}

// An array for tapes. It is empty where none are wanted, and where there is no memory for it: then each item is built.
fn tape_for(alloc: Global, mode: Mode) -> Vec<Entry> {
    if !writes_lines(mode) {
        return Vec::new(alloc);
    }
    match vec![in alloc; Entry { head: 0, next: 0 }; TAPE] {
        Ok(tape) => tape,
        Err(_) => Vec::new(alloc),
    }
}

// Takes a piece of the stream, or its end where the piece is empty, and gives its output: that of the items that the piece
// completes, and that of the end, if it is known now.
fn take_piece(
    alloc: Global,
    mode: Mode,
    tape: &mut [Entry],
    spare: &mut [Entry],
    session: &mut Session<'_>,
    piece: &[u8],
    bytes: &mut Output,
) -> Result<Option<End>, AllocError>
    requires open { session.old.stopped ≡ None }
    requires empty { bytes.old ≡ [] }
    ensures { IfOk result (λ end. IsPieceDone mode session.old piece.now end session.new bytes.new) }
{
    match take_items(alloc, mode, tape, spare, session, piece, bytes)? {
        State::Open => Ok(None),
        State::Ended(end) => {
            shows_inside();
            push_end(alloc, mode, bytes, &end, session.rejected())?;
            Ok(Some(end))
        }
    }
}

// Takes a piece of the stream, or its end where the piece is empty, and appends the output of the items that it completes.
fn take_items(
    alloc: Global,
    mode: Mode,
    tape: &mut [Entry],
    spare: &mut [Entry],
    session: &mut Session<'_>,
    piece: &[u8],
    bytes: &mut Output,
) -> Result<State, AllocError>
    requires { session.old.stopped ≡ None }
    ensures adds { OnOk result (Adds mode session.old piece.now bytes.old session.new bytes.new) }
    ensures decided { IfOk result (λ state. IsDecided state piece.now session.new) }
{
    if piece.is_empty() {
        let end = session.finish()?;
        return Ok(State::Ended(end));
    }
    feed_items(alloc, mode, tape, spare, session, piece, bytes)
}

// Feeds a piece, and appends the output of the items that it completes.
fn feed_items(
    alloc: Global,
    mode: Mode,
    tape: &mut [Entry],
    spare: &mut [Entry],
    session: &mut Session<'_>,
    piece: &[u8],
    bytes: &mut Output,
) -> Result<State, AllocError>
    requires { session.old.stopped ≡ None }
    ensures adds { OnOk result (Adds mode session.old piece.now bytes.old session.new bytes.new) }
    ensures answer { OnOk result (IsFed result session.new) }
{
    let mut rest = piece;
    let mut heads = Heads::new();
    'steps: loop {
        let (before, offset) = session.taken();
        let count = session.take_smalls(rest);
        if count > 0 {
            push_smalls(
                alloc,
                mode,
                &mut heads,
                bytes,
                before,
                offset,
                &rest[..count],
            )?;
            rest = &rest[count..];
            continue;
        }
        if let Some(end) = take_taped(mode, tape, spare, session, rest) {
            push_taped(mode, &mut heads, bytes, before + 1, offset, rest, end, tape)?;
            rest = &rest[end..];
            continue;
        }
        match session.feed_one(rest)? {
            Step::More => return Ok(State::Open),
            Step::Ended(end) => return Ok(State::Ended(end)),
            Step::Item { used, item } => {
                push_item(alloc, mode, &mut heads, bytes, before + 1, offset, &item)?;
                drop(item);
                rest = &rest[used..];
            }
        }
    }
}

// Takes the item at the front of the rest by its tape, where only its line is written of it, if anything is.
fn take_taped(
    mode: Mode,
    tape: &mut [Entry],
    spare: &mut [Entry],
    session: &mut Session<'_>,
    rest: &[u8],
) -> Option<usize>
    requires { session.old.stopped ≡ None }
    ensures taken { IfSome result (λ end. IsOfLines mode × IsTapeFed session.old rest.now end tape.new session.new) }
    ensures kept { IfNone result (session.new ≡ session.old) }
{
    if !writes_lines(mode) || rest.len() > PIECE || rest.len() > tape.len() {
        return None;
    }
    session.take_taped(rest, tape, spare)
}
