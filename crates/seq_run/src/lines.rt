//! The lines of a report.

ghost use Rattle.std.specs.Prelude.{◌≡◌, ◌++◌, decimal, IfOk, OnOk, option_copied};
ghost use Rattle.std.specs.Option.{option_map};
ghost use Rattle.cbor_data.specs.Notation.{notation};
ghost use Rattle.item_nodes.specs.View.{view};
ghost use Rattle.cbor_item.specs.Place.Paths.{path};
ghost use Rattle.seq_run.specs.Report.{cause_text, end_line as end_line_of, fault_text, item_line, mismatch_text, or_nothing, IsShown};

use crate::end::{Cause, End};
use crate::head::Heads;
use crate::room::Output;
use cbor_item::{Item, Sound, item_at, path_text, push_notation};
use cbor_read::FaultKind;
use itoa::Buffer;
use std::alloc::{AllocError, Global};

/// The last line of a report, its line feed with it: `clean: N items, B bytes`, or `failed: N items, offset O:` and the
/// cause. For a mismatch the item that failed has to be given, and the place is one of its places.
///
/// # Errors
///
/// [`AllocError`] where an allocation was refused.
pub fn end_line(alloc: Global, end: &End, rejected: Option<&Sound>) -> Result<Vec<u8>, AllocError>
    requires { IsShown end.now (option_copied rejected) }
    ensures { IfOk result (λ line. line.items ≡ end_line_of end.now (option_copied rejected.entry)) }
{
    let mut line = Vec::new(alloc);
    match end {
        End::Clean { items, bytes } => {
            line.extend_from_slice(b"clean: ")?;
            push_number(&mut line, *items)?;
            line.extend_from_slice(b" items, ")?;
            push_number(&mut line, *bytes)?;
            line.extend_from_slice(b" bytes\n")?;
            Ok(line)
        }
        End::Failed {
            items,
            offset,
            cause,
        } => {
            line.extend_from_slice(b"failed: ")?;
            push_number(&mut line, *items)?;
            line.extend_from_slice(b" items, offset ")?;
            push_number(&mut line, *offset)?;
            line.extend_from_slice(b": ")?;
            push_cause(alloc, &mut line, *cause, rejected)?;
            line.extend_from_slice(b"\n")?;
            Ok(line)
        }
    }
}

// Appends the line of an item: `item N at OFFSET: DIAG` and a line feed.
pub(crate) fn push_item_line(
    alloc: Global,
    heads: &mut Heads,
    out: &mut Output,
    number: u64,
    offset: u64,
    item: &Sound,
) -> Result<(), AllocError>
    ensures { OnOk result (out.new ≡ out.old ++ item_line number (record { offset = offset; item = item.now })) }
{
    let mut line = out.take(alloc);
    heads.push(&mut line, number, offset)?;
    push_notation(&mut line, item.item())?;
    line.extend_from_slice(b"\n")?;
    out.set(line);
    Ok(())
}

fn push_cause(
    alloc: Global,
    line: &mut Vec<u8>,
    cause: Cause,
    rejected: Option<&Sound>,
) -> Result<(), AllocError>
    ensures { OnOk result (line.new.items ≡ line.old.items ++ cause_text cause (option_copied rejected.entry)) }
{
    match (cause, rejected) {
        (Cause::Fault(fault), _) => {
            line.extend_from_slice(fault_words(fault.kind))?;
            push_number(line, fault.at)?;
            Ok(())
        }
        (Cause::Mismatch(place), Some(item)) => push_mismatch(alloc, line, place, item.item()),
        (Cause::Mismatch(_), None) => Ok(()),
        (Cause::Spent, _) => line.extend_from_slice(b"step limit reached"),
    }
}

// Appends the path of the place, and what is there.
fn push_mismatch(
    alloc: Global,
    line: &mut Vec<u8>,
    place: usize,
    item: &Item,
) -> Result<(), AllocError>
    ensures { OnOk result (line.new.items ≡ line.old.items ++ mismatch_text place (view item.now)) }
{
    line.extend_from_slice(b"mismatch at ")?;
    push_path(alloc, line, place, item)?;
    line.extend_from_slice(b": ")?;
    push_found(line, item_at(item, place))?;
    Ok(())
}

fn push_path(alloc: Global, line: &mut Vec<u8>, place: usize, item: &Item) -> Result<(), AllocError>
    ensures { OnOk result (line.new.items ≡ line.old.items ++ or_nothing (path (view item.now) place)) }
{
    match path_text(alloc, item, place)? {
        Some(text) => line.extend_from_slice(text.as_slice()),
        None => Ok(()),
    }
}

fn push_found(line: &mut Vec<u8>, found: Option<&Item>) -> Result<(), AllocError>
    ensures { OnOk result (line.new.items ≡ line.old.items ++ or_nothing (option_map (λ item. notation (view item.now)) found.entry)) }
{
    match found {
        Some(item) => push_notation(line, item),
        None => Ok(()),
    }
}

fn fault_words(kind: FaultKind) -> &'static [u8]
    ensures { result.now ≡ fault_text kind }
{
    match kind {
        FaultKind::ReservedInfo => b"reserved additional information at byte ",
        FaultKind::BadIndefinite => b"indefinite length not allowed at byte ",
        FaultKind::BadBreak => b"break not allowed at byte ",
        FaultKind::BadChunk => b"bad chunk at byte ",
        FaultKind::BadSimple => b"bad simple value at byte ",
        FaultKind::TooDeep => b"too deep at byte ",
        FaultKind::TooLong => b"item too long at byte ",
        FaultKind::Truncated => b"truncated at byte ",
        FaultKind::BadText => b"text is not UTF-8 at byte ",
        FaultKind::DuplicateKey => b"duplicate key at place ",
    }
}

fn push_number(line: &mut Vec<u8>, n: u64) -> Result<(), AllocError>
    ensures { OnOk result (line.new.items ≡ line.old.items ++ decimal n) }
{
    let mut buffer = Buffer::new();
    line.extend_from_slice(buffer.format(n).as_bytes())
}
