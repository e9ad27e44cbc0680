//! Calls of `cbor_item` to devices: what is written, and how often the device failed.
use crate::items::sound_of;
use call_lines::{Sink, Source, bytes, count, first, push_bytes, push_number};
use cbor_item::{Counted, DetFault, WriteFault, write_bytes, write_det, write_item};
use std::alloc::{AllocError, Global};
use std::io::{self, ErrorKind};

// The words begin with how many bytes the device takes or gives, and with what it does then: `fails` or `stops`.
pub(crate) fn answer(
    alloc: Global,
    name: &str,
    words: &str,
    out: &mut String,
) -> Result<(), AllocError> {
    let (room, words) = first(words);
    let (end, words) = first(words);
    if name == "read" {
        return push_reads(alloc, count(room), end, count(words), out);
    }
    let mut sink = Counted::new(Sink::new(alloc, count(room), end == "fails", 1)?);
    perform(alloc, name, words, &mut sink, out)?;
    push_failures(alloc, sink.failures(), out)?;
    push_bytes(alloc, &sink.into_inner().taken, out)
}

fn perform(
    alloc: Global,
    name: &str,
    words: &str,
    device: &mut Counted<Sink>,
    out: &mut String,
) -> Result<(), AllocError> {
    match name {
        "write" => push_writes(alloc, words, device, out),
        "write_bytes" => {
            let piece = bytes(alloc, words)?;
            push_written(alloc, write_bytes(&piece, device), out)
        }
        _ => push_of_item(alloc, name, words, device, out),
    }
}

fn push_of_item(
    alloc: Global,
    name: &str,
    words: &str,
    device: &mut Counted<Sink>,
    out: &mut String,
) -> Result<(), AllocError> {
    let Some(sound) = sound_of(alloc, words)? else {
        return out.push_str("no item; ");
    };
    if name == "write_item" {
        return push_written(alloc, write_item(&sound, device), out);
    }
    match write_det(alloc, &sound, device) {
        Ok(()) => push_written(alloc, Ok(()), out),
        Err(DetFault::Write(fault)) => push_written(alloc, Err(fault), out),
        Err(DetFault::Memory) => out.push_str("no memory; "),
    }
}

fn push_written(
    alloc: Global,
    answer: Result<(), WriteFault>,
    out: &mut String,
) -> Result<(), AllocError> {
    match answer {
        Ok(()) => out.push_str("all; "),
        Err(WriteFault { written }) => {
            let part = format!(in alloc; "written: {written}; ")?;
            out.push_str(part.as_str())
        }
    }
}

// Each piece in one write, whose answers come one after the other.
fn push_writes(
    alloc: Global,
    words: &str,
    device: &mut Counted<Sink>,
    out: &mut String,
) -> Result<(), AllocError> {
    for word in words.split(' ') {
        let piece = bytes(alloc, word)?;
        push_count(alloc, device.write(&piece), out)?;
        out.push_str("; ")?;
    }
    Ok(())
}

// So many reads, each of at most one byte, of a device that gives so many.
fn push_reads(
    alloc: Global,
    room: usize,
    end: &str,
    reads: usize,
    out: &mut String,
) -> Result<(), AllocError> {
    let given = vec![in alloc; b'a'; room]?;
    let most = if end == "fails" { room } else { usize::MAX };
    let source = Source::new(&given, 1, 1, most, ErrorKind::TimedOut);
    let mut device = Counted::new(source);
    for _ in 0..reads {
        push_read(alloc, &mut device, out)?;
    }
    push_failures(alloc, device.failures(), out)?;
    out.push_str("none")
}

fn push_read(
    alloc: Global,
    device: &mut Counted<Source<'_>>,
    out: &mut String,
) -> Result<(), AllocError> {
    let mut piece = [0u8; 1];
    push_count(alloc, device.read(&mut piece), out)?;
    out.push_str(" ")?;
    push_bytes(alloc, &piece, out)?;
    out.push_str("; ")
}

// What a device answers to one piece.
fn push_count(
    alloc: Global,
    answer: io::Result<usize>,
    out: &mut String,
) -> Result<(), AllocError> {
    match answer {
        Ok(taken) => push_number(alloc, taken as u64, out),
        Err(error) => push_kind(error.kind(), out),
    }
}

fn push_kind(kind: ErrorKind, out: &mut String) -> Result<(), AllocError> {
    out.push_str(match kind {
        ErrorKind::TimedOut => "TimedOut",
        _ => "another error",
    })
}

// How often the device failed, before what went out.
fn push_failures(alloc: Global, failures: u64, out: &mut String) -> Result<(), AllocError> {
    let told = format!(in alloc; "failures: {failures}; took: ")?;
    out.push_str(told.as_str())
}
