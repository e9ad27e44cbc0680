//! Calls of `run` of `seq_run`: over a device that gives a stream in pieces, with what is written.

ghost use Rattle.std.specs.Prelude.{IfOk};
ghost use Rattle.seq_run.specs.Report.{IsShown};

use crate::session_calls::limits_of;
use call_lines::{Source, bytes, count, first, number, push_bytes, push_number, push_text};
use cbor_item::{Counted, Sound};
use seq_run::{End, Mode, RunFault, end_line, run};
use std::alloc::{AllocError, Global};
use std::io::ErrorKind;
use table_nodes::Table;

// The words are the steps for each item, the limits, how large the pieces are, and the stream.
pub(crate) fn answer(
    alloc: Global,
    table: &Table,
    name: &str,
    words: &str,
    out: &mut String,
) -> Result<(), AllocError> {
    let (steps, words) = first(words);
    let (limits, words) = limits_of(words);
    let (size, words) = first(words);
    let stream = bytes(alloc, words)?;
    let Some(limits) = limits else {
        return out.push_str("no limits");
    };
    let size = count(size);
    let source = Source::new(&stream, size, size, usize::MAX, ErrorKind::Other);
    let mut input = Counted::new(source);
    let mut output = Counted::new(Vec::with_capacity(alloc, 65536)?);
    let mode = mode_of(name);
    let told = run(
        alloc,
        table,
        limits,
        number(steps),
        mode,
        &mut input,
        &mut output,
    );
    push_told(alloc, &told, out)?;
    push_source(alloc, &stream, input.into_inner(), out)?;
    push_output(alloc, &output.into_inner(), out)
}

fn mode_of(name: &str) -> Mode {
    match name {
        "report" => Mode::Report,
        "rewrite" => Mode::Rewrite,
        "deterministic" => Mode::Deterministic,
        _ => Mode::EndLine,
    }
}

// The line of the end, or why there is none.
fn push_told(
    alloc: Global,
    told: &Result<(End, Option<Sound>), RunFault>,
    out: &mut String,
) -> Result<(), AllocError>
    requires { IfOk told.now (λ r. IsShown r.0 r.1) }
{
    match told {
        Ok((end, rejected)) => match end_line(alloc, end, rejected.as_ref()) {
            Ok(line) => push_line(&line, out),
            Err(_) => out.push_str("no memory for a line"),
        },
        Err(RunFault::Memory(items)) => {
            out.push_str("no memory after ")?;
            push_number(alloc, *items, out)
        }
        Err(fault) => out.push_str(fault.to_string(alloc)?.as_str()),
    }
}

// A line without its line feed.
fn push_line(line: &[u8], out: &mut String) -> Result<(), AllocError> {
    match line.split_last() {
        Some((b'\n', front)) => push_text(front, out),
        _ => out.push_str("no line"),
    }
}

// How many bytes were read, and how many at once at most.
fn push_source(
    alloc: Global,
    stream: &[u8],
    source: Source<'_>,
    out: &mut String,
) -> Result<(), AllocError> {
    let given = stream.len().saturating_sub(source.bytes.len());
    out.push_str("; given ")?;
    push_number(alloc, given as u64, out)?;
    out.push_str(", at once ")?;
    push_number(alloc, source.largest as u64, out)
}

// What was written: each line with ` / ` before it, or bytes where it is no text.
fn push_output(alloc: Global, written: &[u8], out: &mut String) -> Result<(), AllocError> {
    match str::from_utf8(written) {
        Ok(text) if text.ends_with('\n') => push_lines(text, out),
        _ => {
            out.push_str(" / ")?;
            push_bytes(alloc, written, out)
        }
    }
}

fn push_lines(text: &str, out: &mut String) -> Result<(), AllocError> {
    for line in text.lines() {
        out.push_str(" / ")?;
        out.push_str(line)?;
    }
    Ok(())
}
