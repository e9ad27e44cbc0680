//! Calls of `validate` of `cddl`: the line of the end, or why there is none, and what was written.

ghost use Rattle.std.specs.Prelude.{IfOk};
ghost use Rattle.seq_run.specs.Report.{IsShown};

use crate::act_calls::root_of;
use crate::devices::{sink_of, source_of};
use crate::shown::push_output;
use call_lines::{Sink, Source, bytes, first, limit, number, push_number, push_text};
use cddl::{Counted, End, Failure, Limits, Mode, RunFault, Sound, end_line, validate};
use std::alloc::{AllocError, Global};

// The words are the source, the sink, the name of the root or `-`, the steps, the limits, the specification, and the stream.
pub(crate) fn answer(
    alloc: Global,
    name: &str,
    words: &str,
    out: &mut String,
) -> Result<(), AllocError> {
    let (source, words) = first(words);
    let (sink, words) = first(words);
    let (root, words) = first(words);
    let (steps, words) = first(words);
    let (limits, words) = limits_of(words);
    let (spec, words) = first(words);
    let spec = bytes(alloc, spec)?;
    let stream = bytes(alloc, words)?;
    let Some(limits) = limits else {
        return out.push_str("no limits");
    };
    let mut input = Counted::new(source_of(&stream, source));
    let mut output = Counted::new(sink_of(alloc, sink, 1)?);
    push_run(
        alloc,
        &spec,
        root_of(root),
        limits,
        number(steps),
        mode_of(name),
        &mut input,
        &mut output,
        out,
    )?;
    push_output(alloc, &output.into_inner().taken, out)
}

// The depth and the number of bytes that words begin with, where they are limits, and the words after them.
fn limits_of(words: &str) -> (Option<Limits>, &str) {
    let (depth, words) = first(words);
    let (item_bytes, words) = first(words);
    (Limits::try_new(limit(depth), limit(item_bytes)), words)
}

fn mode_of(name: &str) -> Mode {
    match name {
        "report" => Mode::Report,
        "rewrite" => Mode::Rewrite,
        "deterministic" => Mode::Deterministic,
        _ => Mode::EndLine,
    }
}

// What the call comes to is wide, so nothing else is done where it is asked.
fn push_run(
    alloc: Global,
    spec: &[u8],
    root: Option<&str>,
    limits: Limits,
    steps: u64,
    mode: Mode,
    input: &mut Counted<Source<'_>>,
    output: &mut Counted<Sink>,
    out: &mut String,
) -> Result<(), AllocError> {
    let told = validate(alloc, spec, root, limits, steps, mode, input, output);
    push_told(alloc, &told, out)
}

// The line of the end, or why there is none.
fn push_told(
    alloc: Global,
    told: &Result<(End, Option<Sound>), Failure>,
    out: &mut String,
) -> Result<(), AllocError>
    requires { IfOk told.now (λ r. IsShown r.0 r.1) }
{
    match told {
        Ok((end, rejected)) => match end_line(alloc, end, rejected.as_ref()) {
            Ok(line) => push_line(&line, out),
            Err(_) => out.push_str("no memory for a line"),
        },
        Err(failure) => push_failure(alloc, failure, out),
    }
}

// A line without its line feed.
fn push_line(line: &[u8], out: &mut String) -> Result<(), AllocError> {
    match line.split_last() {
        Some((b'\n', front)) => push_text(front, out),
        _ => out.push_str("no line"),
    }
}

fn push_failure(alloc: Global, failure: &Failure, out: &mut String) -> Result<(), AllocError> {
    match failure {
        Failure::Stopped(RunFault::Memory(items)) => {
            out.push_str("no memory after ")?;
            push_number(alloc, *items, out)
        }
        _ => out.push_str(failure.to_string(alloc)?.as_str()),
    }
}
