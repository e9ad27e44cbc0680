//! Calls of `cddl_tool`: what it writes, and the exit status, for streams in pieces and for devices that fail.
use crate::devices::{sink_of, source_of};
use crate::shown::push_written;
use crate::word_calls::options_of;
use call_lines::{Sink, Source, bytes, first, push_no_memory, push_number};
use cbor_item::Counted;
use cddl_tool::{Options, Refusal, act, read_specification, ready};
use std::alloc::{AllocError, Global};

// The source, the sink, the specification, the stream, and the words of the command line.
pub(crate) fn push_acted(alloc: Global, words: &str, out: &mut String) -> Result<(), AllocError> {
    let (source, words) = first(words);
    let (sink, words) = first(words);
    let (spec, words) = first(words);
    let (stream, words) = first(words);
    let spec = bytes(alloc, spec)?;
    let stream = bytes(alloc, stream)?;
    let mut input = Counted::new(source_of(&stream, source));
    let mut output = Counted::new(sink_of(alloc, sink, 1)?);
    match options_of(alloc, words)? {
        Ok(options) => {
            push_status(alloc, &options, &spec, &mut input, &mut output, out)?;
            push_written(alloc, &output.into_inner().taken, out)
        }
        Err(_) => out.push_str("no options"),
    }
}

// The status, and what comes on standard error.
fn push_status(
    alloc: Global,
    options: &Options,
    spec: &[u8],
    input: &mut Counted<Source<'_>>,
    output: &mut Counted<Sink>,
    out: &mut String,
) -> Result<(), AllocError> {
    let mut errors = Counted::new(sink_of(alloc, "4096:fails", usize::MAX)?);
    let status = status_of(alloc, options, spec, input, output, &mut errors);
    push_number(alloc, status as u64, out)?;
    push_written(alloc, &errors.into_inner().taken, out)
}

fn status_of(
    alloc: Global,
    options: &Options,
    spec: &[u8],
    input: &mut Counted<Source<'_>>,
    output: &mut Counted<Sink>,
    errors: &mut Counted<Sink>,
) -> u8 {
    match ready(alloc, options, spec, errors) {
        Ok(table) => act(alloc, options, &table, input, output, errors),
        Err(status) => status,
    }
}

// The name of the root, or `-`, and the text of a specification: whether it is read.
pub(crate) fn push_read(alloc: Global, words: &str, out: &mut String) -> Result<(), AllocError> {
    let (root, words) = first(words);
    let spec = bytes(alloc, words)?;
    match read_specification(alloc, &spec, root_of(root)) {
        Ok(_) => out.push_str("read"),
        Err(Refusal::Memory) => push_no_memory(out),
        Err(Refusal::At(code, at)) => {
            out.push_str(format!(in alloc; "{code} at {at}")?.as_str())
        }
    }
}

pub(crate) fn root_of(word: &str) -> Option<&str> {
    if word == "-" { None } else { Some(word) }
}
