//! The program `cddlseq`: validates a sequence of CBOR items against a specification. Here are its words, its files and its
//! status; what it does with them is in `cddl_tool`.
#![tactic(auto)]

use cbor_item::Counted;
use cddl_tool::{
    Options, ProgressLine, Use, act_watched, is_progress_shown, options_of_arguments, read_text,
    ready, say_no_memory, say_no_text, say_unopened, say_words, stream_name,
};
use std::fs::File;
use std::io::{self, ErrorKind, IsTerminal, Read, Write};
use std::process::ExitCode;
use std::{env, fs};
use table_nodes::Table;

fn main(rt: HostRuntime) -> ExitCode {
    let mut err = Counted::new(rt.stderr());
    let status = match arguments(&rt) {
        Ok(words) => program(&rt, words.as_slice(), &mut err),
        Err(error) if error.kind() == ErrorKind::OutOfMemory => say_no_memory(&mut err),
        Err(_) => say_no_text(rt.alloc(), &rt, &mut err),
    };
    ExitCode::from(status)
}

fn arguments(rt: &HostRuntime) -> io::Result<Vec<String>> {
    Ok(env::args(rt)?.collect(rt.alloc())?)
}

// Does what the words say, and answers the exit status.
fn program<E: Write>(rt: &HostRuntime, words: &[String], err: &mut Counted<E>) -> u8 {
    match options_of_arguments(rt.alloc(), words) {
        Ok(options) => perform(rt, &options, err),
        Err(Use::Words(error)) => {
            let mut output = Counted::new(rt.stdout());
            say_words(rt.alloc(), &error, &mut output, err)
        }
        Err(Use::Memory) => say_no_memory(err),
    }
}

// Reads the specification, if there is one to read, and then does what is asked for.
fn perform<E: Write>(rt: &HostRuntime, options: &Options, err: &mut Counted<E>) -> u8 {
    let text = match text_of(rt, options, err) {
        Ok(text) => text,
        Err(status) => return status,
    };
    match ready(rt.alloc(), options, text.as_slice(), err) {
        Ok(table) => act_on_stream(rt, options, text.as_slice(), &table, err),
        Err(status) => status,
    }
}

// The text of the specification: none where the task has none.
fn text_of<E: Write>(
    rt: &HostRuntime,
    options: &Options,
    err: &mut Counted<E>,
) -> Result<Vec<u8>, u8> {
    let Some(name) = &options.spec else {
        return Ok(Vec::new(rt.alloc()));
    };
    match fs::open(rt, name.as_str()) {
        Ok(mut file) => read_text(rt.alloc(), &mut file, name.as_str(), err),
        Err(_) => Err(say_unopened(rt.alloc(), name.as_str(), err)),
    }
}

// Acts on the stream of the file that is named, or of standard input: to check a specification none of it is read.
fn act_on_stream<E: Write>(
    rt: &HostRuntime,
    options: &Options,
    text: &[u8],
    table: &Table,
    err: &mut Counted<E>,
) -> u8 {
    let Some(name) = stream_name(options) else {
        return act_on_device(rt, options, text, table, rt.stdin(), None, err);
    };
    match fs::open(rt, name) {
        Ok(file) => {
            let size = size_of_file(&file);
            act_on_device(rt, options, text, table, file, size, err)
        }
        Err(_) => say_unopened(rt.alloc(), name, err),
    }
}

// The size of a file, where it is one whose size says how many bytes can be read.
fn size_of_file(file: &File) -> Option<u64> {
    let about = file.metadata().ok()?;
    if about.is_file() {
        Some(about.len())
    } else {
        None
    }
}

// Acts on a stream, whose size is known or not, and shows how far it is where standard error is a terminal and standard output
// is none.
fn act_on_device<R: Read + Drop, E: Write>(
    rt: &HostRuntime,
    options: &Options,
    text: &[u8],
    table: &Table,
    device: R,
    size: Option<u64>,
    err: &mut Counted<E>,
) -> u8 {
    let mut input = Counted::new(device);
    let mut output = Counted::new(rt.stdout());
    let is_shown = is_progress_shown(
        options,
        rt.stderr().is_terminal(),
        rt.stdout().is_terminal(),
    );
    let mut screen = ProgressLine::new(rt, rt.stderr(), size, is_shown);
    act_watched(
        rt.alloc(),
        options,
        text,
        table,
        &mut input,
        &mut output,
        err,
        &mut screen,
    )
}
