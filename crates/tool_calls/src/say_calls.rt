//! Calls of `command_line` that read the text of a specification, or say something on standard error.
use crate::devices::{sink_of, source_of};
use crate::shown::push_written;
use crate::word_calls::options_of;
use call_lines::{bytes, first, push_no_memory, push_number};
use cbor_item::Counted;
use cddl_tool::{
    Use, read_text, say, say_no_memory, say_no_text, say_read_failed, say_unopened, say_words,
    say_write_failed,
};
use std::alloc::{AllocError, Global};
use std::env::{Env, FillError};

// The source, the bytes of the file, and its name: how many bytes are read and how many are left, or the status.
pub(crate) fn push_read_text(
    alloc: Global,
    words: &str,
    out: &mut String,
) -> Result<(), AllocError> {
    let (source, words) = first(words);
    let (text, name) = first(words);
    let text = bytes(alloc, text)?;
    let name = bytes(alloc, name)?;
    let name = str::from_utf8(&name).unwrap_or("");
    let mut file = source_of(&text, source);
    let mut err = Counted::new(sink_of(alloc, "100:fails", usize::MAX)?);
    match read_text(alloc, &mut file, name, &mut err) {
        Ok(read) => push_of(alloc, "read ", read.len(), out)?,
        Err(status) => push_of(alloc, "status ", status as usize, out)?,
    }
    push_of(alloc, ", left ", file.bytes.len(), out)?;
    push_written(alloc, &err.into_inner().taken, out)
}

fn push_of(alloc: Global, text: &str, number: usize, out: &mut String) -> Result<(), AllocError> {
    out.push_str(text)?;
    push_number(alloc, number as u64, out)
}

// The room of a device, what is said first, and the name of a file that cannot be opened.
pub(crate) fn push_said(alloc: Global, words: &str, out: &mut String) -> Result<(), AllocError> {
    let (room, words) = first(words);
    let (text, name) = first(words);
    let text = bytes(alloc, text)?;
    let name = bytes(alloc, name)?;
    let name = str::from_utf8(&name).unwrap_or("");
    let mut err = Counted::new(sink_of(alloc, room, usize::MAX)?);
    say(&text, &mut err);
    let status = say_unopened(alloc, name, &mut err);
    push_number(alloc, status as u64, out)?;
    let sink = err.into_inner();
    push_of(alloc, ", writes ", sink.writes, out)?;
    push_written(alloc, &sink.taken, out)
}

// The room of a device: that memory was refused.
pub(crate) fn push_no_memory_said(
    alloc: Global,
    words: &str,
    out: &mut String,
) -> Result<(), AllocError> {
    let mut err = Counted::new(sink_of(alloc, words, usize::MAX)?);
    let status = say_no_memory(&mut err);
    push_number(alloc, status as u64, out)?;
    push_written(alloc, &err.into_inner().taken, out)
}

// The room of a device, `read` or `write`, and a number: what failed after so many items or bytes.
pub(crate) fn push_failed(alloc: Global, words: &str, out: &mut String) -> Result<(), AllocError> {
    let (room, words) = first(words);
    let (call, number) = first(words);
    let mut err = Counted::new(sink_of(alloc, room, usize::MAX)?);
    let status = if call == "read" {
        say_read_failed(number.parse::<u64>().unwrap_or(0), &mut err)
    } else {
        say_write_failed(number.parse::<u128>().unwrap_or(0), &mut err)
    };
    push_number(alloc, status as u64, out)?;
    let sink = err.into_inner();
    push_of(alloc, ", writes ", sink.writes, out)?;
    push_written(alloc, &sink.taken, out)
}

// The room of standard output, and words that give no options: the status, and what is said of them on both devices.
pub(crate) fn push_words_said(
    alloc: Global,
    words: &str,
    out: &mut String,
) -> Result<(), AllocError> {
    let (room, words) = first(words);
    let mut output = Counted::new(sink_of(alloc, room, usize::MAX)?);
    let mut err = Counted::new(sink_of(alloc, "4096:fails", usize::MAX)?);
    match options_of(alloc, words)? {
        Err(Use::Words(error)) => {
            let status = say_words(alloc, &error, &mut output, &mut err);
            push_number(alloc, status as u64, out)?;
            push_written(alloc, &err.into_inner().taken, out)?;
            push_written(alloc, &output.into_inner().taken, out)
        }
        Err(Use::Memory) => push_no_memory(out),
        Ok(_) => out.push_str("options"),
    }
}

/// The arguments of a program that has no variables.
#[derive(Drop)]
struct Arguments {
    words: Vec<Vec<u8>>,
}

impl Env for Arguments {
    fn arg(&self, i: usize, buf: &mut [u8]) -> Result<usize, FillError> {
        let Some(argument) = self.words.get(i) else {
            return Err(FillError::NotPresent);
        };
        let len = argument.len();
        if len > buf.len() {
            return Err(FillError::TooLong);
        }
        buf[..len].copy_from_slice(argument);
        Ok(len)
    }

    fn var(&self, _name: &str, _buf: &mut [u8]) -> Result<usize, FillError> {
        Err(FillError::NotPresent)
    }

    fn var_at(&self, _i: usize, _buf: &mut [u8]) -> Result<usize, FillError> {
        Err(FillError::NotPresent)
    }
}

// Which argument is no text.
pub(crate) fn push_no_text(alloc: Global, words: &str, out: &mut String) -> Result<(), AllocError> {
    let mut list = Vec::new(alloc);
    for word in words.split(' ') {
        list.push(bytes(alloc, word)?)?;
    }
    let mut err = Counted::new(sink_of(alloc, "100:fails", usize::MAX)?);
    let status = say_no_text(alloc, &Arguments { words: list }, &mut err);
    push_number(alloc, status as u64, out)?;
    push_written(alloc, &err.into_inner().taken, out)
}
