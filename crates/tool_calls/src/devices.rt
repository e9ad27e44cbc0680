//! The devices that words name.
use call_lines::{Sink, Source, count};
use std::alloc::{AllocError, Global};
use std::io::ErrorKind;

// `cut:2` gives two pieces; `Other:2` and the like fail so after two reads of one byte.
pub(crate) fn source_of<'a>(bytes: &'a [u8], word: &str) -> Source<'a> {
    let (kind, number) = word.split_once(':').unwrap_or((word, "0"));
    let number = count(number);
    match kind {
        "cut" => Source::new(bytes, number, bytes.len(), usize::MAX, ErrorKind::Other),
        "IsADirectory" => Source::new(bytes, 1, 1, number, ErrorKind::IsADirectory),
        "OutOfMemory" => Source::new(bytes, 1, 1, number, ErrorKind::OutOfMemory),
        _ => Source::new(bytes, 1, 1, number, ErrorKind::Other),
    }
}

// `1000:fails` or `1000:stops`.
pub(crate) fn sink_of(alloc: Global, word: &str, at_once: usize) -> Result<Sink, AllocError> {
    let (room, end) = word.split_once(':').unwrap_or((word, ""));
    Sink::new(alloc, count(room), end == "fails", at_once)
}
