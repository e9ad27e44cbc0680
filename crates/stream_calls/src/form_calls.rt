//! Calls of `read_items`, whose reader of forms goes on with the next line.
use crate::item_calls::push_notation_of;
use call_lines::{bytes, first, limit, push_no_memory, push_number};
use read_items::form::{FormReader, Progress};
use read_items::whole::whole_item;
use std::alloc::{AllocError, Global};

/// A reader of the form of items.
#[derive(Drop)]
pub(crate) struct Forming {
    alloc: Global,
    reader: FormReader,
}

impl Forming {
    pub(crate) fn new(alloc: Global) -> Forming {
        Forming {
            alloc,
            reader: FormReader::new(alloc),
        }
    }

    pub(crate) fn answer(
        &mut self,
        name: &str,
        words: &str,
        out: &mut String,
    ) -> Result<(), AllocError> {
        match name {
            "new" => {
                self.reader = FormReader::new(self.alloc);
                out.push_str("new")
            }
            "read" => self.read(words, out),
            "whole_item" => push_whole(self.alloc, words, out),
            _ => out.push_str("no such call"),
        }
    }

    // The depth, and a piece.
    fn read(&mut self, words: &str, out: &mut String) -> Result<(), AllocError> {
        let (depth, words) = first(words);
        let piece = bytes(self.alloc, words)?;
        match self.reader.read(limit(depth), &piece) {
            Ok(progress) => push_progress(self.alloc, progress, out),
            Err(_) => push_no_memory(out),
        }
    }
}

fn push_progress(alloc: Global, progress: Progress, out: &mut String) -> Result<(), AllocError> {
    out.push_str(format!(in alloc; "{progress:?}")?.as_str())
}

// The depth, and bytes.
fn push_whole(alloc: Global, words: &str, out: &mut String) -> Result<(), AllocError> {
    let (depth, words) = first(words);
    let spelling = bytes(alloc, words)?;
    match whole_item(alloc, &spelling, limit(depth)) {
        Ok(Some((item, length))) => {
            push_number(alloc, length as u64, out)?;
            out.push_str(": ")?;
            push_notation_of(alloc, &item, out)
        }
        Ok(None) => out.push_str("none"),
        Err(_) => push_no_memory(out),
    }
}
