//! What is kept from line to line, and the calls by their rooms.
use crate::form_calls::Forming;
use crate::read_calls::Reading;
use crate::table_calls::Tables;
use crate::{item_calls, write_calls};
use call_lines::{Answers, first};
use std::alloc::{AllocError, Global};

/// Readers that go on with the next line, and the words of a table.
#[derive(Drop)]
pub(crate) struct Desk {
    alloc: Global,
    forming: Box<Forming>,
    reading: Box<Reading>,
    tables: Box<Tables>,
}

impl Desk {
    pub(crate) fn new(alloc: Global) -> Result<Desk, AllocError> {
        Ok(Desk {
            alloc,
            forming: Box::new(alloc, Forming::new(alloc))?,
            reading: Box::new(alloc, Reading::new(alloc))?,
            tables: Box::new(alloc, Tables::new(alloc))?,
        })
    }
}

impl Answers for Desk {
    fn answer(&mut self, line: &str, out: &mut String) -> Result<(), AllocError> {
        let (call, words) = first(line);
        let (room, name) = call.split_once('.').unwrap_or((call, ""));
        match room {
            "item" => item_calls::answer(self.alloc, name, words, out),
            "device" => write_calls::answer(self.alloc, name, words, out),
            "form" => self.forming.answer(name, words, out),
            "read" => self.reading.answer(name, words, out),
            "match" | "session" | "run" => self.tables.answer(room, name, words, out),
            _ => out.push_str("no such call"),
        }
    }
}
