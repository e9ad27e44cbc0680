//! The words of a table, which are kept from line to line, and the calls with it.
use crate::tables::{groups_of, ranks_of, type_id, types_of};
use crate::{match_calls, run_calls, session_calls};
use call_lines::first;
use std::alloc::{AllocError, Global};
use table_nodes::Table;

/// What a table is made of, as words. Each call makes it anew.
#[derive(Drop)]
pub(crate) struct Tables {
    alloc: Global,
    types: String,
    groups: String,
    ranks: String,
}

impl Tables {
    pub(crate) fn new(alloc: Global) -> Tables {
        Tables {
            alloc,
            types: String::new(alloc),
            groups: String::new(alloc),
            ranks: String::new(alloc),
        }
    }

    pub(crate) fn answer(
        &mut self,
        room: &str,
        name: &str,
        words: &str,
        out: &mut String,
    ) -> Result<(), AllocError> {
        match name {
            "flags" => match_calls::push_flags(self.alloc, words, out),
            "held" => match_calls::push_held(self.alloc, words, out),
            "types" | "groups" | "ranks" => self.keep(name, words, out),
            "owned_feed" | "owned_feed_one" | "owned_again" => self.give(name, words, out),
            _ => self.ask(room, name, words, out),
        }
    }

    fn keep(&mut self, name: &str, words: &str, out: &mut String) -> Result<(), AllocError> {
        let kept = String::from_str(self.alloc, words)?;
        match name {
            "types" => self.types = kept,
            "groups" => self.groups = kept,
            _ => self.ranks = kept,
        }
        out.push_str("kept")
    }

    // The table of what was kept, with this root.
    fn table(&self, root: &str) -> Result<Option<Box<Table>>, AllocError> {
        let ranks = ranks_of(self.alloc, self.ranks.as_str())?;
        let groups = groups_of(self.alloc, self.groups.as_str())?;
        let types = types_of(self.alloc, self.types.as_str())?;
        match Table::new(types, groups, type_id(root), ranks) {
            Ok(table) => {
                let table = table.with_told(self.alloc)?.with_indexes(self.alloc)?;
                Ok(Some(Box::new(self.alloc, table)?))
            }
            Err(_) => Ok(None),
        }
    }

    // A call with a table of this root.
    fn ask(&self, room: &str, name: &str, words: &str, out: &mut String) -> Result<(), AllocError> {
        let (root, words) = first(words);
        let Some(table) = self.table(root)? else {
            return out.push_str("NotRanked");
        };
        match room {
            "match" => match_calls::answer(self.alloc, &table, name, words, out),
            "session" => session_calls::answer(self.alloc, &table, name, words, out),
            _ => run_calls::answer(self.alloc, &table, name, words, out),
        }
    }

    // A call that takes the table of this root.
    fn give(&self, name: &str, words: &str, out: &mut String) -> Result<(), AllocError> {
        let (root, words) = first(words);
        match self.table(root)? {
            Some(table) => session_calls::answer_owned(self.alloc, table, name, words, out),
            None => out.push_str("NotRanked"),
        }
    }
}
