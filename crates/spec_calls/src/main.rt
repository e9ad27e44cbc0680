//! Answers calls of what reads, checks and compiles specifications: of `cddl_literal`, `cddl_token` and the rooms of `cddl_check`,
//! of what a text's root leads to, and of `cddl_check` and `cddl_table`; and of `graphs` and `alternatives`.
#![tactic(auto)]

mod chain;
mod coming;
mod graph_calls;
mod literal_calls;
mod live;
mod maps;
mod name_calls;
mod part_calls;
mod prelude_calls;
mod reader;
mod root_faults;
mod roots_told;
mod sites;
mod survey;
mod term_calls;
mod text_calls;
mod text_faults;
mod texts_told;
mod token_calls;
mod told_calls;
mod value_calls;
mod whole;

use call_lines::{Answers, first, run};
use std::alloc::{AllocError, Global};
use std::process::ExitCode;

fn main(rt: HostRuntime) -> ExitCode {
    let (mut input, mut out, mut err) = (rt.stdin(), rt.stdout(), rt.stderr());
    let mut rooms = Rooms { alloc: rt.alloc() };
    run(rt.alloc(), &mut rooms, &mut input, &mut out, &mut err)
}

// The calls by their rooms.
#[derive(Drop)]
struct Rooms {
    alloc: Global,
}

impl Answers for Rooms {
    fn answer(&mut self, line: &str, out: &mut String) -> Result<(), AllocError> {
        let alloc = self.alloc;
        let (call, words) = first(line);
        let (room, name) = call.split_once('.').unwrap_or((call, ""));
        match room {
            "graph" => graph_calls::answer(alloc, name, words, out),
            "literal" => literal_calls::answer(alloc, name, words, out),
            "names" => name_calls::answer(alloc, words, out),
            "parts" => part_calls::answer(alloc, name, words, out),
            "prelude" => prelude_calls::answer(alloc, name, words, out),
            "terms" => term_calls::answer(alloc, name, words, out),
            "texts" => text_calls::answer(alloc, name, words, out),
            "value" => value_calls::answer(alloc, name, words, out),
            "token" => token_calls::answer(alloc, name, words, out),
            _ => told_calls::answer(alloc, room, name, words, out),
        }
    }
}
