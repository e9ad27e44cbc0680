//! Answers calls of `command_line` and `cddl_tool`, what the program says and writes; and of `cddl`.
#![tactic(auto)]

mod act_calls;
mod devices;
mod say_calls;
mod shown;
mod validate_calls;
mod word_calls;

use call_lines::{Answers, first, run};
use std::alloc::{AllocError, Global};
use std::process::ExitCode;

fn main(rt: HostRuntime) -> ExitCode {
    let (mut input, mut out, mut err) = (rt.stdin(), rt.stdout(), rt.stderr());
    let mut calls = Calls { alloc: rt.alloc() };
    run(rt.alloc(), &mut calls, &mut input, &mut out, &mut err)
}

// The calls by their names.
#[derive(Drop)]
struct Calls {
    alloc: Global,
}

impl Answers for Calls {
    fn answer(&mut self, line: &str, out: &mut String) -> Result<(), AllocError> {
        let alloc = self.alloc;
        let (call, words) = first(line);
        let (room, name) = call.split_once('.').unwrap_or((call, ""));
        match room {
            "tool" => answer_tool(alloc, name, words, out),
            "validate" => validate_calls::answer(alloc, name, words, out),
            _ => out.push_str("no such call"),
        }
    }
}

fn answer_tool(alloc: Global, name: &str, words: &str, out: &mut String) -> Result<(), AllocError> {
    match name {
        "options" => word_calls::push_options(alloc, words, out),
        "options_of_arguments" => word_calls::push_owned(alloc, words, out),
        "stream_name" => word_calls::push_stream_name(alloc, words, out),
        "act" => act_calls::push_acted(alloc, words, out),
        "read_specification" => act_calls::push_read(alloc, words, out),
        _ => answer_said(alloc, name, words, out),
    }
}

// Calls that say something.
fn answer_said(alloc: Global, name: &str, words: &str, out: &mut String) -> Result<(), AllocError> {
    match name {
        "read_text" => say_calls::push_read_text(alloc, words, out),
        "say" => say_calls::push_said(alloc, words, out),
        "say_failed" => say_calls::push_failed(alloc, words, out),
        "say_no_memory" => say_calls::push_no_memory_said(alloc, words, out),
        "say_words" => say_calls::push_words_said(alloc, words, out),
        "say_no_text" => say_calls::push_no_text(alloc, words, out),
        _ => out.push_str("no such call"),
    }
}
