//! What the programs share that answer calls: a line on standard input names a public call and its arguments, and the line that
//! is printed for it is its answer. `tests/run_calls.py` explains both, and has the rows that are asked.
//!
//! What is refused for want of memory by a call is answered by `no memory`, and the next line is asked. Where the program itself
//! has no memory, it ends with the status 3.
#![tactic(auto)]

mod devices;
mod lines;
mod words;

pub use crate::devices::{Sink, Source};
pub use crate::lines::{Answers, run, say_no_memory};
pub use crate::words::{
    bytes, count, first, limit, number, push_bytes, push_hex, push_is, push_no_memory, push_none,
    push_number, push_space, push_text,
};
