//! The words of the command line, the text of a specification's file, and the lines on standard error of the program `cddlseq`.
#![tactic(auto)]

mod arguments;
mod choice;
mod lines;
mod status;
mod stream;
mod text;
mod words;

pub use crate::arguments::{options_of_arguments, say_no_text};
pub use crate::choice::{ITEM_BYTES, Options, STEPS, Task, Use};
pub use crate::lines::{
    say, say_no_memory, say_read_failed, say_unexplained, say_unopened, say_words, say_write_failed,
};
pub use crate::status::{BROKEN, FAILED, REFUSED};
pub use crate::stream::stream_name;
pub use crate::text::read_text;
pub use crate::words::{VERSION, options};
