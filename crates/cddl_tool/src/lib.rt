//! What the program `cddlseq` does with its options, a specification and a stream: over any reader and writers.
#![tactic(auto)]

mod acting;
mod ending;
mod further;
mod laws;
mod progress;
mod watching;

pub use crate::acting::{act, ready};
pub use crate::laws::front_tells;
pub use crate::progress::{
    ProgressLine, Screen, clear_line, is_due, is_progress_shown, show_progress,
};
pub use crate::watching::act_watched;
pub use cddl_table::read_specification;
pub use cddl_token::Refusal;
pub use command_line::{
    BROKEN, FAILED, Options, REFUSED, STEPS, Task, Use, VERSION, options, options_of_arguments,
    read_text, say, say_no_memory, say_no_text, say_read_failed, say_unexplained, say_unopened,
    say_words, say_write_failed, stream_name,
};
