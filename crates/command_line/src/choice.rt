//! What the words of the command line say.

ghost use Rattle.std.specs.Prelude.{◌≡◌, ◌≤◌};
ghost use Rattle.cbor_read.specs.declared.limits.TheConstants.{MOST_ITEM_BYTES};
ghost use Rattle.command_line.specs.Errors.{IsUseOf};
ghost use Rattle.command_line.specs.declared.choice.Use.TheVariants.{Memory as OutOfMemory};

use clap::Error;
use clap::error::ErrorKind;
use std::alloc::AllocError;

/// How many questions a specification may ask of one item, where no option says it.
pub const STEPS: u64 = 10_000_000;

/// The most bytes of an item, where no other number is given.
pub const ITEM_BYTES: u32 = 16_777_216;

/// What the program is asked to do.
#[derive(Clone, Copy, Debug, PartialEq, Eq)]
pub enum Task {
    /// To say whether a specification is accepted.
    Check,
    /// To validate a stream against a specification.
    Validate,
    /// To write the items of a stream that match a specification in preferred or in deterministic encoding.
    Rewrite,
    /// To show the items of a stream, whatever they are.
    Show,
    /// To say what a code or a cause means.
    Explain,
}

/// What the words say. What a command does not have is `None`, or the default.
#[derive(Debug, Drop)]
pub struct Options {
    /// What to do.
    pub task: Task,
    /// The code or the cause that is to be explained, if the task is that.
    pub code: Option<String>,
    /// The name of the file with the specification, if the task has one.
    pub spec: Option<String>,
    /// The name of the file with the stream. Without it standard input is read.
    pub file: Option<String>,
    /// The name of the rule that is the root. Without it the first rule of the specification is.
    pub root: Option<String>,
    /// How many questions the specification may ask of one item.
    pub steps: u64,
    /// The greatest depth of an item, from 1 to 256.
    pub depth: u32,
    /// The most bytes of an item, from 1 to 67,108,864.
    pub item_bytes: u32,
    /// Whether a stream is validated without a line for each item.
    pub quiet: bool,
    /// Whether items are rewritten in deterministic encoding (RFC 8949 section 4.2.1), and not in preferred encoding.
    pub deterministic: bool,
    /// Whether more is reported for a refusal, or of an item that does not match, than its line.
    pub explain: bool,
    /// Whether no progress is shown.
    pub no_progress: bool,
    pub ghost depth_in_range: { (1 ≤ depth) × (depth ≤ 256) },
    pub ghost item_bytes_in_range: { (1 ≤ item_bytes) × (item_bytes ≤ MOST_ITEM_BYTES) },
}

/// Why the words say nothing.
#[derive(Drop)]
pub enum Use {
    /// They are no command, or ask for help.
    Words(Error),
    /// An allocation was refused.
    Memory,
}

impl From<Error> for Use {
    ghost from_gives = { λ e u. IsUseOf e u };

    fn from(error: Error) -> Use {
        if error.kind() == ErrorKind::OutOfMemory {
            Use::Memory
        } else {
            Use::Words(error)
        }
    }
}

impl From<AllocError> for Use {
    ghost from_gives = { λ _ u. u ≡ OutOfMemory };

    fn from(_error: AllocError) -> Use {
        Use::Memory
    }
}
