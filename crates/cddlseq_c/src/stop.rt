//! Why a call says nothing of a stream.

use check_text::Fault;

/// Why a call says nothing of a stream.
#[derive(Clone, Copy)]
pub(crate) enum Stop {
    /// The text is refused.
    Refused(Fault),
    /// Memory was refused.
    Memory,
    /// The name of the root is not UTF-8.
    BadRoot,
    /// A limit is 0, or over the greatest.
    BadLimits,
}
