//! What the operators `.plus`, `.cat` and `.det` of CDDL make of two literals (RFC 9165, section 2).
mod dedent;
mod joins;
mod sums;

pub use joins::joined;
pub use sums::plus;

/// Why two operands make no literal. Where several reasons hold, the first one in this order is reported.
#[derive(Clone, Copy, Debug, PartialEq, Eq)]
pub enum Fault {
    /// The left operand is not of the kind that the operator takes.
    LeftKind,
    /// The right operand is not.
    RightKind,
    /// A sum is below -2^64 or above 2^64 - 1, or a join has more than 65,536 bytes.
    OutOfRange,
    /// A join is to be a text, and its bytes are not UTF-8.
    NotUtf8,
}

/// How two strings are joined.
#[derive(Clone, Copy, Debug, PartialEq, Eq)]
pub enum Joining {
    /// As they are, by `.cat`.
    AsTheyAre,
    /// Each of them dedented by itself, by `.det`.
    Dedented,
}
