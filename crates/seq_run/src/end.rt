//! How a stream ends.

use cbor_read::Fault;

/// Why a stream failed.
#[derive(Clone, Copy, Debug, PartialEq, Eq)]
pub enum Cause {
    /// The bytes after the accepted items have this fault.
    Fault(Fault),
    /// The item after the accepted ones does not match the specification. The place in it, in preorder from 0, is where
    /// that shows.
    Mismatch(usize),
    /// The steps do not tell whether the item after the accepted ones matches the specification.
    Spent,
}

/// How a stream ends: with its last item, or with an item that fails.
#[derive(Clone, Copy, Debug, PartialEq, Eq)]
pub enum End {
    /// All of its bytes are accepted items.
    Clean {
        items: u64,
        bytes: u64,
    },
    /// So many items are accepted, the next one begins at this offset, which is the number of their bytes, and it fails.
    Failed {
        items: u64,
        offset: u64,
        cause: Cause,
    },
}

/// What a session says of the bytes so far.
#[derive(Clone, Copy, Debug, PartialEq, Eq)]
pub enum State {
    /// The end is not known yet.
    Open,
    /// The stream has this end, whatever bytes follow.
    Ended(End),
}

/// Why a session takes nothing more.
#[derive(Clone, Copy, Debug, PartialEq, Eq)]
pub enum Stopped {
    /// It has this end.
    Ended(End),
    /// An allocation was refused.
    Memory,
}
