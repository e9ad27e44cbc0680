//! What a reader tells where it stops.
use cbor_data::FaultKind;

// The kind is first: it lies where an item has its kind in an answer that holds the one or the other. Behind the offset it
// would lie on a word of the item, which is then copied in two parts.
/// A fault of the stream, and where it is.
#[derive(Clone, Copy, Debug, PartialEq, Eq)]
pub struct Fault {
    /// What is wrong there.
    pub kind: FaultKind,
    /// The offset of a byte in the stream, from 0; for [`FaultKind::DuplicateKey`] a place in the item, in preorder.
    pub at: u64,
}

/// Why a reader has stopped.
#[derive(Clone, Copy, Debug, PartialEq, Eq)]
pub enum Stop {
    /// The stream has a fault.
    Fault(Fault),
    /// An allocation was refused.
    Memory,
}
