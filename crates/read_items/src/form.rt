//! Reads the form of one item of CBOR (RFC 8949 section 3) from pieces of any size, byte by byte, and decides nothing of
//! its value.
//!
//! What is open is kept on a stack of frames. A length that is only declared takes no memory, and the bytes of a string
//! are skipped at once, so that the time is linear in the input however it is cut.
mod frame;
mod reader;
mod stage;
mod turn;

pub use frame::Frame;
pub use reader::{FormReader, Progress};
