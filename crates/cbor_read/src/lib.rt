//! Reads CBOR items (RFC 8949 section 3) one after the other from pieces of any size.
#![tactic(auto)]

mod embedding;
mod fault;
mod follow;
mod front;
mod laws;
mod limits;
mod reader;
mod value;

pub use cbor_data::FaultKind;
pub use embedding::{embedded, embedded_item};
pub use fault::{Fault, Stop};
pub use front::{Front, read_front};
pub use laws::{one_fault, some_front};
pub use limits::{Limits, MOST_DEPTH, MOST_ITEM_BYTES};
pub use reader::{Fed, ItemReader};
