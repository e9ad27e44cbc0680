//! Items of CBOR (RFC 8949) in memory: which of them are sound, their preferred bytes and their diagnostic notation.
#![tactic(auto)]

mod det;
mod deterministic;
mod duplicates;
mod length;
pub mod place;
mod sound;
mod write;

pub use crate::deterministic::{DetFault, write_det};
pub use crate::place::{item_at, path_text};
pub use crate::sound::{Sound, Unsound};
pub use crate::write::{WriteFault, write_bytes, write_item};
pub use cbor_data::Width;
pub use item_nodes::{Counted, Item, diag, push_notation};
