//! Checks an item of CBOR (RFC 8949 section 3) that is whole in its bytes, in one pass over them, and writes its tape: an entry
//! for each place of the item, in preorder, with where the place is in the bytes and which place comes after it.
#![tactic(auto)]

mod entry;
mod item;
mod keys;
mod leaf;
mod order;
mod parts;
mod places;
mod strings;

pub use crate::entry::Entry;
pub use crate::item::whole_tape;
pub use crate::places::{Seen, Taped};

#[cfg(test)]
mod tests;
