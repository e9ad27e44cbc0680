//! The diagnostic notation of an item of CBOR (RFC 8949 section 8), from its bytes and its tape: no item is built.
#![tactic(auto)]

mod chunks;
mod head;
mod hex_digits;
mod item;
mod leaf;
pub mod put;
mod text;

pub use crate::item::put_notation;

#[cfg(test)]
mod tests;
