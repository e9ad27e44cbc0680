//! Whether a table says yes to an item on its tape (see `cbor_tape`), where that can be told without the item in memory.
#![tactic(auto)]

mod asking;
mod before;
mod keys;
mod leaf;
mod pairs;
mod told;

pub use crate::asking::accepts;
