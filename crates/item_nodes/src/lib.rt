//! Items of CBOR (RFC 8949) in memory, and what is asked of one as it is, sound or not: the heads of its preferred bytes, its
//! notation, its depth, the ranges of its numbers, and whether keys rise or are apart.
#![tactic(auto)]

pub mod apart;
pub mod bits;
mod counted;
pub mod depth;
pub mod head;
mod item;
mod notation;
pub mod ranges;
pub mod rising;
pub mod simples;

pub use crate::counted::Counted;
pub use crate::item::{Item, is_same};
pub use crate::notation::{diag, push_notation};
pub use cbor_data::Width;
