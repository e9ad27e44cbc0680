//! The words at the sites of a text, by the numbers of their texts: what is checked by a word alone is checked without the tree.
pub mod laws;
mod listing;
mod word;

pub(crate) use crate::words::listing::site_words;
pub use crate::words::word::{Role, Word};
