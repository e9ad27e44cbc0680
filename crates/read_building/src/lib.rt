//! Builds one item of CBOR (RFC 8949 section 3) from pieces of any size, with one copy of its strings and none of its
//! bytes. After a text that is not UTF-8 its form alone is followed, and where that text is, is reported at the item's end.
#![tactic(auto)]

mod build;
mod builder;
mod frame;
mod kind;
mod laws;
mod members;
mod noted;
mod stage;
mod strings;
mod turn;
mod work;

pub use laws::{built, counted, first_bad_text};
pub use work::{Step, Work};
