//! What the literals of CDDL stand for: numbers, text strings and byte strings (RFC 8610, appendix B;
//! RFC 9682, section 2.1).
//!
//! An offset is a byte's index in a source. A byte past the end reads as 0, which no literal holds.
#![tactic(auto)]

mod bytes;
mod digits;
mod escapes;
mod laws;
mod numbers;
pub mod operators;
mod prefixed;
mod strings;
mod values;

pub use bytes::{
    byte_at, is_b, is_binary_digit, is_blank, is_cr_lf, is_digit, is_h, is_hex_digit,
    is_in_comment, is_x,
};
pub use escapes::{Escape, escape_at};
pub use laws::{closes_at_stop, cut_out, ends_in_ascii, one_meaning};
pub use numbers::{number_of, number_value, uint_of};
pub use prefixed::{bytes_between, coded_end};
pub use strings::{characters_end, text_value};
pub use values::bytes_value;

/// What is around a string.
#[derive(Clone, Copy, Debug, PartialEq, Eq)]
pub enum Quote {
    /// `"`, around a text string.
    Double,
    /// `'`, around a plain byte string.
    Single,
}

/// How a byte string with a prefix is written.
#[derive(Clone, Copy, Debug, PartialEq, Eq)]
pub enum Coding {
    /// `h'..'`
    Hex,
    /// `b64'..'`
    Base64,
}

/// What a literal stands for.
#[derive(Debug, PartialEq, Eq, Drop)]
pub enum Literal {
    /// A number from 0 on.
    Uint(u64),
    /// -1 minus the number.
    Nint(u64),
    /// A text string.
    Text(String),
    /// A byte string.
    Bytes(Vec<u8>),
}
