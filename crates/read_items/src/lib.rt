//! Reads one item of CBOR (RFC 8949 section 3): its form alone, from pieces of any size, or at once where its bytes are whole.
#![tactic(auto)]

pub mod argument;
pub mod form;
pub mod malformed;
pub mod partial;
pub mod whole;
