//! Reads an item of CBOR (RFC 8949 section 3) that is whole in its bytes, in one pass over them.
mod argument;
mod chunks;
mod integer;
mod item;
mod leaf;
mod list;

pub use crate::whole::argument::argument_at;
pub use crate::whole::chunks::chunk_at;
pub use crate::whole::integer::{INTEGERS_BELOW, integer_of};
pub use crate::whole::item::whole_item;
pub use crate::whole::leaf::{are_there, simple_or_float};
pub use crate::whole::list::{end_len, is_break, is_end, push_part, trimmed};
