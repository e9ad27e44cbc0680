//! What tests and types are asked of.

use item_nodes::Item;

/// What a type is asked of.
#[derive(Clone, Copy)]
pub enum Subject<'i> {
    Item(&'i Item),
    /// The number of a tag or of a simple value, as an unsigned item. It is no item of the stream, and is made when a test
    /// asks for it.
    Number(u64),
    /// A byte string of these bytes, which are in another byte string that holds it alone. So they are not copied, however
    /// many strings are in each other.
    Bytes(&'i [u8]),
}
