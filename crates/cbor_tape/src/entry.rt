//! The entries of a tape.

/// An entry of a tape, for one place of an item: the whole of it, or an item in it. It takes 8 bytes.
#[derive(Clone, Copy, Debug)]
pub struct Entry {
    /// The offset of its first byte.
    pub head: u32,
    /// The place after it and all that is below it.
    pub next: u32,
}
