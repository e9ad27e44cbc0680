//! The position of an offset of a text.

/// The position of an offset of a text.
#[repr(C)]
#[derive(Clone, Copy)]
pub struct CddlseqPosition {
    /// The line, from 1.
    pub line: usize,
    /// The column, from 1, in characters.
    pub column: usize,
}
