//! A line of the prelude: a name, and what it means.

/// What a line of the prelude says that a name means.
#[derive(Clone, Copy)]
pub enum Meaning {
    /// `#`, `#d` or `#d.n`.
    Hash(&'static str),
    /// Another name.
    Alias(&'static str),
    /// Either of two names.
    Either(&'static str, &'static str),
    /// A tag, by its opening, and the name of what is tagged.
    Tagged(&'static str, &'static str),
    /// A tag, by its opening, of an array of an int and an integer under these keys.
    TaggedPair(&'static str, &'static str, &'static str),
}

/// A line of the prelude: a name, and what it means.
pub type Line = (&'static str, Meaning);
