//! What each type and each group of a table is of, by the numbers of rows, instances and texts.

/// What a type of the table is of, by numbers.
#[derive(Clone, Copy, Debug, PartialEq, Eq, Hash)]
pub enum TypeOrigin {
    /// The type of a row.
    Row(u32),
    /// What the instance at this place means as a type.
    Instance(u32),
    /// What `&` chooses from in the alternatives of a group's row, or in none.
    Chosen(Option<u32>),
    /// The text string that the bareword with this text is as a key.
    Word(u32),
}

/// What a group of the table is of, by numbers.
#[derive(Clone, Copy, Debug, PartialEq, Eq, Hash)]
pub enum GroupOrigin {
    /// The alternatives of a group's row, or none.
    Alternatives(Option<u32>),
    /// The entries of a row.
    Sequence(u32),
    /// The entry of a row.
    Entry(u32),
    /// One round of the entry of a row.
    Round(u32),
}
