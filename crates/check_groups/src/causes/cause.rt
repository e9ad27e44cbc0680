//! From which rows it follows that a property holds at a row.

/// Of which rows it follows for a row.
#[derive(Clone, Copy)]
pub(crate) enum RowCause {
    /// It does not.
    Never,
    /// It does, whatever holds of other rows.
    Always,
    /// It does where it holds of this row.
    One(usize),
    /// It does where it holds of one of these.
    Either(usize, usize),
    /// It does where it holds of both of these.
    Both(usize, usize),
}

/// What is asked of a group.
#[derive(Clone, Copy)]
pub(crate) enum GroupProperty {
    /// Whether `&` can choose from it.
    CanChoose,
    /// Whether it may be empty.
    MayBeEmpty,
}
