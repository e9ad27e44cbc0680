//! What each instance means as a type and as a group, and what is looked up of instances by rows.

/// A closed reference, and what it means as a type and as a group.
#[derive(Drop)]
pub struct Meaning {
    /// The row of the reference.
    pub call: u32,
    /// The rows of its choices, in order.
    pub types: Vec<u32>,
    /// The row of a group with its alternatives, if it has any.
    pub group: Option<u32>,
}

/// The instances of a specification, and what is looked up of them by rows.
#[derive(Drop)]
pub struct Closed {
    /// What each instance means.
    pub meanings: Vec<Meaning>,
    /// For each row of the table the place of the instance whose reference it is, if it is one.
    pub places: Vec<Option<u32>>,
    /// For each row that is a type's the row of the type out of its parentheses.
    pub stripped: Vec<u32>,
}
