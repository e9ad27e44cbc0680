//! One step of the way from a type to what stands in it.

use table_nodes::TypeId;

/// One step of the way from a type to what stands in it.
#[derive(Clone, Copy, Debug, PartialEq, Eq)]
pub enum Link {
    /// To a type.
    Type(TypeId),
    /// To an alternative of a group, with so many after it.
    Alternative { after: usize },
    /// To an entry of such an alternative, with so many after it there.
    Entry { after: usize },
    /// To the key of an entry of the map before, by its type.
    Key(TypeId),
}
