//! What calls come to.

/// What is said of an item, or why nothing is. It is small enough to be returned in registers.
#[derive(Clone, Copy)]
pub(crate) enum Said {
    /// Yes.
    Yes {
        /// The place after the item, so that nobody counts the item's places a second time.
        next: usize,
    },
    /// No.
    No {
        /// The greatest place of the trials that failed.
        far: usize,
    },
    /// That takes more steps.
    Spent,
    /// There is no memory for it.
    NoMemory,
}

/// Why a group's question has no reply.
#[derive(Clone, Copy)]
pub(crate) enum Stop {
    /// The reply takes more steps.
    Spent,
    /// There is no memory for it.
    NoMemory,
}
