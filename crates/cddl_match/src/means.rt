//! What judgements may use.

use match_held::Shelf;

/// The steps that are left, and where items are kept.
#[derive(Drop)]
pub(crate) struct Means<'i> {
    pub(crate) left: u64,
    pub(crate) shelf: Shelf<'i>,
}
