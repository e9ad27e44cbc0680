//! What a matcher answers.

use std::alloc::AllocError;

/// What a table says of an item, or that so many steps do not tell.
#[derive(Clone, Copy, Debug, PartialEq, Eq)]
pub enum Verdict {
    /// The item matches.
    Yes,
    /// It does not. That shows at this place, the greatest of all trials that failed, but for those of types that then
    /// said yes: places number the item and all below it in preorder, a key before its value, from 0.
    No { place: usize },
    /// The steps do not tell: more would be needed.
    Spent,
}

/// Why a machine asks nothing more.
#[derive(Clone, Copy)]
pub enum End {
    /// It has answered.
    Said(Verdict),
    /// There was no memory.
    NoMemory,
}

impl End {
    ghost use Rattle.std.specs.Prelude.{◌≡◌, Some, None, Ok, OnErr};
    ghost use Rattle.cddl_match.specs.Progress.{IsAnswer};
    ghost use Rattle.cddl_match.specs.declared.answers.End.TheVariants as E;

    // What a machine answers that has ended so.
    pub(crate) fn answer(self) -> Result<Option<Verdict>, AllocError>
        ensures answer { IsAnswer result self }
        ensures some { result ≡ Ok None → ⊥ }
        ensures said { (v : _) → result ≡ Ok (Some v) → self ≡ E.Said v }
        ensures memory { OnErr result (self ≡ E.NoMemory) }
    {
        match self {
            End::Said(verdict) => Ok(Some(verdict)),
            End::NoMemory => Err(AllocError),
        }
    }
}
