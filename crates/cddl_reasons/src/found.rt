//! The reasons that were found so far.

ghost use Rattle.std.specs.Prelude.{◌≡◌, ◌≤◌, ◌++◌, ◌∷◌, [], IfOk, length, take};

use crate::causes::Reason;
use std::alloc::{AllocError, Global};

/// How much was found at a time.
#[derive(Clone, Copy)]
pub(crate) struct Mark {
    pub(crate) reasons: usize,
    pub(crate) more: u64,
}

/// A question of this number, whose no shows elsewhere, has failed by itself at this place.
#[derive(Clone, Copy)]
pub(crate) struct Deeper {
    pub(crate) number: u64,
    pub(crate) far: usize,
}

/// The first reasons, each with what it is where its own reasons are deeper, and how many more there are.
#[derive(Drop)]
pub(crate) struct Found {
    pub(crate) list: Vec<Reason>,
    pub(crate) deeper: Vec<Option<Deeper>>,
    pub(crate) more: u64,
}

impl Found {
    // Nothing was found.
    pub(crate) fn new(alloc: Global) -> Found
        ensures { result.list.items ≡ [] }
    {
        Found {
            list: Vec::new(alloc),
            deeper: Vec::new(alloc),
            more: 0,
        }
    }

    // How much was found so far.
    pub(crate) fn mark(&self) -> Mark
        ensures { result ≡ record { reasons = length self.now.list.items; more = self.now.more } }
    {
        Mark {
            reasons: self.list.len(),
            more: self.more,
        }
    }

    // Whether nothing was found since then.
    pub(crate) fn is_at(&self, mark: Mark) -> bool {
        self.list.len() == mark.reasons && self.more == mark.more
    }

    // Lets go of what was found since then.
    pub(crate) fn forget(&mut self, mark: Mark)
        ensures { self.new.list.items ≡ take mark.reasons self.old.list.items }
    {
        self.list.truncate(mark.reasons);
        self.deeper.truncate(mark.reasons);
        self.more = mark.more;
    }

    // One reason more.
    //
    // # Errors
    //
    // `AllocError` where there is no memory for it.
    pub(crate) fn add(&mut self, reason: Reason, deeper: Option<Deeper>) -> Result<(), AllocError>
        ensures { IfOk result (λ _. self.new.list.items ≡ self.old.list.items ++ reason ∷ []) }
    {
        self.list.push(reason)?;
        self.deeper.push(deeper)?;
        Ok(())
    }
}
