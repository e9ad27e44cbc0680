//! What follows from implications: the least set of facts.
pub mod laws;
mod rules;
mod search;

ghost use Rattle.std.specs.Prelude.{◌≡◌, IfOk};
ghost use Rattle.graphs.specs.Implications.Implications.{AreFollowing};

use crate::implications::rules::rules_of;
use crate::implications::search::search_of;
use std::alloc::{AllocError, Global};

/// That a fact follows where others do. Facts are numbers.
#[derive(Clone, Copy)]
pub struct Implication {
    /// The fact that follows.
    pub then: usize,
    /// A fact that has to follow for it, if there is one.
    pub first: Option<usize>,
    /// Another one, if there is one.
    pub second: Option<usize>,
}

/// For each fact, which are the numbers below `facts`, whether it follows from the implications. A premise that is no fact
/// never follows, and a conclusion that is no fact counts for nothing.
///
/// The time is linear in facts and implications, whatever they are. An error comes only where memory is refused.
pub fn following(
    alloc: Global,
    facts: usize,
    implications: &[Implication],
) -> Result<Vec<bool>, AllocError>
    ensures { IfOk result (λ v. AreFollowing facts implications.now v.items) }
{
    let rules = rules_of(alloc, facts, implications)?;
    let mut search = search_of(alloc, facts, implications)?;
    search.run(&rules)?;
    Ok(search.flags)
}
