//! The open questions, and what is next.

use crate::found::Mark;
use match_moves::{Move, Pending, Question};

/// Which reasons are looked for in what a question asks, and in itself.
#[derive(Clone, Copy)]
pub(crate) enum Wanted {
    /// None.
    Nothing,
    /// Those that show at this place.
    At(usize),
    /// The question itself, wherever its no shows.
    Itself,
}

/// A question that is open, and how it waits for the reply to what it has asked.
#[derive(Drop)]
pub(crate) struct Open<'t, 'i> {
    pub(crate) question: Question<'t, 'i>,
    pub(crate) pending: Pending<'t, 'i>,
    pub(crate) wanted: Wanted,
    /// How much was found before it was asked.
    pub(crate) mark: Mark,
    /// So many questions were asked before it.
    pub(crate) number: u64,
    /// Whether it has tried a pair whose key stands where its no is looked for.
    pub(crate) tried: bool,
    /// How many pairs belong to each entry of an alternative, once the last pair belongs to one.
    pub(crate) counts: Vec<u64>,
}

/// The open questions, the first one first and the last one by itself, what is next, and how many were asked.
#[derive(Drop)]
pub(crate) struct Run<'t, 'i> {
    pub(crate) below: Vec<Open<'t, 'i>>,
    pub(crate) last: Open<'t, 'i>,
    pub(crate) next: Move<'t, 'i>,
    pub(crate) asked: u64,
}
