//! What the pairs of a map came to in an alternative, and what follows for one that begins with the same entries.

ghost use Rattle.std.specs.Prelude.{◌≡◌, ◌<◌, ◌+◌, None, Some, IfSome, MatchOption};
ghost use Rattle.item_nodes.specs.View.{pairs_view};
ghost use Rattle.cddl_meaning.specs.Judges as J;
ghost use Rattle.cddl_meaning.specs.Moves as M;
ghost use Rattle.cddl_meaning.specs.Moves.{answer_reply, tally_says};
ghost use Rattle.cddl_match.specs.Tellings.{BeginAlike, IsTallied, told_with};
ghost use Rattle.match_moves.specs.Views.{tally_view};
ghost use Rattle.cddl_match.specs.Within.{Replied, Says, said_view};
ghost use Rattle.table_nodes.specs.Language.{language_of};
ghost use Rattle.table_nodes.specs.Nodes.{entries_view};

use crate::calls::Said;
use crate::means::Means;
use cbor_item::Item;
use match_moves::{Fate, Tally, begin_alike, no_tally, shown_by_first, shown_by_tally};
use std::alloc::Global;
use table_nodes::{MapEntry, Table};

/// What the pairs of a map came to with the entries of the alternative that was asked last.
#[derive(Drop)]
pub(crate) struct Tallied<'t> {
    pub(crate) tally: Tally,
    pub(crate) entries: &'t [MapEntry],
    /// So many of these entries are known to be the first ones of the alternative in work.
    pub(crate) alike: usize,
    /// So many of the first entries tell what becomes of each pair. None where a pair belongs to no entry, or where nothing
    /// was asked yet.
    pub(crate) told: Option<usize>,
    /// Whether as many pairs belong to each of these entries as it asks for.
    pub(crate) enough: bool,
    /// So many steps were taken for the pairs, and for what was asked about them.
    pub(crate) asked: u64,
    /// The place after the pairs.
    pub(crate) next: usize,
}

// Nothing was asked yet. It takes no memory.
pub(crate) fn nothing_tallied<'t>(alloc: Global) -> Tallied<'t>
    ensures told { result.told ≡ None }
    ensures alike { result.alike ≡ 0 }
{
    Tallied {
        tally: no_tally(alloc),
        entries: &[],
        alike: 0,
        told: None,
        enough: false,
        asked: 0,
        next: 0,
    }
}

// How many of the first of so many entries tell what becomes of each pair, with a further pair that has this fate.
pub(crate) fn told_with(told: Option<usize>, fate: Fate, entries: usize) -> Option<usize>
    ensures { result ≡ told_with told fate entries }
{
    match fate {
        Fate::Matches { after } | Fate::Fails { after, .. } => {
            Some(told?.max(entries.saturating_sub(after)))
        }
        Fate::Stray { .. } => None,
    }
}

// How many of the steps an alternative leaves whose first entries tell what becomes of each pair, if there are so many: it
// takes one itself, beside those for the pairs. How many entries it has does not count.
fn left_after(steps: u64, asked: u64) -> Option<u64>
    ensures { MatchOption result (steps < 1 + asked) (λ left. 1 + asked + left ≡ steps) }
{
    steps.checked_sub(1)?.checked_sub(asked)
}

// What is said by where a no shows, if it does.
#[inline]
fn said_where(shown: Option<usize>, next: usize) -> Said
    ensures { (a : J.Answer) → MatchOption shown (a ≡ J.Yes) (λ far. a ≡ J.No far) → said_view result ≡ Replied (answer_reply next a) }
{
    match shown {
        Some(far) => Said::No { far },
        None => Said::Yes { next },
    }
}

impl<'t> Tallied<'t> {
    // How many of these entries tell what becomes of each pair, if they are the same as those that were asked.
    pub(crate) fn told_in(&self, entries: &[MapEntry]) -> Option<usize>
        requires { BeginAlike self.now.alike self.now.entries.now entries.now }
        ensures { IfSome result (λ told. (self.now.told ≡ Some told) × BeginAlike told self.now.entries.now entries.now) }
    {
        let told = self.told?;
        if told <= self.alike || begin_alike(self.entries, entries, told) {
            return Some(told);
        }
        None
    }

    // What the alternative says of the map at `base`.
    pub(crate) fn says(&self, table: &Table, base: usize, pairs: &[(Item, Item)]) -> Said
        requires known { IsTallied (language_of table.now) base (pairs_view pairs.now) self.now }
        ensures { said_view result ≡ Replied (answer_reply self.now.next (tally_says (entries_view self.now.entries.now) base (tally_view self.now.tally))) }
    {
        match self.told {
            Some(told) => {
                let shown = shown_by_first(told, self.enough, self.entries, base, &self.tally);
                said_where(shown, self.next)
            }
            None => said_where(shown_by_tally(self.entries, base, &self.tally), self.next),
        }
    }

    // What an alternative of these entries says of the map at `base`, if so many of the first tell what becomes of each pair.
    pub(crate) fn says_again(
        &self,
        table: &Table,
        means: &mut Means<'_>,
        told: usize,
        entries: &[MapEntry],
        base: usize,
        pairs: &[(Item, Item)],
    ) -> Said
        requires told { self.now.told ≡ Some told }
        requires alike { BeginAlike told self.now.entries.now entries.now }
        requires known { IsTallied (language_of table.now) base (pairs_view pairs.now) self.now }
        ensures { Says (language_of table.now) (M.OfAlternative (entries_view entries.now) base (pairs_view pairs.now)) means.old.left means.new.left (said_view result) }
    {
        let Some(left) = left_after(means.left, self.asked) else {
            return Said::Spent;
        };
        means.left = left;
        let shown = shown_by_first(told, self.enough, entries, base, &self.tally);
        said_where(shown, self.next)
    }
}
