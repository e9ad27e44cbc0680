//! How many pairs of a map belong to each entry of an alternative.

ghost use Rattle.std.specs.Prelude.{◌≡◌, ◌≤◌, ◌+◌, suc, [], replicate, IfOk, IfSome, IfNone};
ghost use Rattle.cddl_meaning.specs.Moves.{counted};
ghost use Rattle.match_moves.specs.Views.{counts_view};

use std::alloc::{AllocError, Global};

/// Most alternatives have no more entries than these, and their counts take no memory.
const FEW: usize = 16;

/// A count for each entry.
#[derive(Drop)]
pub struct Counts {
    /// How many entries there are.
    pub entries: usize,
    /// The counts of few entries.
    pub few: [u64; FEW],
    /// The counts of more entries.
    pub many: Vec<u64>,
}

// The number of the entry with so many entries after it.
fn number_of(entries: usize, after: usize) -> Option<usize>
    ensures some { IfSome result (λ number. number + suc after ≡ entries) }
    ensures none { IfNone result (entries ≤ after) }
{
    entries.checked_sub(after)?.checked_sub(1)
}

// Counts a pair for the entry with so many entries after it.
#[inline(always)]
fn count_in(counts: &mut [u64], after: usize)
    ensures { counts.new ≡ counted after counts.old }
{
    if let Some(number) = number_of(counts.len(), after) {
        counts[number] = counts[number].saturating_add(1);
    }
}

// No pair for each of so many entries.
#[inline(never)]
fn begin_many(counts: &mut Vec<u64>, entries: usize) -> Result<(), AllocError>
    ensures { IfOk result (λ _. counts.new.items ≡ replicate entries 0) }
{
    counts.clear();
    counts.resize(entries, 0)?;
    Ok(())
}

impl Counts {
    // There is no entry. It takes no memory.
    pub(crate) fn new(alloc: Global) -> Counts
        ensures { counts_view result ≡ [] }
    {
        Counts {
            entries: 0,
            few: [0; FEW],
            many: Vec::new(alloc),
        }
    }

    // No pair belongs to each of so many entries.
    #[inline]
    pub(crate) fn begin(&mut self, entries: usize) -> Result<(), AllocError>
        ensures { IfOk result (λ _. counts_view self.new ≡ replicate entries 0) }
    {
        self.entries = entries;
        if entries <= FEW {
            self.few = [0; FEW];
            return Ok(());
        }
        begin_many(&mut self.many, entries)
    }

    // Counts a pair for the entry with so many entries after it.
    #[inline]
    pub(crate) fn count(&mut self, after: usize)
        ensures { counts_view self.new ≡ counted after (counts_view self.old) }
    {
        if self.entries <= FEW {
            count_in(&mut self.few[..self.entries], after);
        } else {
            count_in(&mut self.many, after);
        }
    }

    // The counts, in the order of the entries.
    #[inline]
    pub(crate) fn as_slice(&self) -> &[u64]
        ensures { result.now ≡ counts_view self.now }
    {
        if self.entries <= FEW {
            &self.few[..self.entries]
        } else {
            &self.many
        }
    }
}
