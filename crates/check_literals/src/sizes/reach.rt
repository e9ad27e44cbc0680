//! The rows to which a row leads, and their numbers.

ghost use Rattle.std.specs.Prelude.{◌≡◌, ◌+◌, IfOk, length, slice_get};
ghost use Rattle.std.specs.Option.{option_map};
ghost use Rattle.cddl_meaning.specs.Alike.{SameTest};
ghost use Rattle.cddl_meaning.specs.Forms.{sized};
ghost use Rattle.table_nodes.specs.SizeSets.{set_view};
ghost use Rattle.table_nodes.specs.Sizes.{size_view, sizes_view};
ghost use Rattle.check_literals.specs.Sizes.Reach.{AreBelow, IsReached, IsSearch, gap, is_new, looked, range_in, ranges_of, state, visited};
ghost use Rattle.check_literals.specs.Sizes.Sources.{parts_in, view_at};

use crate::sizes::sources::{Source, parts};
use std::alloc::{AllocError, Global};
use table_nodes::{NumberRange, NumberSet};

/// The rows that searches have reached.
#[derive(Drop)]
pub(crate) struct Search {
    /// For each row the mark of the last search that reached it.
    pub marks: Vec<usize>,
    /// The mark of the search under way.
    pub mark: usize,
    /// What this search has reached. Those before some place have had their parts looked at.
    pub reached: Vec<u32>,
}

// A search that has reached nothing, where there are so many rows.
pub(crate) fn no_search(alloc: Global, rows: usize) -> Result<Search, AllocError>
    ensures all { IfOk result (λ s. length s.marks.items ≡ rows) }
    ensures below { IfOk result (λ s. AreBelow 1 s.marks.items) }
{
    let marks = vec![in alloc; 0; rows]?;
    Ok(Search {
        marks,
        mark: 0,
        reached: Vec::new(alloc),
    })
}

impl Search {
    /// Reaches all rows to which this one leads. The mark is greater than those of former searches.
    pub fn reach(&mut self, sources: &[Source], start: u32, mark: usize) -> Result<(), AllocError>
        requires all { length self.old.marks.items ≡ length sources.now }
        requires below { AreBelow mark self.old.marks.items }
        ensures all { IfOk result (λ _. length self.new.marks.items ≡ length sources.now) }
        ensures below { IfOk result (λ _. AreBelow (mark + 1) self.new.marks.items) }
        ensures reached { IfOk result (λ _. IsReached sources.now start self.new.reached.items) }
    {
        self.mark = mark;
        self.reached.clear();
        self.look(start)?;
        let mut next = 0;
        while next < self.reached.len() {
            let row = self.reached[next];
            self.visit(parts_at(sources, row))?;
            next += 1;
        }
        Ok(())
    }

    // Looks at each of the rows.
    fn visit(&mut self, rows: &[u32]) -> Result<(), AllocError>
        ensures { IfOk result (λ _. state self.new ≡ visited rows.now (state self.old)) }
    {
        for row in rows {
            self.look(*row)?;
        }
        Ok(())
    }

    // Reaches the row, where that was not done.
    fn look(&mut self, row: u32) -> Result<(), AllocError>
        ensures { IfOk result (λ _. state self.new ≡ looked row (state self.old)) }
    {
        if is_new(&self.marks, self.mark, row) {
            self.marks[row as usize] = self.mark;
            self.reached.push(row)?;
        }
        Ok(())
    }
}

// Whether the row is there, and the search has not reached it.
fn is_new(marks: &[usize], mark: usize, row: u32) -> bool
    ensures { result ≡ is_new mark (slice_get marks.now row) }
{
    match marks.get(row as usize) {
        Some(last) => *last != mark,
        None => false,
    }
}

fn parts_at(sources: &[Source], row: u32) -> &[u32]
    ensures { result.now ≡ parts_in (view_at sources.now row) }
{
    match sources.get(row as usize) {
        Some(source) => parts(source),
        None => &[],
    }
}

// The numbers of all these rows, as a set.
pub(crate) fn set_of(
    alloc: Global,
    sources: &[Source],
    rows: &[u32],
) -> Result<NumberSet, AllocError>
    ensures { IfOk result (λ z. SameTest (sized (ranges_of sources.now rows.now)) (sized (set_view z))) }
{
    let ranges = ranges_of(alloc, sources, rows)?;
    NumberSet::new(alloc, ranges)
}

// The numbers of all these rows.
fn ranges_of(
    alloc: Global,
    sources: &[Source],
    rows: &[u32],
) -> Result<Vec<NumberRange>, AllocError>
    ensures { IfOk result (λ v. sizes_view v.items ≡ ranges_of sources.now rows.now) }
{
    let mut ranges = Vec::new(alloc);
    for row in rows {
        if let Some(range) = range_at(sources, *row) {
            ranges.push(range)?;
        }
    }
    Ok(ranges)
}

// The numbers of the row itself, if it has some.
fn range_at(sources: &[Source], row: u32) -> Option<NumberRange>
    ensures { option_map size_view result ≡ range_in (view_at sources.now row) }
{
    match sources.get(row as usize)? {
        Source::Numbers(range) => Some(*range),
        _ => None,
    }
}
