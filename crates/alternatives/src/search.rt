//! A depth-first search that finds the summary of each part after those of the parts that it has.

ghost use Rattle.std.specs.Prelude.{◌≡◌, ◌-◌, ◌<◌, [], IfOk, length, replicate, false, true, slice_get};
ghost use Rattle.alternatives.specs.Search.{IsEnded, IsKept, Keeps, entered, gap, left, next_of, state, unseen, value};

use crate::Part;
use crate::summary::{Summary, summary_of};
use std::alloc::{AllocError, Global};

/// The search for summaries, along a path of parts each of which has the next.
#[derive(Drop)]
pub struct Search {
    /// For each part whether it was seen.
    pub seen: Vec<bool>,
    /// For each part its summary, or None as long as it is not known.
    pub summaries: Vec<Option<Summary>>,
    /// The numbers of the parts on the way to the one whose summary comes next.
    pub path: Vec<usize>,
}

/// The search before its first part.
pub fn first_search(alloc: Global, parts: usize) -> Result<Search, AllocError>
    ensures seen { IfOk result (λ s. s.seen.items ≡ replicate parts false) }
    ensures summaries { IfOk result (λ s. s.summaries.items ≡ replicate parts None) }
    ensures path { IfOk result (λ s. s.path.items ≡ []) }
{
    let seen = vec![in alloc; false; parts]?;
    let summaries = vec![in alloc; None; parts]?;
    Ok(Search {
        seen,
        summaries,
        path: Vec::new(alloc),
    })
}

impl Search {
    /// Finds the summary of the part, if it was not yet seen, and of each that it has.
    pub fn visit(&mut self, parts: &[Part], number: usize) -> Result<(), AllocError>
        requires number { number < length parts.now }
        requires start { IsEnded parts.now (state self.old) }
        ensures end { IfOk result (λ _. IsEnded parts.now (state self.new)) }
        ensures keeps { IfOk result (λ _. Keeps (state self.old) (state self.new)) }
        ensures seen { IfOk result (λ _. slice_get self.new.seen.items number ≡ Some true) }
    {
        if !self.seen[number] {
            self.enter(number)?;
            self.run(parts)?;
        }
        Ok(())
    }

    // Goes on to the end of the path.
    fn run(&mut self, parts: &[Part]) -> Result<(), AllocError>
        requires { IsKept parts.now (state self.old) }
        ensures end { IfOk result (λ _. IsEnded parts.now (state self.new)) }
        ensures keeps { IfOk result (λ _. Keeps (state self.old) (state self.new)) }
    {
        while let Some(number) = self.path.last().copied() {
            self.step(parts, number)?;
        }
        Ok(())
    }

    // Goes on to a part that the last one has, or leaves that one with its summary.
    fn step(&mut self, parts: &[Part], number: usize) -> Result<(), AllocError>
        requires kept { IsKept parts.now (state self.old) }
        requires top { slice_get self.old.path.items (length self.old.path.items - 1) ≡ Some number }
        ensures kept { IfOk result (λ _. IsKept parts.now (state self.new)) }
        ensures keeps { IfOk result (λ _. Keeps (state self.old) (state self.new)) }
        ensures gap { IfOk result (λ _. gap (state self.new) < gap (state self.old)) }
    {
        let part = parts[number];
        match unseen_part(&self.seen, part) {
            Some(next) => self.enter(next),
            None => {
                self.leave(number, part);
                Ok(())
            }
        }
    }

    // Goes on to a part that was not yet seen.
    fn enter(&mut self, number: usize) -> Result<(), AllocError>
        requires { number < length self.old.seen.items }
        ensures { IfOk result (λ _. state self.new ≡ entered number (state self.old)) }
    {
        self.path.push(number)?;
        self.seen[number] = true;
        Ok(())
    }

    // Leaves the last part of the path, which has this number.
    fn leave(&mut self, number: usize, part: Part)
        requires { number < length self.old.summaries.items }
        ensures { state self.new ≡ left number (value self.old.summaries.items part) (state self.old) }
    {
        self.path.pop();
        self.summaries[number] = summary_of(&self.summaries, part);
    }
}

// A part that this one has and that was not yet seen.
fn unseen_part(seen: &[bool], part: Part) -> Option<usize>
    ensures { result ≡ next_of seen.now part }
{
    match part {
        Part::Same(other) | Part::Occurs(_, other) => if_unseen(seen, other),
        Part::Both(first, second) | Part::Either(first, second) => {
            if_unseen(seen, first).or(if_unseen(seen, second))
        }
        _ => None,
    }
}

// The number, if it is a part's that was not yet seen.
fn if_unseen(seen: &[bool], number: usize) -> Option<usize>
    ensures { result ≡ unseen seen.now number }
{
    if seen.get(number).copied().unwrap_or(true) {
        return None;
    }
    Some(number)
}
