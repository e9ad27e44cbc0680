//! The alternatives of a part, made from those of the parts that it has, by a list of tasks and without recursion.

ghost use Rattle.std.specs.Prelude.{◌≡◌, ◌++◌, ◌∷◌, ◌<◌, ◌+◌, [], ℕ, IfOk, IsTrue, List, Some, length, map, reverse, slice_get, true, vec_items};
ghost use Rattle.alternatives.specs.Building.{AreReady, IsDone, Yields, build, is_large, made, result_is, split};
ghost use Rattle.alternatives.specs.Splices.{Alternatives, occurring, ways};
ghost use Rattle.alternatives.specs.Search.{at};
ghost use Rattle.alternatives.specs.Summaries.{AreSummaries};

use crate::pieces::{empty_ones, entry_alone, occurring_ones, ways_beside};
use crate::summary::{MOST_ALTERNATIVES, MOST_MEMBERS, Summary, summary_at};
use crate::{Bounds, Member, Part};
use rooms::Room;
use std::alloc::{AllocError, Global};

/// What is to be done for a list of alternatives.
#[derive(Clone, Copy)]
pub enum Task {
    /// Make the list of the part of this number, through so many parts at most.
    Make(usize, usize),
    /// Take the last two lists for all ways to take an alternative of each.
    Beside,
    /// Take the last two lists for one, one after the other.
    After,
    /// Let the last list occur so.
    Occur(Bounds),
}

/// The tasks that wait, and the lists that were made, the last ones last.
#[derive(Drop)]
pub struct Builder {
    pub tasks: Vec<Task>,
    pub lists: Vec<Vec<Vec<Member>>>,
}

/// The builder of the list of this part.
pub fn builder_of(alloc: Global, number: usize, depth: usize) -> Result<Builder, AllocError>
    ensures tasks { IfOk result (λ b. (build b).tasks ≡ Task.Make number depth ∷ []) }
    ensures lists { IfOk result (λ b. (build b).lists ≡ []) }
{
    let mut tasks = Vec::new(alloc);
    tasks.push(Task::Make(number, depth))?;
    Ok(Builder {
        tasks,
        lists: Vec::new(alloc),
    })
}

impl Builder {
    /// Does all tasks, and says whether there is a list. Each takes one of the room.
    pub fn run(
        &mut self,
        alloc: Global,
        parts: &[Part],
        summaries: &[Option<Summary>],
        room: &mut Room,
    ) -> Result<bool, AllocError>
        ensures list { AreSummaries parts.now summaries.now → (all : Alternatives) → Yields parts.now (build self.old).tasks (build self.old).lists all → IfOk result (λ goes. goes ≡ true → (build self.new).lists ≡ all ∷ []) }
        ensures goes { AreSummaries parts.now summaries.now → (all : Alternatives) → Yields parts.now (build self.old).tasks (build self.old).lists all → AreReady parts.now (build self.old).tasks → IfOk result (λ goes. goes ≡ true) }
    {
        while let Some(task) = self.tasks.pop() {
            room.take(1)?;
            if !self.step(alloc, parts, summaries, task)? {
                return Ok(false);
            }
        }
        Ok(true)
    }

    // Does the task, and says whether there is a list to be made.
    fn step(
        &mut self,
        alloc: Global,
        parts: &[Part],
        summaries: &[Option<Summary>],
        task: Task,
    ) -> Result<bool, AllocError>
        ensures { IfOk result (λ goes. IsDone parts.now summaries.now task (build self.old) goes (build self.new)) }
    {
        match task {
            Task::Make(number, depth) => self.make(alloc, parts, summaries, number, depth),
            Task::Beside => self.put_beside(alloc),
            Task::After => self.put_after(),
            Task::Occur(bounds) => self.let_occur(alloc, bounds),
        }
    }

    // Takes the last two lists for all ways to take an alternative of each.
    fn put_beside(&mut self, alloc: Global) -> Result<bool, AllocError>
        ensures tasks { IfOk result (λ _. (build self.new).tasks ≡ (build self.old).tasks) }
        ensures lists { IfOk result (λ goes. (vs : List Alternatives) (mss nss : Alternatives) → (build self.old).lists ≡ nss ∷ mss ∷ vs → (goes ≡ true) × ((build self.new).lists ≡ ways mss nss ∷ vs)) }
    {
        let Some(second) = self.lists.pop() else {
            return Ok(false);
        };
        let Some(first) = self.lists.pop() else {
            return Ok(false);
        };
        self.lists.push(ways_beside(alloc, first, &second)?)?;
        Ok(true)
    }

    // Takes the last two lists for one, one after the other.
    fn put_after(&mut self) -> Result<bool, AllocError>
        ensures tasks { IfOk result (λ _. (build self.new).tasks ≡ (build self.old).tasks) }
        ensures lists { IfOk result (λ goes. (vs : List Alternatives) (mss nss : Alternatives) → (build self.old).lists ≡ nss ∷ mss ∷ vs → (goes ≡ true) × ((build self.new).lists ≡ (mss ++ nss) ∷ vs)) }
    {
        let Some(mut second) = self.lists.pop() else {
            return Ok(false);
        };
        let Some(mut first) = self.lists.pop() else {
            return Ok(false);
        };
        first.append(&mut second)?;
        self.lists.push(first)?;
        Ok(true)
    }

    // Lets the last list occur so.
    fn let_occur(&mut self, alloc: Global, bounds: Bounds) -> Result<bool, AllocError>
        ensures tasks { IfOk result (λ _. (build self.new).tasks ≡ (build self.old).tasks) }
        ensures lists { IfOk result (λ goes. (vs : List Alternatives) (mss nss : Alternatives) → (build self.old).lists ≡ mss ∷ vs → occurring bounds.least bounds.most mss ≡ Some nss → (goes ≡ true) × ((build self.new).lists ≡ nss ∷ vs)) }
    {
        let Some(group) = self.lists.pop() else {
            return Ok(false);
        };
        self.lists.push(occurring_ones(alloc, bounds, group)?)?;
        Ok(true)
    }

    // Makes the list of the part, or has those of its parts made first. It is not made where it would be too large.
    fn make(
        &mut self,
        alloc: Global,
        parts: &[Part],
        summaries: &[Option<Summary>],
        number: usize,
        depth: usize,
    ) -> Result<bool, AllocError>
        ensures { IfOk result (λ goes. made (at summaries.now number) (slice_get parts.now number) number depth (build self.old) ≡ result_is goes (build self.new)) }
    {
        let Some(summary) = summary_at(summaries, number) else {
            return Ok(false);
        };
        if is_over(summary) {
            return Ok(false);
        }
        if summary.members == 0 {
            self.lists.push(empty_ones(alloc, summary.alternatives)?)?;
            return Ok(true);
        }
        if depth == 0 {
            return Ok(false);
        }
        self.split(alloc, parts.get(number).copied(), number, depth - 1)
    }

    // Makes the list of an entry, or has those of the parts made that the part has.
    fn split(
        &mut self,
        alloc: Global,
        part: Option<Part>,
        number: usize,
        depth: usize,
    ) -> Result<bool, AllocError>
        ensures { IfOk result (λ goes. split part number depth (build self.old) ≡ result_is goes (build self.new)) }
    {
        match part {
            Some(Part::Entry(bounds)) => self.lists.push(entry_alone(alloc, number, bounds)?)?,
            Some(Part::Same(other)) => self.tasks.push(Task::Make(other, depth))?,
            Some(Part::Both(first, second)) => self.have(Task::Beside, first, second, depth)?,
            Some(Part::Either(first, second)) => self.have(Task::After, first, second, depth)?,
            Some(Part::Occurs(bounds, group)) => {
                self.tasks.push(Task::Occur(bounds))?;
                self.tasks.push(Task::Make(group, depth))?;
            }
            _ => return Ok(false),
        }
        Ok(true)
    }

    // Has two lists made, and then the task done.
    fn have(
        &mut self,
        then: Task,
        first: usize,
        second: usize,
        depth: usize,
    ) -> Result<(), AllocError>
        ensures tasks { IfOk result (λ _. (build self.new).tasks ≡ Task.Make first depth ∷ Task.Make second depth ∷ then ∷ (build self.old).tasks) }
        ensures lists { IfOk result (λ _. (build self.new).lists ≡ (build self.old).lists) }
    {
        self.tasks.push(then)?;
        self.tasks.push(Task::Make(second, depth))?;
        self.tasks.push(Task::Make(first, depth))?;
        Ok(())
    }
}

// Whether there are too many alternatives or members.
fn is_over(summary: Summary) -> bool
    ensures { result ≡ is_large summary }
{
    summary.alternatives > MOST_ALTERNATIVES || summary.members > MOST_MEMBERS
}
