//! A search for the references in bodies, which visits each row of the table once.

ghost use Rattle.std.specs.Prelude.{◌≡◌, ◌++◌, [], ◌∷◌, ℕ, List, OnOk, slice_get};
ghost use Rattle.cddl_language.specs.Terms as L;
ghost use Rattle.cddl_language.specs.Terms.{Text};
ghost use Rattle.check_instances.specs.Calls.{is_call};
ghost use Rattle.check_instances.specs.Marks.{with_mark};
ghost use Rattle.check_instances.specs.Search.{IsSearch};
ghost use Rattle.check_instances.specs.Steps as by;

use crate::marks::{mark, widen};
use crate::patterns::row_of;
use check_terms::{Body, Form, NoRoom, Terms, push};
use std::alloc::Global;

/// A search over the rows of a table.
#[derive(Drop)]
pub(crate) struct Search {
    /// Whether each row was visited.
    pub marks: Vec<bool>,
    /// Rows to be visited.
    pub waiting: Vec<u32>,
    /// The references that were come upon.
    pub refs: Vec<u32>,
}

impl Search {
    pub(crate) fn new(alloc: Global) -> Self
        ensures marks { result.marks.items ≡ [] }
        ensures waiting { result.waiting.items ≡ [] }
        ensures refs { result.refs.items ≡ [] }
    {
        Search {
            marks: Vec::new(alloc),
            waiting: Vec::new(alloc),
            refs: Vec::new(alloc),
        }
    }

    // The reference that was come upon after so many others.
    pub(crate) fn reference(&self, index: usize) -> Option<u32>
        ensures { result ≡ slice_get self.now.refs.items index }
    {
        self.refs.get(index).copied()
    }

    // The rows of the bodies are to be visited.
    pub(crate) fn await_bodies(&mut self, bodies: &[Body]) -> Result<(), NoRoom>
        ensures marks { OnOk result (self.new.marks.items ≡ self.old.marks.items) }
        ensures waiting { OnOk result (self.new.waiting.items ≡ self.old.waiting.items ++ by.rows_of bodies.now) }
        ensures refs { OnOk result (self.new.refs.items ≡ self.old.refs.items) }
    {
        for body in bodies {
            push(&mut self.waiting, row_of(*body))?;
        }
        Ok(())
    }

    // Visits the rows that wait, and their parts, each once.
    pub(crate) fn walk(&mut self, terms: &Terms<'_>) -> Result<(), NoRoom>
        ensures ends { OnOk result (self.new.waiting.items ≡ []) }
        ensures keeps { OnOk result ((xs : List L.Definition) (root : Text) (from first : List ℕ) → IsSearch xs root terms.now from first self.old.marks.items self.old.waiting.items self.old.refs.items → IsSearch xs root terms.now from first self.new.marks.items self.new.waiting.items self.new.refs.items) }
    {
        widen(&mut self.marks, terms.len())?;
        while let Some(row) = self.waiting.pop() {
            self.take_row(terms, row)?;
        }
        Ok(())
    }

    fn take_row(&mut self, terms: &Terms<'_>, number: u32) -> Result<(), NoRoom>
        ensures marks { OnOk result (self.new.marks.items ≡ with_mark self.old.marks.items number) }
        ensures waiting { OnOk result (self.new.waiting.items ≡ by.waiting_after terms.now.rows self.old.marks.items number self.old.waiting.items) }
        ensures refs { OnOk result (self.new.refs.items ≡ by.calls_after terms.now.rows self.old.marks.items number self.old.refs.items) }
    {
        if mark(&mut self.marks, number) {
            self.visit(terms, number)?;
        }
        Ok(())
    }

    fn visit(&mut self, terms: &Terms<'_>, number: u32) -> Result<(), NoRoom>
        ensures marks { OnOk result (self.new.marks.items ≡ self.old.marks.items) }
        ensures waiting { OnOk result (self.new.waiting.items ≡ by.with_parts (slice_get terms.now.rows number) self.old.waiting.items) }
        ensures refs { OnOk result (self.new.refs.items ≡ by.with_call (slice_get terms.now.rows number) number self.old.refs.items) }
    {
        let Some(row) = terms.row(number) else {
            return Ok(());
        };
        if is_call(row.form) {
            return push(&mut self.refs, number);
        }
        push_part(&mut self.waiting, row.first)?;
        push_part(&mut self.waiting, row.second)
    }
}

fn is_call(form: Form) -> bool
    ensures { result ≡ is_call form }
{
    matches!(form, Form::Call)
}

fn push_part(waiting: &mut Vec<u32>, part: Option<u32>) -> Result<(), NoRoom>
    ensures { OnOk result (waiting.new.items ≡ by.with_part part waiting.old.items) }
{
    match part {
        Some(part) => push(waiting, part),
        None => Ok(()),
    }
}
