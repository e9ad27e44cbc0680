//! A template: a body that is filled with the arguments of each of its instances.

ghost use Rattle.std.specs.Prelude.{◌≡◌, ℕ, List, [], IfOk, Some, length};
ghost use Rattle.cddl_language.specs.Terms.{Text};
ghost use Rattle.check_terms.specs.Definitions.{AreTexts};
ghost use Rattle.check_terms.specs.Filled.{filled};
ghost use Rattle.check_terms.specs.Table.{Grows, Holds, Table, Tree};
ghost use Rattle.check_terms.specs.Fill.Slots.{ArePlacesOf};
ghost use Rattle.check_terms.specs.Fill.Templates.{AreTrees, IsTemplate};

use crate::fill::filling::{fill_step, part};
use crate::fill::making::template_of;
use crate::fill::rows::rows_of;
use crate::fill::slots::Slots;
use crate::laws::{growing_keeps, is_table};
use crate::store::push;
use crate::{NoRoom, Terms};
use std::alloc::Global;

/// A row that holds a parameter, and what is done for it.
#[derive(Clone, Copy)]
pub(crate) struct Step {
    /// The number of the row.
    pub row: u32,
    /// The place of the argument that is put in the row's place, where the row is a parameter.
    pub argument: Option<usize>,
    /// The place of the step of its first part, where that holds a parameter.
    pub first: Option<usize>,
    /// The place of the step of its second part, where that holds a parameter.
    pub second: Option<usize>,
}

/// A body that is filled for each of its instances: the rows that hold a parameter, parts before wholes, each once. What holds
/// no parameter is the same in each instance.
#[derive(Drop)]
pub struct Template {
    pub(crate) body: u32,
    pub(crate) place: Option<usize>,
    pub(crate) steps: Vec<Step>,
}

impl Template {
    /// The template of the body of this number, with the parameters that have these places, numbers of texts of the table.
    ///
    /// It costs n log n for the n rows of the body, each row once however often it is shared, and nothing for the parameters
    /// and the other rows of the table; and without parameters nothing at all. An error comes only where memory is refused.
    pub fn new(
        alloc: Global,
        terms: &Terms<'_>,
        slots: &Slots,
        body: u32,
    ) -> Result<Template, NoRoom>
        ensures { IfOk result (λ m. (ks : List ℕ) (ps : List Text) (x : Tree) → ArePlacesOf slots.now ks → AreTexts terms.now.texts ks ps → Holds terms.now (Some body) x → IsTemplate terms.now ps m x) }
    {
        if slots.places.is_empty() {
            return Ok(unfilled(alloc, body));
        }
        is_table(terms);
        let rows = rows_of(alloc, terms, body)?;
        template_of(alloc, terms, &slots.places, rows, body)
    }

    /// How many rows of the body hold a parameter: what it takes to fill it. Takes no memory.
    pub fn steps(&self) -> usize
        ensures { result ≡ length self.now.steps.items }
    {
        self.steps.len()
    }

    /// The number of the body with the arguments in the place of the parameters (RFC 8610 section 3.10). A parameter without
    /// an argument stays itself, and of equal parameters the first counts. The table is the one of which the template was made,
    /// or has grown from it, and the arguments are numbers of its rows.
    ///
    /// It costs a hash of one row for each row that holds a parameter, and adds these at most. An error comes where memory is
    /// refused, or each number of 32 bits is taken; then some rows may have been added. It may come, too, where the template or
    /// an argument is not of this table.
    pub fn fill(
        &self,
        alloc: Global,
        terms: &mut Terms<'_>,
        arguments: &[u32],
    ) -> Result<u32, NoRoom>
        ensures grows { Grows terms.old terms.new }
        ensures texts { terms.new.texts ≡ terms.old.texts }
        ensures fills { IfOk result (λ n. (ps : List Text) (ys : List Tree) (x : Tree) → IsTemplate terms.old ps self.now x → AreTrees terms.old arguments.now ys → Holds terms.new (Some n) (filled ps ys x)) }
    {
        growing_keeps();
        let mut made = Vec::new(alloc);
        for step in &self.steps {
            let number = fill_step(terms, *step, arguments, &made)?;
            push(&mut made, number)?;
        }
        part(&made, self.place, Some(self.body)).ok_or(NoRoom)
    }
}

// The template of a body where there are no parameters: nothing is put into it.
fn unfilled(alloc: Global, body: u32) -> Template
    ensures { (t : Table) (x : Tree) → Holds t (Some body) x → IsTemplate t [] result x }
{
    Template {
        body,
        place: None,
        steps: Vec::new(alloc),
    }
}
