//! The rows of a reference's arguments, in order.

ghost use Rattle.std.specs.Prelude.{◌≡◌, IfOk};
ghost use Rattle.cddl_language.specs.Terms.{Terms as TermList, term_list};
ghost use Rattle.check_terms.specs.Filled.{term_trees};
ghost use Rattle.check_terms.specs.Table.{Holds};
ghost use Rattle.check_terms.specs.Trees.{terms_tree};
ghost use Rattle.check_terms.specs.Fill.Templates.{AreTrees};
ghost use Rattle.check_terms.specs.Fill.Arguments as by;

use crate::laws::is_table;
use crate::{Form, NoRoom, Terms, push};
use std::alloc::Global;

/// The rows of the arguments that begin at this row, in order.
///
/// # Errors
///
/// [`NoRoom`] where an allocation was refused.
pub fn arguments_of(
    alloc: Global,
    terms: &Terms<'_>,
    first: Option<u32>,
) -> Result<Vec<u32>, NoRoom>
    ensures { IfOk result (λ v. (ts : TermList) → Holds terms.now first (terms_tree ts) → AreTrees terms.now v.items (term_trees (term_list ts))) }
{
    is_table(terms);
    let mut arguments = Vec::new(alloc);
    let mut left = first;
    while let Some((argument, further)) = argument_at(terms, left) {
        push(&mut arguments, argument)?;
        left = further;
    }
    Ok(arguments)
}

// The row of the first argument, and that of the arguments after it.
fn argument_at(terms: &Terms<'_>, number: Option<u32>) -> Option<(u32, Option<u32>)>
    ensures { result ≡ by.argument_at terms.now.rows number }
{
    let row = terms.row(number?)?;
    argument_of(row.form, row.first, row.second)
}

fn argument_of(form: Form, first: Option<u32>, further: Option<u32>) -> Option<(u32, Option<u32>)>
    ensures { result ≡ by.argument_of form first further }
{
    match (form, first) {
        (Form::Argument, Some(argument)) => Some((argument, further)),
        _ => None,
    }
}
