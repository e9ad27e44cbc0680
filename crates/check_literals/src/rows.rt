//! The literals of all rows.

ghost use Rattle.std.specs.Prelude.{◌≡◌, IfOk, List};
ghost use Rattle.cddl_language.specs.Literals.{AreRight, Values};
ghost use Rattle.cddl_language.specs.Reading.{definitions_in, rules_of};
ghost use Rattle.cddl_language.specs.Terms.{Ref, Text};
ghost use Rattle.tree_nodes.specs.Syntax.Syntax.{Cddl};
ghost use Rattle.check_instances.specs.Closed.Closed.{IsClosed};
ghost use Rattle.check_names.specs.Kinds.Kinds.{AreKinds};
ghost use Rattle.check_literals.specs.Literals.{AreLiterals};

use crate::edges::edges_of;
use crate::known::Literals;
use crate::needs::needs_of;
use crate::progress::progress_of;
use crate::values::one_value;
use cddl_language::written::reached_values;
use check_instances::closed::Closed;
use check_names::kinds::Kinds;
use check_terms::Terms;
use check_terms::laws::equal_numbers;
use graphs::cycles::bottom_up;
use std::alloc::{AllocError, Global};

/// The literals that the types of a specification are, by the rows of its table: a written value, what `.plus`, `.cat` and
/// `.det` compute from two literals, and the same through parentheses and through names of types that have one choice
/// (RFC 8610 section 3.1, RFC 9165 section 2). What comes back to itself is none, and so is what is reported through more names
/// than there may be instances.
///
/// The time is n log n in rows, and linear in the bytes of the literals. The memory is a few numbers for each row, and the bytes
/// of each literal once: what is written, and at most 65,536 bytes for each control that computes. Names and parentheses share
/// the place of what they stand for. All of these bytes are at most 4 MiB and 64 for each row.
///
/// # Errors
///
/// `AllocError` where memory is refused, where there are more bytes than these, and where the table has 2^32 rows or more.
pub fn literals(
    alloc: Global,
    terms: &Terms<'_>,
    closed: &Closed,
    kinds: &Kinds,
) -> Result<Literals, AllocError>
    ensures { IfOk result (λ ls. (x : Cddl) (worth : Values) (root : Text) (refs : List Ref) → AreRight x worth → IsClosed (definitions_in (rules_of x)) root refs terms.now closed.now → AreKinds terms.now.texts (definitions_in (rules_of x)) kinds.now → AreLiterals (definitions_in (rules_of x)) root worth terms.now ls) }
{
    reached_values();
    one_value();
    equal_numbers(terms);
    let needs = needs_of(alloc, terms, closed, kinds)?;
    let edges = edges_of(alloc, &needs)?;
    let order = bottom_up(alloc, needs.len(), &edges)?;
    let known = progress_of(alloc, terms, &needs, &order)?;
    Ok(known.literals)
}
