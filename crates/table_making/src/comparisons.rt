//! What items that are compared with literals are asked (RFC 8610 section 3.8.6).

ghost use Rattle.std.specs.Prelude.{◌≡◌, IfOk, Some};
ghost use Rattle.std.specs.Option.{option_map};
ghost use Rattle.item_nodes.specs.View.{view};
ghost use Rattle.cddl_language.specs.Literals.{item_of};
ghost use Rattle.cddl_literal.specs.Literals.{view as meaning_of};
ghost use Rattle.check_literals.specs.Literals.{literal_at};
ghost use Rattle.check_terms.specs.Texts.Controls.{comparison_view};
ghost use Rattle.table_nodes.specs.Nodes.{test_view};
ghost use Rattle.table_making.specs.Forms.{type_form_view};
ghost use Rattle.table_making.specs.Lookups.{such_view, test_by};

use crate::form::{TypeForm, nothing};
use crate::literals::item_from;
use crate::origin::TypeOrigin;
use crate::source::Source;
use cddl_literal::Literal;
use check_literals::values::whole_of;
use check_terms::NoRoom;
use check_terms::texts::Comparison;
use item_nodes::Item;
use std::alloc::Global;
use table_nodes::Test;

// The items to which the type on the left says yes, and that compare so with the controller, where it is a literal with which
// they can be compared so.
pub(crate) fn comparison_form(
    alloc: Global,
    source: &Source<'_>,
    comparison: Comparison,
    left: u32,
    right: u32,
) -> Result<TypeForm, NoRoom>
    ensures { IfOk result (λ f. type_form_view f ≡ such_view left (test_by (comparison_view comparison) (literal_at source.now.literals.now right))) }
{
    match comparison_at(alloc, source, comparison, right)? {
        Some(test) => Ok(TypeForm::Such(TypeOrigin::Row(left), test)),
        None => Ok(nothing(alloc)),
    }
}

// What is asked of an item that is compared so with the literal that a row is, if it is one with which it can be compared so.
fn comparison_at(
    alloc: Global,
    source: &Source<'_>,
    comparison: Comparison,
    row: u32,
) -> Result<Option<Test>, NoRoom>
    ensures { IfOk result (λ o. option_map test_view o ≡ test_by (comparison_view comparison) (literal_at source.now.literals.now row)) }
{
    match source.literals.get(row) {
        Some(literal) => {
            let item = item_from(alloc, literal)?;
            Ok(comparison_with(comparison, literal, item))
        }
        None => Ok(None),
    }
}

// What is asked of an item that is compared so with a literal, which is this item. An order is one of whole numbers.
fn comparison_with(comparison: Comparison, literal: &Literal, item: Item) -> Option<Test>
    ensures { view item ≡ item_of (meaning_of literal.now) → option_map test_view result ≡ test_by (comparison_view comparison) (Some (meaning_of literal.now)) }
{
    match comparison {
        Comparison::Equal => Some(Test::Equals(item)),
        Comparison::Different => Some(Test::Differs(item)),
        Comparison::Less => Some(Test::Less(whole_of(literal)?)),
        Comparison::AtMost => Some(Test::AtMost(whole_of(literal)?)),
        Comparison::Greater => Some(Test::Greater(whole_of(literal)?)),
        Comparison::AtLeast => Some(Test::AtLeast(whole_of(literal)?)),
    }
}
