//! The literals that rows are, written or computed.

ghost use Rattle.std.specs.Prelude.{◌≡◌, IfOk};
ghost use Rattle.std.specs.Option.{option_map};
ghost use Rattle.item_nodes.specs.View.{view};
ghost use Rattle.cddl_language.specs.Literals as V;
ghost use Rattle.cddl_literal.specs.Literals.{view as meaning_of};
ghost use Rattle.check_literals.specs.Literals.{literal_at};
ghost use Rattle.table_nodes.specs.Nodes.{whole_view};
ghost use Rattle.table_making.specs.Forms.{type_form_view};
ghost use Rattle.table_making.specs.Lookups.{between_view, equal_view};

use crate::form::{TypeForm, nothing};
use crate::source::Source;
use cddl_literal::Literal;
use check_literals::values::{item_of, whole_of};
use check_terms::NoRoom;
use item_nodes::Item;
use std::alloc::Global;
use table_nodes::{Test, Whole};

// The item that a literal stands for.
pub(crate) fn item_from(alloc: Global, literal: &Literal) -> Result<Item, NoRoom>
    ensures { IfOk result (λ i. view i ≡ V.item_of (meaning_of literal.now)) }
{
    match item_of(alloc, literal) {
        Ok(item) => Ok(item),
        Err(_) => Err(NoRoom),
    }
}

// The literal that the row is and nothing else, where it is one.
pub(crate) fn equal_form(alloc: Global, source: &Source<'_>, row: u32) -> Result<TypeForm, NoRoom>
    ensures { IfOk result (λ f. type_form_view f ≡ equal_view (literal_at source.now.literals.now row)) }
{
    match source.literals.get(row) {
        Some(literal) => {
            let item = item_from(alloc, literal)?;
            Ok(TypeForm::Plain(Test::Equals(item)))
        }
        None => Ok(nothing(alloc)),
    }
}

// The whole number that a row is, if it is one.
fn whole_at(source: &Source<'_>, row: u32) -> Option<Whole>
    ensures { option_map whole_view result ≡ V.whole (literal_at source.now.literals.now row) }
{
    match source.literals.get(row) {
        Some(literal) => whole_of(literal),
        None => None,
    }
}

// From one whole number to another, where both rows are whole numbers.
pub(crate) fn range_form(
    alloc: Global,
    source: &Source<'_>,
    least: u32,
    last: u32,
    closed: bool,
) -> TypeForm
    ensures { type_form_view result ≡ between_view closed (V.whole (literal_at source.now.literals.now least)) (V.whole (literal_at source.now.literals.now last)) }
{
    between_form(
        alloc,
        whole_at(source, least),
        whole_at(source, last),
        closed,
    )
}

fn between_form(alloc: Global, least: Option<Whole>, last: Option<Whole>, closed: bool) -> TypeForm
    ensures { type_form_view result ≡ between_view closed (option_map whole_view least) (option_map whole_view last) }
{
    match (least, last) {
        (Some(least), Some(last)) => TypeForm::Plain(Test::Between {
            least,
            last,
            closed,
        }),
        _ => nothing(alloc),
    }
}
