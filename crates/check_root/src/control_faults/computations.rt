//! What is wrong with controls that compute a literal, by their rows.

ghost use Rattle.std.specs.Prelude.{◌≡◌};
ghost use Rattle.std.specs.Option.{option_map};
ghost use Rattle.check_root.specs.ControlFaults.Controllers as by;
ghost use Rattle.cddl_language.specs.Controls as L;
ghost use Rattle.check_literals.specs.Literals.{fault_at};
ghost use Rattle.check_terms.specs.Texts.Controls.{computation_view, control_view};

use crate::control_faults::controllers::Wrong;
use crate::control_faults::operands::is_operand;
use cddl_literal::operators::Fault;
use check_literals::Literals;
use check_terms::texts::{Computation, Control, control_of};
use check_terms::{Row, Terms};

// Whether it is wrong with the control of this row.
pub(crate) fn is_wrong_control(
    terms: &Terms<'_>,
    literals: &Literals,
    row: u32,
    wrong: Wrong<'_>,
) -> bool
    ensures { result ≡ by.is_wrong_control wrong.entry literals.now (by.computation_at terms.now row) (by.right_at terms.now.rows row) (fault_at literals.now row) }
{
    match wrong {
        Wrong::NotLiteral => {
            has_other_right(terms, literals, row) || is_out_of_range(literals.fault(row))
        }
        Wrong::BadController(_) => is_not_utf8(literals.fault(row)),
    }
}

fn is_out_of_range(fault: Option<Fault>) -> bool
    ensures { result ≡ by.is_out_of_range fault }
{
    matches!(fault, Some(Fault::OutOfRange))
}

fn is_not_utf8(fault: Option<Fault>) -> bool
    ensures { result ≡ by.is_not_utf8 fault }
{
    matches!(fault, Some(Fault::NotUtf8))
}

// Whether the right side of the control of this row is no literal that it takes.
fn has_other_right(terms: &Terms<'_>, literals: &Literals, row: u32) -> bool
    ensures { result ≡ by.has_other_right literals.now (by.computation_at terms.now row) (by.right_at terms.now.rows row) }
{
    match (computation_at(terms, row), right_of(terms.row(row))) {
        (Some(computation), Some(right)) => !is_operand(computation, literals.get(right)),
        _ => false,
    }
}

// How the control of this row computes a literal, if it does.
fn computation_at(terms: &Terms<'_>, row: u32) -> Option<Computation>
    ensures { option_map computation_view result ≡ by.computation_at terms.now row }
{
    match text_of(terms.row(row)) {
        Some(text) => computation_named(terms.text(text)),
        None => None,
    }
}

fn text_of(row: Option<Row>) -> Option<u32>
    ensures { result ≡ by.text_in row }
{
    row?.text
}

fn right_of(row: Option<Row>) -> Option<u32>
    ensures { result ≡ by.right_in row }
{
    row?.second
}

fn computation_named(name: Option<&str>) -> Option<Computation>
    ensures { option_map computation_view result ≡ by.computation_named (option_map (λ t. t.now) name.entry) }
{
    match name {
        Some(name) => computation_in(control_of(name)),
        None => None,
    }
}

fn computation_in(control: Option<Control>) -> Option<Computation>
    ensures { option_map computation_view result ≡ L.computation_in (option_map control_view control) }
{
    match control {
        Some(Control::Computed(computation)) => Some(computation),
        _ => None,
    }
}
