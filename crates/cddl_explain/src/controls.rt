//! What is wrong with what stands beside a control: words that follow its first token and end with no full stop.

ghost use Rattle.std.specs.Prelude.{◌≡◌, option_copied, option_map, string_bytes, IfOk};
ghost use Rattle.cddl_explain.specs.Controls.{asks_members, control_in, controller_case, joins, literal_case, not_literal, not_taken};

use crate::meant::{is_control, is_word};
use crate::predicates::{BAD_CONTROLLER, NOT_LITERAL};
use cddl_token::Token;
use std::alloc::{AllocError, Global};

pub(crate) const NO_SUMMAND: &str =
    "begins no literal that is a whole number, as .plus takes; or the sum is out of range";

pub(crate) const NO_STRING: &str =
    "begins no literal that is a string, as .cat and .det take; or the join has more than 65,536 bytes";

pub(crate) const NO_TEXT: &str = "begins a string with which the text on the left is no UTF-8";

// Of what is no literal, by the token before it.
pub(crate) fn literal_case(alloc: Global, before: Option<&Token<'_>>) -> Result<String, AllocError>
    ensures { IfOk result (λ told. string_bytes told ≡ literal_case (option_copied before.entry)) }
{
    match control_in(before) {
        Some(control) => not_literal(alloc, control),
        None => format!(in alloc; "{NOT_LITERAL}"),
    }
}

fn not_literal(alloc: Global, control: &str) -> Result<String, AllocError>
    ensures { IfOk result (λ told. string_bytes told ≡ not_literal control.now) }
{
    if is_word(control, ".plus") {
        return format!(in alloc; "{NO_SUMMAND}");
    }
    if joins(control) {
        return format!(in alloc; "{NO_STRING}");
    }
    format!(in alloc; "begins no literal, as `{control}` takes: a number, a text or a byte string")
}

// Of what a control cannot take, by the token before it.
pub(crate) fn controller_case(
    alloc: Global,
    before: Option<&Token<'_>>,
) -> Result<String, AllocError>
    ensures { IfOk result (λ told. string_bytes told ≡ controller_case (option_copied before.entry)) }
{
    match control_in(before) {
        Some(control) => not_taken(alloc, control),
        None => format!(in alloc; "{BAD_CONTROLLER}"),
    }
}

fn not_taken(alloc: Global, control: &str) -> Result<String, AllocError>
    ensures { IfOk result (λ told. string_bytes told ≡ not_taken control.now) }
{
    if joins(control) {
        return format!(in alloc; "{NO_TEXT}");
    }
    if asks_members(control) {
        return format!(in alloc;
            "begins no choice of unsigned numbers and ranges of them, as `{control}` takes"
        );
    }
    format!(in alloc; "begins no whole number, as `{control}` takes")
}

// The control that a token is, if it is one.
fn control_in<'s>(token: Option<&Token<'s>>) -> Option<&'s str>
    ensures { option_map (λ w. w.now) result ≡ control_in (option_copied token.entry) }
{
    match token {
        Some(token) if is_control(token.kind) => Some(token.text),
        _ => None,
    }
}

// Whether a control makes one string of two.
fn joins(control: &str) -> bool
    ensures { result ≡ joins control.now }
{
    is_word(control, ".cat") || is_word(control, ".det")
}

// Whether a control asks whether numbers are members of what stands on its right.
fn asks_members(control: &str) -> bool
    ensures { result ≡ asks_members control.now }
{
    is_word(control, ".size") || is_word(control, ".bits")
}
