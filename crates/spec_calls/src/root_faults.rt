//! The offset of a fault in what a root reaches, by the name of the call that is asked.

use crate::chain::{Meant, words_in};
use crate::roots_told::{order_in, text_in};
use check_reading::survey::Survey;
use check_reading::words::Word;
use check_root::control_faults::{bad_controller, not_literal};
use check_root::range_faults::bad_range;
use check_root::reached_faults::{not_unwrappable, not_unwrapped, nothing_chosen};
use check_root::root_faults::recursion;
use check_terms::Terms;
use std::alloc::Global;

// The offset of a fault in what the root of a text reaches, by the name of the call that tells it.
pub(crate) fn fault_of(
    alloc: Global,
    terms: &Terms<'_>,
    survey: &Survey,
    meant: &Meant<'_>,
    what: &str,
) -> Option<String> {
    match &words_in(alloc, terms, survey, &meant.reached.instances) {
        Some(reached) => fault_at(alloc, terms, survey, meant, reached, what),
        None => None,
    }
}

fn fault_at(
    alloc: Global,
    terms: &Terms<'_>,
    survey: &Survey,
    meant: &Meant<'_>,
    reached: &[Word],
    what: &str,
) -> Option<String> {
    let at = match what {
        "opened" => not_unwrapped(alloc, survey, reached).ok()?,
        "unwrapped" => unwrapping(alloc, terms, survey, meant, reached)?,
        "literal" | "number" => of_controller(terms, meant, what),
        "range" => range_in(terms, meant, reached),
        _ => returning(alloc, terms, survey, meant)?,
    };
    match at {
        Some(at) => format!(in alloc; "{at} ").ok(),
        None => text_in(alloc, "- "),
    }
}

fn of_controller(terms: &Terms<'_>, meant: &Meant<'_>, what: &str) -> Option<usize> {
    let asked = &meant.reached.questions.asked;
    let literals = &meant.valued.literals;
    match what {
        "literal" => not_literal(terms, literals, asked),
        _ => bad_controller(terms, literals, &meant.valued.controllers, asked),
    }
}

fn unwrapping(
    alloc: Global,
    terms: &Terms<'_>,
    survey: &Survey,
    meant: &Meant<'_>,
    reached: &[Word],
) -> Option<Option<usize>> {
    let opens = not_unwrapped(alloc, survey, reached).ok()?;
    let asked = &meant.reached.questions.asked;
    let chooses = nothing_chosen(terms, &meant.opened.closed, &meant.groups.choosable, asked);
    Some(not_unwrappable(opens, chooses))
}

fn range_in(terms: &Terms<'_>, meant: &Meant<'_>, reached: &[Word]) -> Option<usize> {
    bad_range(
        terms,
        &meant.valued.literals,
        &meant.reached.questions.asked,
        reached,
    )
}

fn returning(
    alloc: Global,
    terms: &Terms<'_>,
    survey: &Survey,
    meant: &Meant<'_>,
) -> Option<Option<usize>> {
    let order = order_in(alloc, terms, meant)?;
    let closed = &meant.opened.closed;
    let names = &survey.names;
    Some(recursion(terms, &survey.starts, names, closed, &order))
}
