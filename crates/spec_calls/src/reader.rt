//! Whether two definitions have the same body, said by numbers, and of operations that are read again.

use crate::texts_told::text_in;
use check_reading::reader::{read, read_operation};
use check_terms::{Body, Definition, Terms};
use std::alloc::Global;
use tree_nodes::{Rule, Tree, Type1};

fn has_number(body: Body, other: Body) -> bool {
    match (body, other) {
        (Body::Types(number), Body::Types(further)) => number == further,
        (Body::Entry(number), Body::Entry(further)) => number == further,
        _ => false,
    }
}

fn are_first_two_alike(definitions: &[Definition]) -> Option<bool> {
    match definitions {
        [first, second, ..] => Some(has_number(first.body, second.body)),
        _ => None,
    }
}

fn word(holds: Option<bool>) -> &'static str {
    match holds {
        Some(true) => "yes",
        Some(false) => "no",
        None => "-",
    }
}

// Whether the first two definitions have one body; `-` of a text without two.
pub(crate) fn are_alike<'s>(
    alloc: Global,
    terms: &mut Terms<'s>,
    tree: &Tree<'s>,
) -> Option<String> {
    match &read(alloc, terms, tree) {
        Ok(definitions) => text_in(alloc, word(are_first_two_alike(definitions))),
        Err(_) => None,
    }
}

// Whether a body has the number that the operation in it has by itself; nothing of a body without one.
fn has_number_again<'s>(
    terms: &mut Terms<'s>,
    tree: &Tree<'s>,
    type1: &Type1,
    body: Body,
) -> Option<bool> {
    match type1 {
        Type1::Operation {
            left,
            operator,
            right,
        } => match read_operation(terms, tree, left, operator, right) {
            Ok(number) => Some(has_number(body, Body::Types(number))),
            Err(_) => None,
        },
        Type1::One(_) => None,
    }
}

fn is_first_read_again<'s>(
    terms: &mut Terms<'s>,
    tree: &Tree<'s>,
    rules: &[Rule],
    definitions: &[Definition],
) -> Option<bool> {
    match (rules, definitions) {
        ([Rule::TypeRule { types, .. }, ..], [definition, ..]) => {
            has_number_again(terms, tree, &types.first, definition.body)
        }
        _ => None,
    }
}

// The same of the first rule's body; `-` of one without an operation.
pub(crate) fn is_read_again<'s>(
    alloc: Global,
    terms: &mut Terms<'s>,
    tree: &Tree<'s>,
) -> Option<String> {
    match &read(alloc, terms, tree) {
        Ok(definitions) => {
            let holds = is_first_read_again(terms, tree, &tree.rules, definitions);
            text_in(alloc, word(holds))
        }
        Err(_) => None,
    }
}
