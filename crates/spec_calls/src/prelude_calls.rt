//! Calls of `check_reading::prelude`: the definitions of the prelude.
use call_lines::{push_no_memory, push_none, push_space};
use check_reading::prelude::add_prelude;
use check_terms::{Body, Definition, Form, Row, Terms};
use std::alloc::{AllocError, Global};

// All names that are defined, in order; or the two names of which the type of a name is a choice.
pub(crate) fn answer(
    alloc: Global,
    name: &str,
    words: &str,
    out: &mut String,
) -> Result<(), AllocError> {
    let mut terms = Terms::new(alloc);
    push_told(alloc, &mut terms, name, words, out)
}

fn push_told(
    alloc: Global,
    terms: &mut Terms<'_>,
    name: &str,
    words: &str,
    out: &mut String,
) -> Result<(), AllocError> {
    match add_prelude(alloc, terms) {
        Ok(definitions) if name == "names" => push_names(terms, &definitions, out),
        Ok(definitions) => push_choice(terms, &definitions, words, out),
        Err(_) => push_no_memory(out),
    }
}

fn push_names(
    terms: &Terms<'_>,
    definitions: &[Definition],
    out: &mut String,
) -> Result<(), AllocError> {
    for definition in definitions {
        push_space(out)?;
        out.push_str(terms.text(definition.name).unwrap_or("none"))?;
    }
    push_none(out)
}

fn push_choice(
    terms: &Terms<'_>,
    definitions: &[Definition],
    name: &str,
    out: &mut String,
) -> Result<(), AllocError> {
    for definition in definitions {
        if terms.text(definition.name) == Some(name) {
            push_body(terms, definition.body, out)?;
        }
    }
    push_none(out)
}

fn push_body(terms: &Terms<'_>, body: Body, out: &mut String) -> Result<(), AllocError> {
    let Body::Types(number) = body else {
        return out.push_str("an entry");
    };
    match terms.row(number) {
        Some(
            Row {
                form: Form::Or,
                first,
                second,
                ..
            },
        ) => {
            out.push_str(name_used(terms, first).unwrap_or("none"))?;
            out.push_str(" / ")?;
            out.push_str(name_used(terms, second).unwrap_or("none"))
        }
        _ => out.push_str("another form"),
    }
}

// The name of which the row of this number is a use.
fn name_used<'s>(terms: &Terms<'s>, number: Option<u32>) -> Option<&'s str> {
    let named = terms.row(number?)?;
    let reference = terms.row(named.first?)?;
    terms.text(reference.text?)
}
