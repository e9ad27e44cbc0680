//! Calls of `check_terms::texts`: what the texts of tokens say.
use call_lines::{bytes, push_is};
use check_terms::texts::{
    Control, HashForm, Occurrence, TagNumber, control_of, hash_form, is_bad_hash, is_group_socket,
    is_socket, occurrence_of, tag_number, uint,
};
use std::alloc::{AllocError, Global};

pub(crate) fn answer(
    alloc: Global,
    name: &str,
    words: &str,
    out: &mut String,
) -> Result<(), AllocError> {
    let source = bytes(alloc, words)?;
    let text = str::from_utf8(&source).unwrap_or("");
    match name {
        "is_bad_hash" => push_is(is_bad_hash(text), out),
        "is_socket" => push_is(is_socket(text), out),
        "is_group_socket" => push_is(is_group_socket(text), out),
        "uint" => push_uint(alloc, uint(text), out),
        "tag_number" => push_tag(alloc, tag_number(text), out),
        _ => answer_by_form(alloc, name, text, out),
    }
}

fn answer_by_form(
    alloc: Global,
    name: &str,
    text: &str,
    out: &mut String,
) -> Result<(), AllocError> {
    match name {
        "occurrence_of" => push_occurrence(alloc, occurrence_of(text), out),
        "hash_form" => push_hash(alloc, hash_form(text), out),
        "control_of" => push_control(alloc, control_of(text), out),
        _ => out.push_str("no such call"),
    }
}

fn push_uint(alloc: Global, number: Option<u64>, out: &mut String) -> Result<(), AllocError> {
    match number {
        Some(number) => call_lines::push_number(alloc, number, out),
        None => out.push_str("none"),
    }
}

fn push_tag(alloc: Global, number: TagNumber, out: &mut String) -> Result<(), AllocError> {
    out.push_str(format!(in alloc; "{number:?}")?.as_str())
}

// The bounds, and what is asked of them.
fn push_occurrence(
    alloc: Global,
    read: Option<Occurrence>,
    out: &mut String,
) -> Result<(), AllocError> {
    let Some(read) = read else {
        return out.push_str("none");
    };
    let least = read.least;
    let most = read.most;
    out.push_str(format!(in alloc; "{least} {most:?}")?.as_str())?;
    if read.is_over() {
        out.push_str(" over")?;
    }
    if read.is_once() {
        out.push_str(" once")?;
    }
    Ok(())
}

fn push_hash(alloc: Global, form: Option<HashForm>, out: &mut String) -> Result<(), AllocError> {
    match form {
        Some(form) => out.push_str(format!(in alloc; "{form:?}")?.as_str()),
        None => out.push_str("none"),
    }
}

fn push_control(
    alloc: Global,
    control: Option<Control>,
    out: &mut String,
) -> Result<(), AllocError> {
    match control {
        Some(control) => out.push_str(format!(in alloc; "{control:?}")?.as_str()),
        None => out.push_str("none"),
    }
}
