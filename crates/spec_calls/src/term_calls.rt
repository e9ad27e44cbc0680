//! Calls of `check_terms`: the words of a line are asked one after the other of one table, which is new.

ghost use Rattle.std.specs.Prelude.{◌≡◌, None};
ghost use Rattle.check_terms.specs.Table.{IsPart};

use call_lines::{bytes, count, limit, push_no_memory, push_none, push_number, push_space};
use check_terms::fill::{Slots, Template};
use check_terms::{Form, NoRoom, Row, Terms, control_name, opened_name};
use std::alloc::{AllocError, Global};

pub(crate) fn answer(
    alloc: Global,
    name: &str,
    words: &str,
    out: &mut String,
) -> Result<(), AllocError> {
    match name {
        "ask" => ask(alloc, words, out),
        _ => push_name(alloc, name, words, out),
    }
}

// The name in the text of an opening, or of a control.
fn push_name(alloc: Global, name: &str, words: &str, out: &mut String) -> Result<(), AllocError> {
    let source = bytes(alloc, words)?;
    let text = str::from_utf8(&source).unwrap_or("");
    match name {
        "opened_name" => out.push_str(opened_name(text))?,
        "control_name" => out.push_str(control_name(text))?,
        _ => out.push_str("no such call")?,
    }
    push_none(out)
}

fn ask(alloc: Global, words: &str, out: &mut String) -> Result<(), AllocError> {
    let mut terms = Terms::new(alloc);
    let mut given = Vec::new(alloc);
    for word in words.split(' ') {
        push_space(out)?;
        let number = push_asked(alloc, &mut terms, &given, word, out)?;
        given.push(number.unwrap_or(u32::MAX))?;
    }
    Ok(())
}

// A word has colons between its parts. The number is answered that it is given; those of the words before it are at hand.
fn push_asked<'s>(
    alloc: Global,
    terms: &mut Terms<'s>,
    given: &[u32],
    word: &'s str,
    out: &mut String,
) -> Result<Option<u32>, AllocError> {
    let (call, told) = word.split_once(':').unwrap_or((word, ""));
    match call {
        "add" => push_given(alloc, terms.add(bare(form_of(told))), out),
        "add_node" => push_node(alloc, terms, given, told, out),
        "fill" => push_filled(alloc, terms, given, told, out),
        "add_text" => push_given(alloc, terms.add_text(told), out),
        _ => {
            push_kept(alloc, terms, call, told, out)?;
            Ok(None)
        }
    }
}

// What is in the table.
fn push_kept(
    alloc: Global,
    terms: &Terms<'_>,
    call: &str,
    told: &str,
    out: &mut String,
) -> Result<(), AllocError> {
    match call {
        "find_text" => push_found(alloc, terms.find_text(told), out),
        "text" => out.push_str(terms.text(limit(told)).unwrap_or("none")),
        "text_at" => out.push_str(terms.text_at(count(told)).unwrap_or("none")),
        "row" => push_row(alloc, terms.row(limit(told)), out),
        "len" => push_number(alloc, terms.len() as u64, out),
        "text_count" => push_number(alloc, terms.text_count() as u64, out),
        _ => out.push_str("no such call"),
    }
}

fn push_given(
    alloc: Global,
    number: Result<u32, NoRoom>,
    out: &mut String,
) -> Result<Option<u32>, AllocError> {
    match number {
        Ok(number) => {
            push_number(alloc, number as u64, out)?;
            Ok(Some(number))
        }
        Err(NoRoom) => {
            push_no_memory(out)?;
            Ok(None)
        }
    }
}

fn push_found(alloc: Global, found: Option<u32>, out: &mut String) -> Result<(), AllocError> {
    match found {
        Some(number) => push_number(alloc, number as u64, out),
        None => out.push_str("none"),
    }
}

// A form, and the numbers of a row's text and parts.
fn push_row(alloc: Global, row: Option<Row>, out: &mut String) -> Result<(), AllocError> {
    match row {
        Some(row) => out.push_str(format!(in alloc; "{row:?}")?.as_str()),
        None => out.push_str("none"),
    }
}

// A form, a text and the numbers of two rows, each of them maybe empty.
fn push_node<'s>(
    alloc: Global,
    terms: &mut Terms<'s>,
    given: &[u32],
    told: &'s str,
    out: &mut String,
) -> Result<Option<u32>, AllocError> {
    let (form, told) = told.split_once(':').unwrap_or((told, ""));
    let (text, told) = told.split_once(':').unwrap_or((told, ""));
    let (first, second) = told.split_once(':').unwrap_or((told, ""));
    let text = if text.is_empty() { None } else { Some(text) };
    let first = part_of(terms, given, first);
    let second = part_of(terms, given, second);
    push_given(
        alloc,
        terms.add_node(form_of(form), text, first, second),
        out,
    )
}

// A number; or with `=` before it the number that was given to this word of the line, from 1.
fn numbered(given: &[u32], word: &str) -> Option<u32> {
    match word.strip_prefix('=') {
        Some(place) => given.get(count(place).wrapping_sub(1)).copied(),
        None => word.parse::<u32>().ok(),
    }
}

fn numbers_of(alloc: Global, given: &[u32], words: &str) -> Result<Vec<u32>, AllocError> {
    let mut numbers = Vec::new(alloc);
    for word in words.split(',') {
        if let Some(number) = numbered(given, word) {
            numbers.push(number)?;
        }
    }
    Ok(numbers)
}

// A body, the texts of its parameters, and the rows of arguments.
fn push_filled(
    alloc: Global,
    terms: &mut Terms<'_>,
    given: &[u32],
    told: &str,
    out: &mut String,
) -> Result<Option<u32>, AllocError> {
    let (body, told) = told.split_once(':').unwrap_or((told, ""));
    let (parameters, arguments) = told.split_once(':').unwrap_or((told, ""));
    let body = numbered(given, body).unwrap_or(0);
    let parameters = numbers_of(alloc, given, parameters)?;
    let arguments = numbers_of(alloc, given, arguments)?;
    let number = match template_of(alloc, terms, &parameters, body) {
        Ok(template) => template.fill(alloc, terms, &arguments),
        Err(NoRoom) => Err(NoRoom),
    };
    push_given(alloc, number, out)
}

fn template_of(
    alloc: Global,
    terms: &Terms<'_>,
    parameters: &[u32],
    body: u32,
) -> Result<Template, NoRoom> {
    let slots = Slots::new(alloc, parameters)?;
    Template::new(alloc, terms, &slots, body)
}

// The row of this number, if there is one.
fn part_of(terms: &Terms<'_>, given: &[u32], word: &str) -> Option<u32>
    ensures { IsPart terms.now result }
{
    let Some(number) = numbered(given, word) else {
        return None;
    };
    if (number as usize) < terms.len() {
        Some(number)
    } else {
        None
    }
}

// A row without parts and without a text.
fn bare(form: Form) -> Row
    ensures { result ≡ record { form = form; text = None; first = None; second = None } }
{
    Row {
        form,
        text: None,
        first: None,
        second: None,
    }
}

fn form_of(word: &str) -> Form {
    match word {
        "NoTerms" => Form::NoTerms,
        "NoEntries" => Form::NoEntries,
        "Call" => Form::Call,
        "Unwrapped" => Form::Unwrapped,
        "Typed" => Form::Typed,
        "EntriesComma" => Form::EntriesComma,
        "Sole" => Form::Sole,
        "ArrayOf" => Form::ArrayOf,
        "Or" => Form::Or,
        _ => Form::Named,
    }
}
