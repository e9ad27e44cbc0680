//! Calls of `check_names::environment`: where the definitions of names stand.
use call_lines::{count, first, limit, push_no_memory};
use check_names::environment::{Name, names};
use check_terms::{Body, Definition, Sign};
use std::alloc::{AllocError, Global};

// The index of a name, how many names there are, and definitions: the prelude's with `known:` before them, and the text's.
pub(crate) fn answer(alloc: Global, words: &str, out: &mut String) -> Result<(), AllocError> {
    let (index, words) = first(words);
    let (number, words) = first(words);
    let known = definitions_of(alloc, words, true)?;
    let definitions = definitions_of(alloc, words, false)?;
    match names(alloc, count(number), &known, &definitions) {
        Ok(found) => push_name(alloc, found.get(count(index)), out),
        Err(_) => push_no_memory(out),
    }
}

fn definitions_of(alloc: Global, words: &str, known: bool) -> Result<Vec<Definition>, AllocError> {
    let mut definitions = Vec::new(alloc);
    for word in words.split(' ') {
        match word.strip_prefix("known:") {
            Some(word) if known => definitions.push(definition(alloc, word))?,
            None if !known => definitions.push(definition(alloc, word))?,
            _ => {}
        }
    }
    Ok(definitions)
}

// A name's number with its sign after it.
fn definition(alloc: Global, word: &str) -> Definition {
    let (name, sign) = if let Some(name) = word.strip_suffix("//=") {
        (name, Sign::GroupOr)
    } else if let Some(name) = word.strip_suffix("/=") {
        (name, Sign::TypeOr)
    } else {
        (word.strip_suffix('=').unwrap_or(word), Sign::Is)
    };
    Definition {
        name: limit(name),
        parameters: Vec::new(alloc),
        sign,
        body: Body::Types(0),
    }
}

// The places of a name: the prelude's, its first and its first by `=`, and those that count.
fn push_name(alloc: Global, name: Option<&Name>, out: &mut String) -> Result<(), AllocError> {
    let Some(name) = name else {
        return out.push_str("none");
    };
    push_place(alloc, name.known, out)?;
    push_place(alloc, name.first, out)?;
    push_place(alloc, name.first_equals, out)?;
    let counting = &name.counting;
    out.push_str(format!(in alloc; "{counting:?}")?.as_str())
}

fn push_place(alloc: Global, place: Option<usize>, out: &mut String) -> Result<(), AllocError> {
    match place {
        Some(place) => out.push_str(format!(in alloc; "{place} ")?.as_str()),
        None => out.push_str("- "),
    }
}
