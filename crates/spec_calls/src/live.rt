//! Which names of a text are at live sites.

use check_reading::survey::Survey;
use check_reading::words::{Role, Word};
use std::alloc::{AllocError, Global};

// The offset of a name.
fn start_of(word: &Word) -> Option<usize> {
    match word.role {
        Role::Name { .. } => Some(word.at),
        _ => None,
    }
}

// The offsets of names, each with a space after it.
fn offsets(alloc: Global, live: &[Word]) -> Result<String, AllocError> {
    let mut listed = String::new(alloc);
    for word in live {
        if let Some(start) = start_of(word) {
            listed.push_str(format!(in alloc; "{start} ")?.as_str())?;
        }
    }
    Ok(listed)
}

// The offsets of the live names, if there is memory.
pub(crate) fn live_names(alloc: Global, survey: &Survey) -> Option<String> {
    offsets(alloc, &survey.live).ok()
}
