//! The line of a reason whose type stands at a place of the text.

ghost use Rattle.std.specs.Prelude.{◌≡◌, IfOk, string_bytes};
ghost use Rattle.cddl_mismatch.specs.Lines.{IsLineAt, IsPartOf, written_or};

use cddl_sources::{Place, Span};
use cddl_token::Token;
use mismatch_words::{Cause, Reason, reason_line, type_words};
use std::alloc::{AllocError, Global};
use text_position::position_of;

/// The text of a specification, with its tokens, the name that it goes by, and that of its root, if it is not the first rule.
#[derive(Clone, Copy)]
pub(crate) struct Source<'s> {
    pub(crate) text: &'s [u8],
    pub(crate) tokens: &'s [Token<'s>],
    pub(crate) file: &'s str,
    pub(crate) root: Option<&'s str>,
}

// The line for what was found, where the type stands at this place; with the other words where nothing of it is reported.
pub(crate) fn line_at(
    alloc: Global,
    source: Source<'_>,
    place: Place,
    found: &str,
    cause: Cause,
    other: &str,
) -> Result<String, AllocError>
    ensures { IfOk result (λ line. IsLineAt source.entry.text.now source.entry.tokens.now source.entry.file.now place found.now cause other.now (string_bytes line)) }
{
    let rule = part_of(alloc, source.text, place.name)?;
    let written = type_words(alloc, source.tokens, place.written.first, place.written.end)?;
    let written = written_or(written.as_str(), other);
    let position = position_of(source.text, place.types.first);
    reason_line(
        alloc,
        source.file,
        Reason {
            found,
            position,
            rule: rule.as_str(),
            cause,
            written,
        },
    )
}

// These words, or the others where there are none.
fn written_or<'w>(written: &'w str, other: &'w str) -> &'w str
    ensures { result.now ≡ written_or written.now other.now }
{
    if written.is_empty() { other } else { written }
}

// What stands in a part of the text.
fn part_of(alloc: Global, text: &[u8], part: Span) -> Result<String, AllocError>
    ensures { IfOk result (λ words. IsPartOf text.now part (string_bytes words)) }
{
    match text.get(part.first..part.end) {
        Some(bytes) => String::from_utf8_lossy(alloc, bytes),
        None => Ok(String::new(alloc)),
    }
}
