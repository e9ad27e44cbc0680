//! The line of a reason.

ghost use Rattle.std.specs.Prelude.{◌≡◌, IfOk, string_bytes};
ghost use Rattle.text_shown.specs.Places.{shown_part};
ghost use Rattle.text_shown.specs.Shown.{shown};
ghost use Rattle.mismatch_words.specs.Reasons.{line_text, more_line, parts_text, position_text, root_line, root_text, said_of};

use crate::causes::{Cause, said};
use std::alloc::{AllocError, Global};
use text_position::Position;
use text_shown::{push_shown, shown_part};

/// Why an item does not match.
#[derive(Clone, Copy)]
pub struct Reason<'a> {
    /// What is shown of the place, and of what is there.
    pub found: &'a str,
    /// Where the type stands in the text of the specification.
    pub position: Position,
    /// The name of the rule that it stands in.
    pub rule: &'a str,
    /// What is wrong.
    pub cause: Cause,
    /// The type, as it stands in the text; nothing where it stands nowhere there.
    pub written: &'a str,
}

/// The line of a reason: the place and what is there; the name of the file, the line and the column where the type stands; the
/// name of the rule; and what is wrong, with the first 60 characters of the type.
///
/// # Errors
///
/// `AllocError` where an allocation was refused.
pub fn reason_line(alloc: Global, file: &str, reason: Reason<'_>) -> Result<String, AllocError>
    ensures { IfOk result (λ line. string_bytes line ≡ line_text file.now reason.entry.found.now reason.entry.position.line reason.entry.position.column reason.entry.rule.now reason.entry.cause reason.entry.written.now) }
{
    let position = position_text(alloc, file, reason.position)?;
    let rule = shown(alloc, reason.rule)?;
    let said = said_of(alloc, reason.cause, reason.written)?;
    parts_text(
        alloc,
        reason.found,
        position.as_str(),
        rule.as_str(),
        said.as_str(),
    )
}

/// The line of a reason whose types stand nowhere in the text of the specification, since the root is a name of the prelude (RFC
/// 8610 appendix D): what is shown of the place, and of what is there, and this name.
///
/// # Errors
///
/// `AllocError` where an allocation was refused.
pub fn root_line(alloc: Global, found: &str, root: &str) -> Result<String, AllocError>
    ensures { IfOk result (λ line. string_bytes line ≡ root_line found.now root.now) }
{
    let root = shown(alloc, root)?;
    root_text(alloc, found, root.as_str())
}

fn root_text(alloc: Global, found: &str, root: &str) -> Result<String, AllocError>
    ensures { IfOk result (λ text. string_bytes text ≡ root_text found.now root.now) }
{
    format!(in alloc; "{found}: is not as {root} of the prelude wants\n")
}

fn position_text(alloc: Global, file: &str, at: Position) -> Result<String, AllocError>
    ensures { IfOk result (λ text. string_bytes text ≡ position_text file.now at.line at.column) }
{
    let file = shown(alloc, file)?;
    let (line, column) = (at.line, at.column);
    format!(in alloc; "{file}:{line}:{column}")
}

fn parts_text(
    alloc: Global,
    found: &str,
    position: &str,
    rule: &str,
    said: &str,
) -> Result<String, AllocError>
    ensures { IfOk result (λ text. string_bytes text ≡ parts_text found.now position.now rule.now said.now) }
{
    format!(in alloc; "{found}: {position}: {rule} {said}\n")
}

fn shown(alloc: Global, word: &str) -> Result<String, AllocError>
    ensures { IfOk result (λ text. string_bytes text ≡ shown word.now) }
{
    let mut text = String::new(alloc);
    push_shown(&mut text, word)?;
    Ok(text)
}

fn said_of(alloc: Global, cause: Cause, written: &str) -> Result<String, AllocError>
    ensures { IfOk result (λ words. string_bytes words ≡ said_of cause written.now) }
{
    let part = shown_part(alloc, written.as_bytes())?;
    said(alloc, cause, part.as_str())
}

// The line that tells how many more reasons there are: nothing where there are none.
pub(crate) fn more_line(alloc: Global, more: u128) -> Result<String, AllocError>
    ensures { IfOk result (λ line. string_bytes line ≡ more_line more) }
{
    if more == 0 {
        return Ok(String::new(alloc));
    }
    format!(in alloc; "and {more} more\n")
}
