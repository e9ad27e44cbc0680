//! What is reported for a refused specification to one who wants more than the line of the refusal.

ghost use Rattle.std.specs.Prelude.{◌≡◌, ◌≤◌, length, map, IfOk, option_map, string_bytes};
ghost use Rattle.cddl_token.specs.Answers.{span, InOrder};
ghost use Rattle.text_shown.specs.Shown.{shown};
ghost use Rattle.cddl_explain.specs.Parts.{IsWithin};
ghost use Rattle.cddl_explain.specs.Refusals.{of_nothing, said, IsExplainedPlace, IsExplainedRefusal, IsWrong};

use crate::hints::hint;
use crate::names::name;
use crate::parts::{Part, part_of, tokens_of};
use crate::predicates::predicate_at;
use crate::sentences::sentence;
use cddl_token::{Code, Refusal, Token};
use std::alloc::{AllocError, Global};
use text_position::position_of;
use text_shown::{pointed_at, push_shown, shown_part};

pub(crate) const NO_RULE: &str =
    "the text has no rule that could be the root, and --root names none";

/// What is reported for a refusal, in whole lines: the line of the refusal; the name of the file, the line and the column, and the
/// name of the code; the line of the text, with marks under the part that is meant; and what is wrong with it, with what may
/// stand in its place, or what was perhaps meant.
///
/// The part is the token that begins at the offset. Where that is the end of the text, one mark stands after the last token.
/// Where the text has no tokens, the marks are under the character, number or string that is wrong. Where nothing of the text
/// is wrong, as where there is no root, one mark stands at the offset, and the sentence is that of the code.
///
/// # Errors
///
/// `AllocError` where an allocation was refused.
pub fn explained_refusal(
    alloc: Global,
    code: Code,
    offset: usize,
    file: &str,
    text: &[u8],
    root: Option<&str>,
) -> Result<String, AllocError>
    ensures { IfOk result (λ told. IsExplainedRefusal code offset file.now text.now (option_map (λ r. r.now) root.entry) (string_bytes told)) }
{
    let tokens = tokens_of(alloc, text)?;
    let place = explained_place(alloc, code, offset, file, text, tokens.as_slice(), root)?;
    let refusal = Refusal::At(code, offset);
    format!(in alloc; "{refusal}\n{place}")
}

// Where a fault is, and what is wrong there, in whole lines.
pub(crate) fn explained_place(
    alloc: Global,
    code: Code,
    offset: usize,
    file: &str,
    text: &[u8],
    tokens: &[Token<'_>],
    root: Option<&str>,
) -> Result<String, AllocError>
    requires { InOrder 0 (length text.now) (map span tokens.now) }
    ensures { IfOk result (λ told. IsExplainedPlace code offset file.now text.now tokens.now (option_map (λ r. r.now) root.entry) (string_bytes told)) }
{
    let part = part_of(code, text, offset, tokens);
    let position = position_of(text, part.from);
    let pointed = pointed_at(alloc, text, part.from, part.to)?;
    let wrong = wrong(alloc, code, text, part, tokens, root)?;
    let file = shown(alloc, file)?;
    let (line, column, name) = (position.line, position.column, name(code));
    format!(in alloc; "{file}:{line}:{column}: {name}\n{pointed}{wrong}\n")
}

// What is wrong, and what was perhaps meant.
fn wrong(
    alloc: Global,
    code: Code,
    text: &[u8],
    part: Part,
    tokens: &[Token<'_>],
    root: Option<&str>,
) -> Result<String, AllocError>
    requires { IsWithin (length text.now) part }
    ensures { IfOk result (λ told. IsWrong code text.now part tokens.now (option_map (λ r. r.now) root.entry) (string_bytes told)) }
{
    let said = said(alloc, code, text, tokens, root, part)?;
    let hint = hint(alloc, code, text, part, tokens, root)?;
    format!(in alloc; "{said}{hint}")
}

fn said(
    alloc: Global,
    code: Code,
    text: &[u8],
    tokens: &[Token<'_>],
    root: Option<&str>,
    part: Part,
) -> Result<String, AllocError>
    requires { IsWithin (length text.now) part }
    ensures { IfOk result (λ told. string_bytes told ≡ said code text.now tokens.now (option_map (λ r. r.now) root.entry) part) }
{
    let predicate = predicate_at(alloc, code, part.from, tokens)?;
    if part.ends {
        return format!(in alloc; "the end of the text {predicate}");
    }
    if part.from < part.to {
        let shown = shown_part(alloc, &text[part.from..part.to])?;
        return format!(in alloc; "`{shown}` {predicate}");
    }
    of_nothing(alloc, code, root)
}

fn shown(alloc: Global, word: &str) -> Result<String, AllocError>
    ensures { IfOk result (λ text. string_bytes text ≡ shown word.now) }
{
    let mut text = String::new(alloc);
    push_shown(&mut text, word)?;
    Ok(text)
}

// What is wrong where no part of the text is.
fn of_nothing(alloc: Global, code: Code, root: Option<&str>) -> Result<String, AllocError>
    ensures { IfOk result (λ text. string_bytes text ≡ of_nothing code (option_map (λ r. r.now) root.entry)) }
{
    match (code, root) {
        (Code::NoRoot, Some(name)) => {
            let name = shown(alloc, name)?;
            format!(in alloc; "`{name}`, which --root asks for, is no rule and none of the prelude")
        }
        (Code::NoRoot, None) => format!(in alloc; "{NO_RULE}"),
        _ => {
            let sentence = sentence(code);
            format!(in alloc; "{sentence}")
        }
    }
}
