//! What is reported for the faults of one code besides the one that was reported already.

ghost use Rattle.std.specs.Prelude.{◌≡◌, IfOk, ◌↔◌, IsTrue, length, map, option_map, string_bytes};
ghost use Rattle.cddl_token.specs.Answers.{span, InOrder};
ghost use Rattle.cddl_explain.specs.Further.{more_line, AreExplained, AreFurther};

use crate::parts::tokens_of;
use crate::refusals::explained_place;
use cddl_token::{Code, Refusal, Token};
use std::alloc::{AllocError, Global};

/// What is reported for faults with this code at these offsets, in whole lines, but for the one that was reported already: of each the
/// name of the file, the line and the column, and the name of the code; the line of the text, with marks under the part that is
/// meant; and what is wrong with it, as [`crate::explained_refusal`] tells it of the first. Then how many more there are, if
/// any.
///
/// It takes a time in proportion to the text for each of the offsets.
///
/// # Errors
///
/// `AllocError` where an allocation was refused.
pub fn further_faults(
    alloc: Global,
    code: Code,
    already: Refusal,
    offsets: &[usize],
    more: usize,
    file: &str,
    text: &[u8],
    root: Option<&str>,
) -> Result<String, AllocError>
    ensures { IfOk result (λ told. AreFurther code already offsets.now more file.now text.now (option_map (λ r. r.now) root.entry) (string_bytes told)) }
{
    let tokens = tokens_of(alloc, text)?;
    let places = explained_places(
        alloc,
        code,
        already,
        offsets,
        file,
        text,
        tokens.as_slice(),
        root,
    )?;
    let line = more_line(alloc, code, more)?;
    format!(in alloc; "{places}{line}")
}

fn explained_places(
    alloc: Global,
    code: Code,
    already: Refusal,
    offsets: &[usize],
    file: &str,
    text: &[u8],
    tokens: &[Token<'_>],
    root: Option<&str>,
) -> Result<String, AllocError>
    requires { InOrder 0 (length text.now) (map span tokens.now) }
    ensures { IfOk result (λ told. AreExplained code already file.now text.now tokens.now (option_map (λ r. r.now) root.entry) offsets.now (string_bytes told)) }
{
    let mut told = String::new(alloc);
    'offset: for k in 0..offsets.len() {
        if !is_that(already, code, offsets[k]) {
            let place = explained_place(alloc, code, offsets[k], file, text, tokens, root)?;
            told.push_str(place.as_str())?;
        }
    }
    Ok(told)
}

// Whether this is the fault that was reported already.
fn is_that(already: Refusal, code: Code, at: usize) -> bool
    ensures { IsTrue result ↔ (already ≡ Refusal.At code at) }
{
    already == Refusal::At(code, at)
}

fn more_line(alloc: Global, code: Code, more: usize) -> Result<String, AllocError>
    ensures { IfOk result (λ line. string_bytes line ≡ more_line code more) }
{
    if more == 0 {
        return Ok(String::new(alloc));
    }
    format!(in alloc; "{code}: {more} more\n")
}
