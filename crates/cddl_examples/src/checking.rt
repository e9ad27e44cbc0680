//! Checks the text of a specification.

ghost use Rattle.std.specs.Prelude.{◌≡◌, ◌++◌, IfErr, IfOk, codes, string_bytes};
ghost use Rattle.cddl_token.specs.Messages.{refusal_text};
ghost use Rattle.seq_run.specs.Running.{change_of};
ghost use Rattle.cddl_examples.specs.Checking.{IsLine, IsPrinted};

use cddl::{Counted, Refusal, read_specification, table_has_root, write_bytes};
use std::alloc::{AllocError, Global};
use std::io::Write;

/// Prints `accepted`, or what is wrong with the text (RFC 8610) and at which byte, as `refused: C3 Undefined at byte 4`, with a
/// line feed. It answers whether the whole line went out.
///
/// # Errors
///
/// An allocation was refused: nothing went out.
pub fn print_check<W: Write>(
    alloc: Global,
    text: &[u8],
    out: &mut Counted<W>,
) -> Result<bool, AllocError>
    ensures printed { IfOk result (IsPrinted text.now (change_of W.contents out.old out.new)) }
    ensures silent { IfErr result (λ _. out.new ≡ out.old) }
{
    table_has_root();
    let refusal = match read_specification(alloc, text, None) {
        Ok(_) => return Ok(print_line(b"accepted\n", out)),
        Err(Refusal::At(code, at)) => Refusal::At(code, at),
        Err(Refusal::Memory) => return Err(AllocError),
    };
    let line = line_of(alloc, refusal)?;
    Ok(print_line(line.as_bytes(), out))
}

fn line_of(alloc: Global, refusal: Refusal) -> Result<String, AllocError>
    ensures { IfOk result (λ line. string_bytes line ≡ refusal_text refusal ++ codes "\n") }
{
    format!(in alloc; "{refusal}\n")
}

fn print_line<W: Write>(line: &[u8], out: &mut Counted<W>) -> bool
    ensures { IsLine line.now (change_of W.contents out.old out.new) result }
{
    match write_bytes(line, out) {
        Ok(()) => true,
        Err(_) => false,
    }
}
