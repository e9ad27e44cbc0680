//! A program that answers lines.

ghost use Rattle.std.specs.Prelude.{◌≡◌, ◌≢◌, ◌⊎◌, ◌++◌, ⊤, ℕ, List, [], IfErr, IfSome, IsOk, OnOk, codes, string_bytes};
ghost use Rattle.std.specs.Io.KnownBytes.{Appends};
ghost use Rattle.std.specs.IoError.{error_kind};
ghost use Rattle.std.specs.Process.{exit_status};
ghost use Rattle.call_lines.specs.Lines.{AreAnswered};

use std::alloc::{AllocError, Global};
use std::io::{self, ErrorKind, Read, Write};
use std::process::ExitCode;

// The statuses of a program that did not answer all lines: it could not read or write, or it had no memory.
const BROKEN: u8 = 1;

const NO_MEMORY: u8 = 3;

/// What answers lines, one after the other.
pub trait Answers {
    /// Holds of what it is before a line, of the line and its answer, and of what it is then.
    ghost answers: { Self → List ℕ → List ℕ → Self → Type 0 } = { λ _ _ _ _. ⊤ };

    /// Adds the answer to a line.
    ///
    /// # Errors
    ///
    /// An allocation was refused.
    fn answer(&mut self, line: &str, out: &mut String) -> Result<(), AllocError>
        ensures { string_bytes out.old ≡ [] → OnOk result (answers self.old line.now (string_bytes out.new) self.new) };
}

/// Answers the lines of `input` on `out`, each by a line, in their order. It answers the status of a program that does this: 0; 3
/// where there was no memory, which it says on `err`; and 1 where `input` could not be read or is not UTF-8, or `out` failed.
pub fn run<A: Answers, R: Read, W: Write, E: Write>(
    alloc: Global,
    answers: &mut A,
    input: &mut R,
    out: &mut W,
    err: &mut E,
) -> ExitCode
    ensures answered { exit_status result ≡ 0 → IfSome (R.remaining input.old) (λ text.
        (output : List ℕ) × AreAnswered A.answers answers.old text output answers.new × Appends (W.contents out.old) (W.contents out.new) output) }
    ensures status { (exit_status result ≡ 0) ⊎ ((exit_status result ≡ BROKEN) ⊎ (exit_status result ≡ NO_MEMORY)) }
    ensures quiet { exit_status result ≢ NO_MEMORY → err.new ≡ err.old }
{
    match status_of(&answer_lines(alloc, answers, input, out)) {
        NO_MEMORY => say_no_memory(err),
        status => ExitCode::from(status),
    }
}

/// Says on `err` that there was no memory, and answers the status. A failed write is passed over.
pub fn say_no_memory<E: Write>(err: &mut E) -> ExitCode
    ensures { exit_status result ≡ NO_MEMORY }
{
    let _ = put_no_memory(err);
    ExitCode::from(NO_MEMORY)
}

fn answer_lines<A: Answers, R: Read, W: Write>(
    alloc: Global,
    answers: &mut A,
    input: &mut R,
    out: &mut W,
) -> io::Result<()>
    ensures { OnOk result (IfSome (R.remaining input.old) (λ text.
        (output : List ℕ) × AreAnswered A.answers answers.old text output answers.new × Appends (W.contents out.old) (W.contents out.new) output)) }
{
    let mut text = String::new(alloc);
    input.read_to_string(&mut text)?;
    answer_all(alloc, answers, text.as_str(), out)
}

fn answer_all<A: Answers, W: Write>(
    alloc: Global,
    answers: &mut A,
    text: &str,
    out: &mut W,
) -> io::Result<()>
    ensures { OnOk result ((output : List ℕ) × AreAnswered A.answers answers.old text.now output answers.new
        × Appends (W.contents out.old) (W.contents out.new) output) }
{
    for line in text.lines() {
        write_answer(alloc, answers, line, out)?;
    }
    Ok(())
}

fn write_answer<A: Answers, W: Write>(
    alloc: Global,
    answers: &mut A,
    line: &str,
    out: &mut W,
) -> io::Result<()>
    ensures { OnOk result ((answer : List ℕ) × A.answers answers.old line.now answer answers.new
        × Appends (W.contents out.old) (W.contents out.new) (answer ++ codes "\n")) }
{
    let mut text = String::new(alloc);
    answers.answer(line, &mut text)?;
    text.push('\n')?;
    out.write_all(text.as_str().as_bytes())
}

fn status_of(answered: &io::Result<()>) -> u8
    ensures answered { IsOk answered.now → result ≡ 0 }
    ensures memory { IfErr answered.now (λ e. error_kind e ≡ ErrorKind.OutOfMemory → result ≡ NO_MEMORY) }
    ensures broken { IfErr answered.now (λ e. error_kind e ≢ ErrorKind.OutOfMemory → result ≡ BROKEN) }
{
    match answered {
        Ok(()) => 0,
        Err(error) if error.kind() == ErrorKind::OutOfMemory => NO_MEMORY,
        Err(_) => BROKEN,
    }
}

fn put_no_memory<E: Write>(err: &mut E) -> io::Result<()>
    ensures { OnOk result (Appends (E.contents err.old) (E.contents err.new) (codes "out of memory\n")) }
{
    err.write_all(b"out of memory\n")
}
