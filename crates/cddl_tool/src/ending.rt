//! What is reported for the end of a stream: its line, where items are rewritten, and why an item does not match, where that is
//! wanted.

ghost use Rattle.std.specs.Prelude.{◌≡◌, ◌≢◌, ◌++◌, ℕ, List, [], IfErr, IfOk, option_copied, option_map, string_bytes};
ghost use Rattle.seq_run.specs.Report.{IsShown};
ghost use Rattle.seq_run.specs.Running.{change_of};
ghost use Rattle.cddl_tool.specs.Acting.{status_for, told_of, IsSaid};
ghost use Rattle.cddl_tool.specs.Reasons.{wanted_text, AreReasons, AreWanted, IsTold};

use crate::acting::{file_of, root_of, specification_for};
use cbor_item::{Counted, Sound};
use cddl_mismatch::explained_mismatch;
use command_line::{FAILED, Options, Task, say, say_no_memory};
use seq_run::{End, end_line};
use std::alloc::{AllocError, Global};
use std::io::Write;

// The text that reasons are determined from: none where they are not wanted.
pub(crate) fn wanted_text<'s>(options: &Options, text: &'s [u8]) -> Option<&'s [u8]>
    ensures { option_map (λ t. t.now) result ≡ wanted_text options.now text.now }
{
    if options.explain {
        Some(specification_for(options.task, text))
    } else {
        None
    }
}

// Says what is reported for the end of a stream, and answers the status.
pub(crate) fn tell_end<E: Write>(
    alloc: Global,
    options: &Options,
    text: Option<&[u8]>,
    end: &End,
    rejected: Option<&Sound>,
    err: &mut Counted<E>,
) -> u8
    requires { IsShown end.now (option_copied rejected) }
    ensures told { IsTold options.now (option_map (λ t. t.now) text.entry) end.now (option_copied rejected.entry) (change_of E.contents err.old err.new) result }
    ensures quiet { options.now.task ≢ Task.Rewrite → (AreWanted (option_map (λ t. t.now) text.entry) (option_copied rejected.entry) → ⊥) → err.new ≡ err.old }
{
    match options.task {
        Task::Rewrite => tell_line(alloc, options, text, end, rejected, err),
        Task::Check | Task::Validate | Task::Show | Task::Explain => {
            tell_reasons(alloc, options, text, end, rejected, err)
        }
    }
}

// Says the line of the end with the reasons, and answers the status.
fn tell_line<E: Write>(
    alloc: Global,
    options: &Options,
    text: Option<&[u8]>,
    end: &End,
    rejected: Option<&Sound>,
    err: &mut Counted<E>,
) -> u8
    requires shown { IsShown end.now (option_copied rejected) }
    requires rewrites { options.now.task ≡ Task.Rewrite }
    ensures { IsTold options.now (option_map (λ t. t.now) text.entry) end.now (option_copied rejected.entry) (change_of E.contents err.old err.new) result }
{
    match line_with_reasons(alloc, options, text, end, rejected) {
        Ok(line) => {
            say(line.as_slice(), err);
            status_of(end)
        }
        Err(_) => say_no_memory(err),
    }
}

// The line of the end, and the reasons after it: one text, which is written in one piece.
fn line_with_reasons(
    alloc: Global,
    options: &Options,
    text: Option<&[u8]>,
    end: &End,
    rejected: Option<&Sound>,
) -> Result<Vec<u8>, AllocError>
    requires { IsShown end.now (option_copied rejected) }
    ensures { IfOk result (λ line. (reasons : List ℕ) × AreReasons options.now (option_map (λ t. t.now) text.entry) (option_copied rejected.entry) reasons × (line.items ≡ told_of Task.Rewrite end.now (option_copied rejected.entry) ++ reasons)) }
{
    let mut line = end_line(alloc, end, rejected)?;
    let reasons = reasons_of(alloc, options, text, rejected)?;
    line.extend_from_slice(reasons.as_str().as_bytes())?;
    Ok(line)
}

// Says the reasons alone, if there are any, and answers the status.
fn tell_reasons<E: Write>(
    alloc: Global,
    options: &Options,
    text: Option<&[u8]>,
    end: &End,
    rejected: Option<&Sound>,
    err: &mut Counted<E>,
) -> u8
    requires { options.now.task ≢ Task.Rewrite }
    ensures told { IsTold options.now (option_map (λ t. t.now) text.entry) end.now (option_copied rejected.entry) (change_of E.contents err.old err.new) result }
    ensures quiet { (AreWanted (option_map (λ t. t.now) text.entry) (option_copied rejected.entry) → ⊥) → err.new ≡ err.old }
{
    match reasons_of(alloc, options, text, rejected) {
        Ok(reasons) => {
            say_text(reasons.as_str(), err);
            status_of(end)
        }
        Err(_) => say_no_memory(err),
    }
}

// Says a text, unless it is empty.
fn say_text<E: Write>(text: &str, err: &mut Counted<E>)
    ensures said { IsSaid (change_of E.contents err.old err.new) text.now }
    ensures nothing { text.now ≡ [] → err.new ≡ err.old }
{
    if !text.is_empty() {
        say(text.as_bytes(), err);
    }
}

// Why the item that was rejected, if one was, does not match: nothing where no text is given.
fn reasons_of(
    alloc: Global,
    options: &Options,
    text: Option<&[u8]>,
    rejected: Option<&Sound>,
) -> Result<String, AllocError>
    ensures reasons { IfOk result (λ told. AreReasons options.now (option_map (λ t. t.now) text.entry) (option_copied rejected.entry) (string_bytes told)) }
    ensures wanted { IfErr result (λ _. AreWanted (option_map (λ t. t.now) text.entry) (option_copied rejected.entry)) }
{
    let Some(text) = text else {
        return Ok(String::new(alloc));
    };
    let Some(item) = rejected else {
        return Ok(String::new(alloc));
    };
    explained_mismatch(
        alloc,
        text,
        root_of(options),
        file_of(options),
        item,
        options.steps,
    )
}

fn status_of(end: &End) -> u8
    ensures { result ≡ status_for end.now }
{
    match end {
        End::Clean { .. } => 0,
        End::Failed { .. } => FAILED,
    }
}
