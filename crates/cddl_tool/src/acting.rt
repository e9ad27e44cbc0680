//! What the program does with a specification and a stream.

ghost use Rattle.std.specs.Prelude.{◌≡◌, ◌≢◌, ◌⊎◌, ℕ, List, None, Option, IfOk, IfErr, IfSome, OnOk, option_map, string_bytes};
ghost use Rattle.item_nodes.specs.Counted.{device_of};
ghost use Rattle.cddl_check.specs.Text.{IsUnreadText};
ghost use Rattle.cddl_table.specs.Text.{IsTabledText};
ghost use Rattle.seq_run.specs.Judge.{judge_of};
ghost use Rattle.seq_run.specs.Running.{change_of};
ghost use Rattle.command_line.specs.Lines.{memory_line};
ghost use Rattle.cddl_tool.specs.Further.{IsReason};
ghost use Rattle.cddl_tool.specs.Acting.{fault_line, limits_of, mode_of, refusal_line, report_mode_of, rewrite_mode_of, named_file, specification_of, wanted_root, wanted_word, HasNoStream, IsAcceptance, IsAnswered, IsBroken, IsExplained, IsSaid, IsToldRefusal, IsTurnedDown};
ghost use Rattle.cddl_tool.specs.Reasons.{IsAnsweredWith, IsBrokenWith};

use crate::ending::tell_end;
use crate::further::explained;
use crate::progress::{Screen, run_shown};
use cbor_item::{Counted, write_bytes};
use cbor_read::Limits;
use cddl_explain::{explanation, subject_of};
use cddl_table::read_specification;
use cddl_token::Refusal;
use check_text::Fault;
use command_line::{
    BROKEN, Options, REFUSED, Task, say, say_no_memory, say_read_failed, say_unexplained,
    say_write_failed,
};
use seq_run::{Mode, RunFault, Unwatched};
use std::alloc::{AllocError, Global};
use std::io::{Read, Write};
use table_nodes::Table;

/// Reads the specification: `spec`, or to show a stream or to explain a code `a = any`. The root is the name that the options give, or the first
/// rule.
///
/// # Errors
///
/// The exit status, with a line on `err`: [`REFUSED`], with the line `refused: CODE NAME at byte OFFSET`, where the text is no
/// specification, or one that this version does not take; [`BROKEN`] where an allocation was refused. Where the options want a
/// refusal explained, what [`explained_refusal`] tells of it is on `err`, which begins with that line.
pub fn ready<E: Write>(
    alloc: Global,
    options: &Options,
    spec: &[u8],
    err: &mut Counted<E>,
) -> Result<Table, u8>
    ensures found { IfOk result (IsTabledText (specification_of options.now.task spec.now) (wanted_root options.now)) }
    ensures quiet { OnOk result (err.new ≡ err.old) }
    ensures refused { IfErr result (IsTurnedDown options.now (specification_of options.now.task spec.now) (change_of E.contents err.old err.new)) }
{
    let text = specification_for(options.task, spec);
    match read_specification(alloc, text, root_of(options)) {
        Ok(table) => Ok(table),
        Err(why) => Err(say_unread(alloc, options, text, why, err)),
    }
}

// The name of the root, if the options have one.
pub(crate) fn root_of(options: &Options) -> Option<&str>
    ensures { option_map (λ r. r.now) result ≡ wanted_root options.now }
{
    match &options.root {
        Some(name) => Some(name.as_str()),
        None => None,
    }
}

// The name of the file with the specification: an empty one where the task has none.
pub(crate) fn file_of(options: &Options) -> &str
    ensures { result.now ≡ named_file options.now }
{
    match &options.spec {
        Some(name) => name.as_str(),
        None => "",
    }
}

// Says why a text has no table, and answers the status.
fn say_unread<E: Write>(
    alloc: Global,
    options: &Options,
    text: &[u8],
    why: Refusal,
    err: &mut Counted<E>,
) -> u8
    ensures { IsUnreadText text.now (wanted_root options.now) why → IsTurnedDown options.now text.now (change_of E.contents err.old err.new) result }
{
    match why {
        Refusal::At(code, at) => say_refused(alloc, options, text, Fault { code, at }, err),
        Refusal::Memory => say_no_memory(err),
    }
}

// Says what is wrong with a text, and answers the status.
fn say_refused<E: Write>(
    alloc: Global,
    options: &Options,
    text: &[u8],
    fault: Fault,
    err: &mut Counted<E>,
) -> u8
    ensures { ((result ≡ REFUSED) × ((told : List ℕ) × IsToldRefusal options.now text.now fault told × IsSaid (change_of E.contents err.old err.new) told))
        ⊎ ((result ≡ BROKEN) × IsSaid (change_of E.contents err.old err.new) memory_line) }
{
    match told_of_refusal(alloc, options, text, fault) {
        Ok(told) => {
            say(told.as_str().as_bytes(), err);
            REFUSED
        }
        Err(_) => say_no_memory(err),
    }
}

// What is reported for a text that is refused: one text, which is written in one piece.
#[tactic(auto, using(crate::proofs::Refusing::told_line, crate::proofs::Refusing::told_reason))]
fn told_of_refusal(
    alloc: Global,
    options: &Options,
    text: &[u8],
    fault: Fault,
) -> Result<String, AllocError>
    ensures { IfOk result (λ told. IsToldRefusal options.now text.now fault (string_bytes told)) }
{
    if options.explain {
        reason_of(alloc, options, text, fault)
    } else {
        line_of(alloc, fault)
    }
}

// The line of the refusal, with where it is and what is wrong, and what else is.
fn reason_of(
    alloc: Global,
    options: &Options,
    text: &[u8],
    fault: Fault,
) -> Result<String, AllocError>
    ensures { IfOk result (λ told. IsReason fault (named_file options.now) text.now (wanted_root options.now) (string_bytes told)) }
{
    explained(alloc, fault, file_of(options), text, root_of(options))
}

// The line that tells what is wrong with a text.
fn line_of(alloc: Global, fault: Fault) -> Result<String, AllocError>
    ensures { IfOk result (λ line. string_bytes line ≡ refusal_line fault) }
{
    let refusal = Refusal::At(fault.code, fault.at);
    format!(in alloc; "{refusal}\n")
}

// The text of a task's specification.
pub(crate) fn specification_for(task: Task, spec: &[u8]) -> &[u8]
    ensures { result.now ≡ specification_of task spec.now }
{
    match task {
        Task::Check | Task::Validate | Task::Rewrite => spec,
        Task::Show | Task::Explain => b"a = any",
    }
}

/// Does what the task asks for, over the table of the specification, and answers the status.
///
/// - [`Task::Check`]: writes the line `accepted` to `out`, and reads nothing. The status is 0.
/// - [`Task::Validate`] and [`Task::Show`]: validates the stream of `input`, and writes its report to `out`, or only the line of
///   the end where the options are quiet. The status is 0 where the stream is clean, and [`FAILED`] where it failed.
/// - [`Task::Rewrite`]: writes the items that match to `out`, encoded as the options say, and the line of the end to `err`. The
///   status is as before.
///
/// - [`Task::Explain`]: writes what the code or the cause means to `out`, and reads nothing. The status is 0, and [`BROKEN`]
///   where there is no such code or cause, with a line on `err`.
///
/// Where a read, a write or an allocation fails the status is [`BROKEN`], with a line on `err`. Why an item does not match is
/// reported by [`act_watched`](crate::act_watched) alone, which has the text.
pub fn act<R: Read, W: Write, E: Write>(
    alloc: Global,
    options: &Options,
    table: &Table,
    input: &mut Counted<R>,
    out: &mut Counted<W>,
    err: &mut Counted<E>,
) -> u8
    ensures accepted { options.now.task ≡ Task.Check → IsAcceptance (change_of W.contents out.old out.new) (change_of E.contents err.old err.new) result }
    ensures explained { options.now.task ≡ Task.Explain → IsExplained (wanted_word options.now) (change_of W.contents out.old out.new) (change_of E.contents err.old err.new) result }
    ensures unread { HasNoStream options.now.task → input.new ≡ input.old }
    ensures answered { (HasNoStream options.now.task → ⊥) → result ≢ BROKEN → IfSome (R.remaining (device_of input.old)) (λ stream.
        IsAnswered options.now (judge_of table.now options.now.steps) stream (change_of W.contents out.old out.new) (change_of E.contents err.old err.new) result) }
    ensures quiet { options.now.task ≢ Task.Rewrite → result ≢ BROKEN → err.new ≡ err.old }
    ensures broken { (HasNoStream options.now.task → ⊥) → result ≡ BROKEN → IsBroken options.now (judge_of table.now options.now.steps)
        (change_of R.remaining input.old input.new) (change_of W.contents out.old out.new) (change_of E.contents err.old err.new) }
{
    let mut screen = Unwatched;
    perform(alloc, options, table, None, input, out, err, &mut screen)
}

// The same, while the screen is told how far it is with a stream. Why an item of it does not match is told from the text of
// the specification, if that is given.
pub(crate) fn perform<R: Read, W: Write, E: Write, P: Screen>(
    alloc: Global,
    options: &Options,
    table: &Table,
    text: Option<&[u8]>,
    input: &mut Counted<R>,
    out: &mut Counted<W>,
    err: &mut Counted<E>,
    screen: &mut P,
) -> u8
    ensures accepted { options.now.task ≡ Task.Check → IsAcceptance (change_of W.contents out.old out.new) (change_of E.contents err.old err.new) result }
    ensures explained { options.now.task ≡ Task.Explain → IsExplained (wanted_word options.now) (change_of W.contents out.old out.new) (change_of E.contents err.old err.new) result }
    ensures unread { HasNoStream options.now.task → input.new ≡ input.old }
    ensures answered { (HasNoStream options.now.task → ⊥) → result ≢ BROKEN → IfSome (R.remaining (device_of input.old)) (λ stream.
        IsAnsweredWith options.now (judge_of table.now options.now.steps) (option_map (λ t. t.now) text.entry) stream (change_of W.contents out.old out.new) (change_of E.contents err.old err.new) result) }
    ensures quiet { options.now.task ≢ Task.Rewrite → option_map (λ t. t.now) text.entry ≡ None → result ≢ BROKEN → err.new ≡ err.old }
    ensures broken { (HasNoStream options.now.task → ⊥) → result ≡ BROKEN → IsBrokenWith options.now (judge_of table.now options.now.steps) (option_map (λ t. t.now) text.entry)
        (change_of R.remaining input.old input.new) (change_of W.contents out.old out.new) (change_of E.contents err.old err.new) }
{
    match options.task {
        Task::Check => accept(out, err),
        Task::Explain => explain(alloc, word_of(options), out, err),
        Task::Validate | Task::Rewrite | Task::Show => {
            go_through(alloc, options, table, text, input, out, err, screen)
        }
    }
}

// Writes that the specification is accepted, and answers the status.
fn accept<W: Write, E: Write>(out: &mut Counted<W>, err: &mut Counted<E>) -> u8
    ensures accepted { IsAcceptance (change_of W.contents out.old out.new) (change_of E.contents err.old err.new) result }
    ensures quiet { result ≢ BROKEN → err.new ≡ err.old }
{
    match write_bytes(b"accepted\n", out) {
        Ok(()) => 0,
        Err(fault) => say_write_failed(fault.written, err),
    }
}

// What is to be explained: without a word, the empty one.
fn word_of(options: &Options) -> &str
    ensures { result.now ≡ wanted_word options.now }
{
    match &options.code {
        Some(word) => word.as_str(),
        None => "",
    }
}

// Writes what a code or a cause means, and answers the status.
fn explain<W: Write, E: Write>(
    alloc: Global,
    word: &str,
    out: &mut Counted<W>,
    err: &mut Counted<E>,
) -> u8
    ensures explained { IsExplained word.now (change_of W.contents out.old out.new) (change_of E.contents err.old err.new) result }
    ensures quiet { result ≢ BROKEN → err.new ≡ err.old }
{
    let Some(subject) = subject_of(word) else {
        return say_unexplained(alloc, word, err);
    };
    let Ok(text) = explanation(alloc, subject) else {
        return say_no_memory(err);
    };
    match write_bytes(text.as_str().as_bytes(), out) {
        Ok(()) => 0,
        Err(fault) => say_write_failed(fault.written, err),
    }
}

// Goes through the stream, writes what the task asks for, and answers the status. How far it is is shown on the screen.
fn go_through<R: Read, W: Write, E: Write, P: Screen>(
    alloc: Global,
    options: &Options,
    table: &Table,
    text: Option<&[u8]>,
    input: &mut Counted<R>,
    out: &mut Counted<W>,
    err: &mut Counted<E>,
    screen: &mut P,
) -> u8
    ensures answered { result ≢ BROKEN → IfSome (R.remaining (device_of input.old)) (λ stream.
        IsAnsweredWith options.now (judge_of table.now options.now.steps) (option_map (λ t. t.now) text.entry) stream (change_of W.contents out.old out.new) (change_of E.contents err.old err.new) result) }
    ensures quiet { options.now.task ≢ Task.Rewrite → option_map (λ t. t.now) text.entry ≡ None → result ≢ BROKEN → err.new ≡ err.old }
    ensures broken { result ≡ BROKEN → IsBrokenWith options.now (judge_of table.now options.now.steps) (option_map (λ t. t.now) text.entry)
        (change_of R.remaining input.old input.new) (change_of W.contents out.old out.new) (change_of E.contents err.old err.new) }
{
    let mode = mode_for(options);
    let limits = limits_for(options);
    match run_shown(
        alloc,
        table,
        limits,
        options.steps,
        mode,
        input,
        out,
        screen,
    ) {
        Ok((end, rejected)) => {
            let status = tell_end(alloc, options, text, &end, rejected.as_ref(), err);
            drop(rejected);
            status
        }
        Err(fault) => say_fault(fault, err),
    }
}

// The limits of items. The numbers of the options are in their ranges.
fn limits_for(options: &Options) -> Limits
    ensures { result ≡ limits_of options.now }
{
    match Limits::try_new(options.depth, options.item_bytes) {
        Some(limits) => limits,
        None => unreachable!(),
    }
}

// What is written of a stream.
fn mode_for(options: &Options) -> Mode
    ensures { result ≡ mode_of options.now.task options.now.quiet options.now.deterministic }
{
    match options.task {
        Task::Rewrite => rewrite_mode(options.deterministic),
        Task::Check | Task::Validate | Task::Show | Task::Explain => report_mode(options.quiet),
    }
}

fn report_mode(quiet: bool) -> Mode
    ensures { result ≡ report_mode_of quiet }
{
    if quiet { Mode::EndLine } else { Mode::Report }
}

fn rewrite_mode(deterministic: bool) -> Mode
    ensures { result ≡ rewrite_mode_of deterministic }
{
    if deterministic {
        Mode::Deterministic
    } else {
        Mode::Rewrite
    }
}

// Says why a run stopped, and answers the status.
fn say_fault<E: Write>(fault: RunFault, err: &mut Counted<E>) -> u8
    ensures status { result ≡ BROKEN }
    ensures line { IsSaid (change_of E.contents err.old err.new) (fault_line fault) }
{
    match fault {
        RunFault::ReadFailed(items) => say_read_failed(items, err),
        RunFault::WriteFailed(bytes) => say_write_failed(bytes, err),
        RunFault::Memory(_) => say_no_memory(err),
    }
}
