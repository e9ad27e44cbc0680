//! The words of the command line.

ghost use Rattle.std.specs.Prelude.{◌≡◌, ℕ, ◌≤◌, codes, false, map, IfOk, IfErr, IfSome, IfNone, option_map, string_bytes};
ghost use Rattle.clap.specs.Words.{app_of, first_value, found_of, one_text, rows_of, rule_of, with_rule};
ghost use Rattle.clap.specs.declared.builder.command.Command.TheViews.{out-Command};
ghost use Rattle.command_line.specs.Chosen.{check_app, code_rule, explain_app, file_rule, flag_rule, is_set, judging_app, most_steps, number_rule, program_app, rewrite_app, root_rule, show_app, spec_app, spec_rule, steps_rule, stream_app, top_app, validate_app, AreChosen, AreRead, AreTaskSteps, AreUnread, IsMisuse, IsNumber, IsStreamNumber, IsToldOf};

use crate::choice::{ITEM_BYTES, Options, STEPS, Task, Use};
use cbor_read::{MOST_DEPTH, MOST_ITEM_BYTES};
use clap::builder::ValueParser;
use clap::error::ErrorKind;
use clap::{Arg, ArgAction, ArgMatches, Command, Error};
use std::alloc::{AllocError, Global};
use text_shown::push_shown;

/// The version of the program.
pub const VERSION: &str = "0.1.0";

// What the help of each command ends with: an example, and the exit statuses.
const CHECK_HELP: &str = "\
Example:
  cddlseq check messages.cddl

Exit status:
  0  The specification is accepted
  2  The specification is refused: standard error says why
  3  The command line, a file, a device or memory failed
";

const VALIDATE_HELP: &str = "\
Example:
  cddlseq validate messages.cddl messages.cborseq

Exit status:
  0  All of the stream is items that match
  1  The stream failed: the last line says where and why
  2  The specification is refused: standard error says why
  3  The command line, a file, a device or memory failed
";

const REWRITE_HELP: &str = "\
Example:
  cddlseq rewrite messages.cddl < messages.cborseq > preferred.cborseq

The line of the end goes to standard error.

Exit status:
  0  All of the stream is items that match
  1  The stream failed: the line of the end says where and why
  2  The specification is refused: standard error says why
  3  The command line, a file, a device or memory failed
";

const EXPLAIN_HELP: &str = "\
Codes, by number or by name:
  S1 NotUtf8, S2 BadCharacter, S3 Unclosed, S4 BadEscape, S5 BadNumber, S6 FloatLiteral, S7 NumberTooLarge,
  S8 BadBytes, S9 SourceTooLong, S10 Unexpected, S11 TooNested,
  C1 Duplicate, C2 KindClash, C3 Undefined, C4 Arity, C5 NoRoot, C6 BadRoot, C7 GroupAsType, C8 HashForm,
  C9 UnknownControl, C10 TooManyInstances, C11 NotUnwrappable, C12 Recursion, C13 NotLiteral, C14 BadRange,
  C15 BadController, C16 NoKey, C17 MapShape, C18 TooManyAlternatives

Causes of failing items, each one word of the command line, in quotes:
  'reserved additional information', 'indefinite length not allowed', 'break not allowed', 'bad chunk',
  'bad simple value', 'too deep', 'item too long', 'truncated', 'text is not UTF-8', 'duplicate key',
  'mismatch', 'step limit reached'

Example:
  cddlseq explain C3

Exit status:
  0  It is explained
  3  There is no such code or cause, or the command line, a device or memory failed
";

const SHOW_HELP: &str = "\
Example:
  cddlseq show messages.cborseq

Exit status:
  0  All of the stream is items
  1  The stream failed: the last line says where and why
  3  The command line, a file, a device or memory failed
";

/// Reads the words of the command line, the program's name first: `check SPEC`, `validate SPEC [FILE]`,
/// `rewrite SPEC [FILE]`, `show [FILE]` or `explain CODE`; where there is a SPEC with `--root NAME` and `--explain`; where there is a stream with
/// `--depth N`, from 1 to [`MOST_DEPTH`], and `--item-bytes N`, from 1 to [`MOST_ITEM_BYTES`]; where there are both with
/// `--steps N`, from 1, and `--no-progress`; `validate` with `--quiet`, and `rewrite` with `--deterministic`. The defaults are [`MOST_DEPTH`],
/// [`ITEM_BYTES`] and [`STEPS`], also where a command has no such option.
///
/// # Errors
///
/// [`Use::Words`] where the words are no such command, or ask for help or by `--version` for the version; [`Use::Memory`]
/// where an allocation was refused. What clap says of wrong words has no control characters of theirs: each is shown as `\u`
/// and four hex digits.
pub fn options(alloc: Global, words: &[&str]) -> Result<Options, Use>
    ensures chosen { IfOk result (λ o. AreChosen o (map (λ w. w.now) words.entry.now)) }
    ensures misuse { IfErr result (IsMisuse (map (λ w. w.now) words.entry.now)) }
{
    match chosen(alloc, words) {
        Ok(options) => Ok(options),
        Err(why) => Err(told(alloc, words, why)),
    }
}

// Why the words give no options, in words that can be printed: clap tells it of the words as they are shown.
fn told(alloc: Global, words: &[&str], why: Use) -> Use
    ensures { IsToldOf why result }
{
    match why {
        Use::Words(error) => {
            if !error.use_stderr() {
                return Use::Words(error);
            }
            match shown_misuse(alloc, words) {
                Ok(why) => why,
                Err(_) => Use::Memory,
            }
        }
        Use::Memory => Use::Memory,
    }
}

// What clap says of the words as they are shown. It takes no such words where it refuses them as they are.
fn shown_misuse(alloc: Global, words: &[&str]) -> Result<Use, AllocError> {
    let shown = shown_words(alloc, words)?;
    match command(alloc)?.try_get_matches_from(shown.as_slice()) {
        Ok(_) => Ok(misuse(alloc, ErrorKind::InvalidValue, "the words give no options")),
        Err(error) => Ok(Use::from(error)),
    }
}

fn shown_words(alloc: Global, words: &[&str]) -> Result<Vec<String>, AllocError> {
    let mut shown = Vec::new(alloc);
    for word in words {
        let mut text = String::new(alloc);
        push_shown(&mut text, *word)?;
        shown.push(text)?;
    }
    Ok(shown)
}

// The options that the words give.
fn chosen(alloc: Global, words: &[&str]) -> Result<Options, Use>
    ensures chosen { IfOk result (λ o. AreChosen o (map (λ w. w.now) words.entry.now)) }
    ensures misuse { IfErr result (IsMisuse (map (λ w. w.now) words.entry.now)) }
{
    let matches = command(alloc)?.try_get_matches_from(words)?;
    if let Some(given) = matches.subcommand_matches("check") {
        return options_of(alloc, Task::Check, given);
    }
    if let Some(given) = matches.subcommand_matches("validate") {
        return options_of(alloc, Task::Validate, given);
    }
    if let Some(given) = matches.subcommand_matches("rewrite") {
        return options_of(alloc, Task::Rewrite, given);
    }
    if let Some(given) = matches.subcommand_matches("show") {
        return options_of(alloc, Task::Show, given);
    }
    if let Some(given) = matches.subcommand_matches("explain") {
        return options_of(alloc, Task::Explain, given);
    }
    Err(misuse(alloc, ErrorKind::MissingSubcommand, "no command is given"))
}

// The options of a task among what was given with it.
fn options_of(alloc: Global, task: Task, given: &ArgMatches<'_>) -> Result<Options, Use>
    ensures read { IfOk result (AreRead task (rows_of (found_of given.now))) }
    ensures misuse { IfErr result (AreUnread task (rows_of (found_of given.now))) }
{
    let code = value(alloc, given, "code")?;
    let spec = value(alloc, given, "spec")?;
    let file = value(alloc, given, "file")?;
    let root = value(alloc, given, "root")?;
    let Some(depth) = stream_number(task, given, "depth", MOST_DEPTH, MOST_DEPTH) else {
        return Err(range_error(alloc));
    };
    let Some(item_bytes) = stream_number(task, given, "item-bytes", ITEM_BYTES, MOST_ITEM_BYTES)
    else {
        return Err(range_error(alloc));
    };
    let Some(steps) = task_steps(task, given) else {
        return Err(range_error(alloc));
    };
    Ok(Options {
        task,
        code,
        spec,
        file,
        root,
        steps,
        depth,
        item_bytes,
        quiet: is_given(given, "quiet"),
        deterministic: is_given(given, "deterministic"),
        explain: is_given(given, "explain"),
        no_progress: is_given(given, "no-progress"),
    })
}

// The number of an option of a stream, if it is one from 1 to `most`. Where the task has no stream it is the default.
fn stream_number(
    task: Task,
    given: &ArgMatches<'_>,
    name: &str,
    default: u32,
    most: u32,
) -> Option<u32>
    requires { (1 ≤ default) × (default ≤ most) }
    ensures some { IfSome result (IsStreamNumber task default most (one_text (found_of given.now) name.now)) }
    ensures range { IfSome result (λ n. (1 ≤ n) × (n ≤ most)) }
    ensures none { IfNone result ((n : ℕ) → IsStreamNumber task default most (one_text (found_of given.now) name.now) n → ⊥) }
{
    match task {
        Task::Check => Some(default),
        Task::Validate => number(given, name, most),
        Task::Rewrite => number(given, name, most),
        Task::Show => number(given, name, most),
        Task::Explain => Some(default),
    }
}

// The steps of a task: those of its option, and the default where it has none.
fn task_steps(task: Task, given: &ArgMatches<'_>) -> Option<u64>
    ensures some { IfSome result (AreTaskSteps task (one_text (found_of given.now) (codes "steps"))) }
    ensures none { IfNone result ((steps : ℕ) → AreTaskSteps task (one_text (found_of given.now) (codes "steps")) steps → ⊥) }
{
    match task {
        Task::Check => Some(STEPS),
        Task::Validate => steps_of(given),
        Task::Rewrite => steps_of(given),
        Task::Show | Task::Explain => Some(STEPS),
    }
}

// The steps that their option gives, if it is a number in its range.
fn steps_of(given: &ArgMatches<'_>) -> Option<u64>
    ensures some { IfSome result (IsNumber most_steps (one_text (found_of given.now) (codes "steps"))) }
    ensures none { IfNone result ((n : ℕ) → IsNumber most_steps (one_text (found_of given.now) (codes "steps")) n → ⊥) }
{
    let n = given.get_one::<u64>("steps")?;
    if n >= 1 { Some(n) } else { None }
}

fn range_error(alloc: Global) -> Use {
    misuse(
        alloc,
        ErrorKind::ValueValidation,
        "a number is out of its range",
    )
}

// The error of words that give no options.
fn misuse(alloc: Global, kind: ErrorKind, message: &str) -> Use {
    match words_error(alloc, kind, message) {
        Ok(error) => Use::Words(error),
        Err(_) => Use::Memory,
    }
}

fn command<'a>(alloc: Global) -> Result<Command<'a>, AllocError>
    ensures { IfOk result (λ c. app_of c ≡ program_app) }
{
    top_command(alloc)
        .subcommand(check_command(alloc)?)?
        .subcommand(validate_command(alloc)?)?
        .subcommand(rewrite_command(alloc)?)?
        .subcommand(show_command(alloc)?)?
        .subcommand(explain_command(alloc)?)
}

// The program's command, before it has subcommands.
fn top_command<'a>(alloc: Global) -> Command<'a>
    ensures app { app_of result ≡ top_app }
    ensures local { (out-Command result).has_globals ≡ false }
{
    Command::new(alloc, "cddlseq")
        .about("Validates sequences of CBOR items against a CDDL specification")
        .version(VERSION)
        .subcommand_required(true)
}

fn check_command<'a>(alloc: Global) -> Result<Command<'a>, AllocError>
    ensures app { IfOk result (λ c. app_of c ≡ check_app) }
    ensures local { IfOk result (λ c. (out-Command c).has_globals ≡ false) }
{
    let command = Command::new(alloc, "check")
        .about("Says whether the specification is accepted")
        .after_help(CHECK_HELP);
    with_specification(alloc, command)
}

fn validate_command<'a>(alloc: Global) -> Result<Command<'a>, AllocError>
    ensures app { IfOk result (λ c. app_of c ≡ validate_app) }
    ensures local { IfOk result (λ c. (out-Command c).has_globals ≡ false) }
{
    let command = Command::new(alloc, "validate")
        .about("Prints a line for each item of the stream that matches, and one for its end")
        .after_help(VALIDATE_HELP);
    with_judgement(alloc, command)?.arg(flag_arg(
        alloc,
        "quiet",
        "Prints the line of the end alone",
    ))
}

fn rewrite_command<'a>(alloc: Global) -> Result<Command<'a>, AllocError>
    ensures app { IfOk result (λ c. app_of c ≡ rewrite_app) }
    ensures local { IfOk result (λ c. (out-Command c).has_globals ≡ false) }
{
    let command = Command::new(alloc, "rewrite")
        .about("Writes each item of the stream that matches in preferred encoding")
        .after_help(REWRITE_HELP);
    with_judgement(alloc, command)?.arg(flag_arg(
        alloc,
        "deterministic",
        "Writes them in deterministic encoding: pairs in the order of their keys",
    ))
}

fn show_command<'a>(alloc: Global) -> Result<Command<'a>, AllocError>
    ensures app { IfOk result (λ c. app_of c ≡ show_app) }
    ensures local { IfOk result (λ c. (out-Command c).has_globals ≡ false) }
{
    let command = Command::new(alloc, "show")
        .about("Prints a line for each item of the stream, and one for its end")
        .after_help(SHOW_HELP);
    with_stream(alloc, command)
}

fn explain_command<'a>(alloc: Global) -> Result<Command<'a>, AllocError>
    ensures app { IfOk result (λ c. app_of c ≡ explain_app) }
    ensures local { IfOk result (λ c. (out-Command c).has_globals ≡ false) }
{
    let command = Command::new(alloc, "explain")
        .about("Says what a code or a cause means, with an example")
        .after_help(EXPLAIN_HELP);
    with_code(alloc, command)
}

// The command with the code or the cause that is to be explained.
fn with_code<'a>(alloc: Global, command: Command<'a>) -> Result<Command<'a>, AllocError>
    requires { (out-Command command).has_globals ≡ false }
    ensures app { IfOk result (λ c. app_of c ≡ with_rule (app_of command.entry) code_rule) }
    ensures local { IfOk result (λ c. (out-Command c).has_globals ≡ false) }
{
    command.arg(code_arg(alloc))
}

// The command with what is taken with a specification and a stream, the steps, and whether no progress is shown.
fn with_judgement<'a>(alloc: Global, command: Command<'a>) -> Result<Command<'a>, AllocError>
    requires { (out-Command command).has_globals ≡ false }
    ensures app { IfOk result (λ c. app_of c ≡ judging_app (app_of command.entry)) }
    ensures local { IfOk result (λ c. (out-Command c).has_globals ≡ false) }
{
    with_stream(alloc, with_specification(alloc, command)?)?
        .arg(steps_arg(alloc))?
        .arg(flag_arg(
            alloc,
            "no-progress",
            "Shows no progress, where standard error is a terminal",
        ))
}

// The command with what is taken with a specification: its file, the root, and whether a refusal or a mismatch is explained.
fn with_specification<'a>(alloc: Global, command: Command<'a>) -> Result<Command<'a>, AllocError>
    requires { (out-Command command).has_globals ≡ false }
    ensures app { IfOk result (λ c. app_of c ≡ spec_app (app_of command.entry)) }
    ensures local { IfOk result (λ c. (out-Command c).has_globals ≡ false) }
{
    command
        .arg(spec_arg(alloc))?
        .arg(root_arg(alloc))?
        .arg(flag_arg(
            alloc,
            "explain",
            "Says where and why SPEC is refused, with its further faults, or an item does not match",
        ))
}

// The command with what is taken with a stream: its file and the limits.
fn with_stream<'a>(alloc: Global, command: Command<'a>) -> Result<Command<'a>, AllocError>
    requires { (out-Command command).has_globals ≡ false }
    ensures app { IfOk result (λ c. app_of c ≡ stream_app (app_of command.entry)) }
    ensures local { IfOk result (λ c. (out-Command c).has_globals ≡ false) }
{
    command
        .arg(file_arg(alloc))?
        .arg(number_arg(
            alloc,
            "depth",
            "The greatest depth of an item, 1 to 256",
            MOST_DEPTH,
            "256",
        ))?
        .arg(number_arg(
            alloc,
            "item-bytes",
            "The most bytes of an item, 1 to 67108864",
            MOST_ITEM_BYTES,
            "16777216",
        ))
}

fn code_arg<'a>(alloc: Global) -> Arg<'a>
    ensures rule { rule_of result ≡ code_rule }
    ensures own { result.global ≡ false }
{
    Arg::new(alloc, "code")
        .value_name("CODE")
        .help("A code, by its number or its name, or the words of a cause")
        .required(true)
}

fn spec_arg<'a>(alloc: Global) -> Arg<'a>
    ensures rule { rule_of result ≡ spec_rule }
    ensures own { result.global ≡ false }
{
    Arg::new(alloc, "spec")
        .value_name("SPEC")
        .help("The file with the specification, in CDDL")
        .required(true)
}

fn root_arg<'a>(alloc: Global) -> Arg<'a>
    ensures rule { rule_of result ≡ root_rule }
    ensures own { result.global ≡ false }
{
    Arg::new(alloc, "root").long("root").value_name("NAME").help(
        "The name of the rule that is the root; without it the first rule of SPEC",
    )
}

fn file_arg<'a>(alloc: Global) -> Arg<'a>
    ensures rule { rule_of result ≡ file_rule }
    ensures own { result.global ≡ false }
{
    Arg::new(alloc, "file").value_name("FILE").help(
        "The file with the stream; without it, or for -, standard input is read",
    )
}

// An option with a number from 1 to `most`.
fn number_arg<'a>(
    alloc: Global,
    name: &'a str,
    help: &'a str,
    most: u32,
    default: &'a str,
) -> Arg<'a>
    ensures rule { rule_of result ≡ number_rule name.now most default.now }
    ensures own { result.global ≡ false }
{
    Arg::new(alloc, name)
        .long(name)
        .value_name("N")
        .help(help)
        .value_parser(ValueParser::signed(1, i64::from(most)))
        .default_value(default)
}

fn steps_arg<'a>(alloc: Global) -> Arg<'a>
    ensures rule { rule_of result ≡ steps_rule }
    ensures own { result.global ≡ false }
{
    Arg::new(alloc, "steps")
        .long("steps")
        .value_name("N")
        .help("How many questions SPEC may ask of one item, from 1")
        .value_parser(ValueParser::unsigned(1, u64::MAX))
        .default_value("10000000")
}

// An option without a value.
fn flag_arg<'a>(alloc: Global, name: &'a str, help: &'a str) -> Arg<'a>
    ensures rule { rule_of result ≡ flag_rule name.now }
    ensures own { result.global ≡ false }
{
    Arg::new(alloc, name)
        .long(name)
        .help(help)
        .action(ArgAction::SetTrue)
}

fn value(alloc: Global, given: &ArgMatches<'_>, name: &str) -> Result<Option<String>, AllocError>
    ensures { IfOk result (λ o. option_map (λ s. string_bytes s) o ≡ first_value (found_of given.now) name.now) }
{
    match given.get_str(name) {
        Some(text) => Ok(Some(String::from_str(alloc, text)?)),
        None => Ok(None),
    }
}

// The number of an option, if it is one from 1 to `most`.
fn number(given: &ArgMatches<'_>, name: &str, most: u32) -> Option<u32>
    ensures some { IfSome result (IsNumber most (one_text (found_of given.now) name.now)) }
    ensures range { IfSome result (λ n. (1 ≤ n) × (n ≤ most)) }
    ensures none { IfNone result ((n : ℕ) → IsNumber most (one_text (found_of given.now) name.now) n → ⊥) }
{
    let n = given.get_one::<u32>(name)?;
    if n >= 1 && n <= most { Some(n) } else { None }
}

// Whether an option without a value is given.
fn is_given(given: &ArgMatches<'_>, name: &str) -> bool
    ensures { result ≡ is_set (first_value (found_of given.now) name.now) }
{
    match given.get_str(name) {
        Some(text) => text == "true",
        None => false,
    }
}

fn words_error(alloc: Global, kind: ErrorKind, message: &str) -> Result<Error, AllocError> {
    command(alloc)?.error(kind, message)
}
