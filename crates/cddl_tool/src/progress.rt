//! How far a run is, in one line of a terminal.

ghost use Rattle.std.specs.Prelude.{◌≡◌, ◌⊎◌, ◌↔◌, ◌+◌, ◌≤◌, ◌++◌, false, true, IfErr, IfOk, IfSome, IsTrue, None, option_and_then};
ghost use Rattle.std.specs.Time.{instant_nanos};
ghost use Rattle.arrayvec.specs.ArrayString.{array_string_len};
ghost use Rattle.item_nodes.specs.Counted.{device_of};
ghost use Rattle.seq_run.specs.Judge.{judge_of};
ghost use Rattle.seq_run.specs.Report.{IsShown};
ghost use Rattle.seq_run.specs.Running.{IsFault, WritesAll, change_of};
ghost use Rattle.command_line.specs.Lines.{IsPut};
ghost use Rattle.cddl_tool.specs.Progress.{cleared_line, has_progress, pause, percent_of, progress_line, share_text, shows_progress};
ghost use Rattle.cddl_tool.specs.Screens.{file_size, is_on_screen, screen_of, IsSilent, Shows};

use arrayvec::ArrayString;
use cbor_item::{Counted, Sound};
use cbor_read::Limits;
use command_line::{Options, Task, say};
use itoa::Buffer;
use seq_run::{End, Mode, RunFault, Unwatched, Watch, run_watched};
use std::alloc::Global;
use std::io::{Read, Write};
use std::time::{Clock, Instant};
use table_nodes::Table;

// How many bytes a line may have: 40 for each of its three numbers, and 40 for the rest.
const LINE: usize = 160;

/// A watch that shows what it is told, where that can be taken away again.
pub trait Screen: Watch {
    /// Takes away what is shown, if anything is.
    fn clear(&mut self);
}

impl Screen for Unwatched {
    fn clear(&mut self) {}
}

/// Whether progress is shown: of a validation or a rewriting, where standard error is a terminal and standard output is none,
/// unless the options say that it is not.
pub fn is_progress_shown(
    options: &Options,
    error_is_terminal: bool,
    output_is_terminal: bool,
) -> bool
    ensures { result ≡ shows_progress options.now error_is_terminal output_is_terminal }
{
    is_watched(options.task) && !options.no_progress && error_is_terminal && !output_is_terminal
}

// Whether the progress of a task is shown.
fn is_watched(task: Task) -> bool
    ensures { result ≡ has_progress task }
{
    match task {
        Task::Validate | Task::Rewrite => true,
        Task::Check | Task::Show | Task::Explain => false,
    }
}

/// Shows how many items were taken, how many bytes were read, and which share of the size that is, if it is known, in one
/// write, in place of what the line shows. It takes no memory, and a failed write is passed over.
pub fn show_progress<S: Write>(items: u64, bytes: u64, size: Option<u64>, screen: &mut Counted<S>)
    ensures { IsPut S.contents screen.old screen.new (progress_line items bytes size) }
{
    let line = line_of(items, bytes, size);
    say(line.as_str().as_bytes(), screen);
}

// The line that shows this progress.
fn line_of(items: u64, bytes: u64, size: Option<u64>) -> ArrayString<LINE>
    ensures { result.bytes ≡ progress_line items bytes size }
{
    let mut line = ArrayString::<LINE>::new();
    let mut digits = Buffer::new();
    line.push_str("\r");
    line.push_str(digits.format(items));
    line.push_str(" items, ");
    line.push_str(digits.format(bytes));
    line.push_str(" bytes");
    push_share(bytes, size, &mut line);
    line.push_str("\x1b[K");
    line
}

// Appends which share of the size these bytes are, if it is known.
fn push_share(bytes: u64, size: Option<u64>, line: &mut ArrayString<LINE>)
    requires { array_string_len line.old + 60 ≤ LINE }
    ensures text { line.new.bytes ≡ line.old.bytes ++ share_text (option_and_then (percent_of bytes) size) }
    ensures short { array_string_len line.new ≤ array_string_len line.old + 60 }
{
    let Some(size) = size else {
        return;
    };
    let Some(percent) = percent(bytes, size) else {
        return;
    };
    let mut digits = Buffer::new();
    line.push_str(", ");
    line.push_str(digits.format(percent));
    line.push_str(" %");
}

// Which whole percent of the size these bytes are, where they are no more than it.
fn percent(bytes: u64, size: u64) -> Option<u128>
    ensures { result ≡ percent_of bytes size }
{
    if size > 0 && bytes <= size {
        Some(u128::from(bytes) * 100 / u128::from(size))
    } else {
        None
    }
}

/// Takes away what the line shows. A failed write is passed over.
pub fn clear_line<S: Write>(screen: &mut Counted<S>)
    ensures { IsPut S.contents screen.old screen.new cleared_line }
{
    say(b"\r\x1b[K", screen);
}

/// Whether so long has gone by since a line was shown that the next one may be.
pub fn is_due(last: Instant, now: Instant) -> bool
    ensures { IsTrue result ↔ (instant_nanos last + pause ≤ instant_nanos now) }
{
    now.duration_since(last).as_secs() >= 1
}

/// Shows on a screen how far a run is: not before a second has gone by by a clock, and once a second at most. It takes no
/// memory.
#[derive(Drop)]
pub struct ProgressLine<C, S> {
    clock: C,
    screen: Counted<S>,
    size: Option<u64>,
    // When a line was shown last, or when it began. Without it none is shown.
    last: Option<Instant>,
    is_shown: bool,
}

impl<C: Clock, S: Write> ProgressLine<C, S> {
    /// Shows nothing yet, and nothing at all where that is not wanted or the clock cannot be read. The size is that of the
    /// stream's file, where it is known.
    pub fn new(clock: C, screen: S, size: Option<u64>, is_wanted: bool) -> ProgressLine<C, S>
        ensures screen { device_of (screen_of result) ≡ screen }
        ensures size { file_size result ≡ size }
        ensures nothing { is_on_screen result ≡ false }
        ensures silent { is_wanted ≡ false → IsSilent result }
    {
        let last = begin(&clock, is_wanted);
        ProgressLine {
            clock,
            screen: Counted::new(screen),
            size,
            last,
            is_shown: false,
        }
    }

    // Shows this progress, where a line is due.
    fn show_if_due(&mut self, items: u64, bytes: u64)
        ensures shown { (self.new ≡ self.old) ⊎ Shows S.contents self.old self.new items bytes }
        ensures silent { IsSilent self.old → self.new ≡ self.old }
    {
        let Some(last) = self.last else {
            return;
        };
        let Ok(now) = Instant::now(&self.clock) else {
            return;
        };
        if !is_due(last, now) {
            return;
        }
        show_progress(items, bytes, self.size, &mut self.screen);
        self.last = Some(now);
        self.is_shown = true;
    }
}

// The time now, where it is wanted and the clock can be read.
fn begin<C: Clock>(clock: &C, is_wanted: bool) -> Option<Instant>
    ensures { is_wanted ≡ false → result ≡ None }
{
    if is_wanted {
        Instant::now(clock).ok()
    } else {
        None
    }
}

impl<C: Clock, S: Write> Watch for ProgressLine<C, S> {
    fn tell(&mut self, items: u64, bytes: u64)
        ensures shown { (self.new ≡ self.old) ⊎ Shows S.contents self.old self.new items bytes }
        ensures silent { IsSilent self.old → self.new ≡ self.old }
    {
        self.show_if_due(items, bytes);
    }
}

impl<C: Clock, S: Write> Screen for ProgressLine<C, S> {
    fn clear(&mut self)
        ensures cleared { is_on_screen self.old ≡ true → IsPut S.contents (screen_of self.old) (screen_of self.new) cleared_line }
        ensures bare { is_on_screen self.old ≡ false → self.new ≡ self.old }
        ensures nothing { is_on_screen self.new ≡ false }
    {
        if !self.is_shown {
            return;
        }
        clear_line(&mut self.screen);
        self.is_shown = false;
    }
}

// Runs a stream, and takes away what is shown of it before it answers.
pub(crate) fn run_shown<R: Read, W: Write, P: Screen>(
    alloc: Global,
    table: &Table,
    limits: Limits,
    steps: u64,
    mode: Mode,
    input: &mut Counted<R>,
    output: &mut Counted<W>,
    screen: &mut P,
) -> Result<(End, Option<Sound>), RunFault>
    ensures reported { IfOk result (λ r. IfSome (R.remaining (device_of input.old)) (λ stream.
        WritesAll mode (judge_of table.now steps) limits stream (change_of W.contents output.old output.new) r.0 r.1)) }
    ensures shown { IfOk result (λ r. IsShown r.0 r.1) }
    ensures fault { IfErr result (IsFault mode (judge_of table.now steps) limits (change_of R.remaining input.old input.new) (change_of W.contents output.old output.new)) }
{
    let answer = run_watched(alloc, table, limits, steps, mode, input, output, screen);
    screen.clear();
    answer
}
