//! What the program does with a stream while it shows how far it is, and tells why an item does not match.

ghost use Rattle.std.specs.Prelude.{◌≡◌, ◌≢◌, false, IfSome};
ghost use Rattle.item_nodes.specs.Counted.{device_of};
ghost use Rattle.seq_run.specs.Judge.{judge_of};
ghost use Rattle.seq_run.specs.Running.{change_of};
ghost use Rattle.cddl_tool.specs.Acting.{wanted_word, HasNoStream, IsAcceptance, IsExplained};
ghost use Rattle.cddl_tool.specs.Reasons.{wanted_text, IsAnsweredWith, IsBrokenWith};

use crate::acting::perform;
use crate::ending::wanted_text;
use crate::progress::Screen;
use cbor_item::Counted;
use command_line::{BROKEN, Options, Task};
use std::alloc::Global;
use std::io::{Read, Write};
use table_nodes::Table;

/// Does what [`act`](crate::act) does over the table of this text, and tells the screen how far it is with a stream. What that
/// shows is taken away before anything is written to `err`.
///
/// Where an item does not match and the options want it explained, [`explained_mismatch`](cddl_mismatch::explained_mismatch)
/// tells why, from the text: on `err`, after the line of the end where that goes there too, in one write. Where an allocation
/// for that is refused the status is [`BROKEN`], and only the line that says so is on `err`.
pub fn act_watched<R: Read, W: Write, E: Write, P: Screen>(
    alloc: Global,
    options: &Options,
    text: &[u8],
    table: &Table,
    input: &mut Counted<R>,
    out: &mut Counted<W>,
    err: &mut Counted<E>,
    screen: &mut P,
) -> u8
    ensures accepted { options.now.task ≡ Task.Check → IsAcceptance (change_of W.contents out.old out.new) (change_of E.contents err.old err.new) result }
    ensures explained { options.now.task ≡ Task.Explain → IsExplained (wanted_word options.now) (change_of W.contents out.old out.new) (change_of E.contents err.old err.new) result }
    ensures unread { HasNoStream options.now.task → input.new ≡ input.old }
    ensures answered { (HasNoStream options.now.task → ⊥) → result ≢ BROKEN → IfSome (R.remaining (device_of input.old)) (λ stream.
        IsAnsweredWith options.now (judge_of table.now options.now.steps) (wanted_text options.now text.now) stream (change_of W.contents out.old out.new) (change_of E.contents err.old err.new) result) }
    ensures quiet { options.now.task ≢ Task.Rewrite → options.now.explain ≡ false → result ≢ BROKEN → err.new ≡ err.old }
    ensures broken { (HasNoStream options.now.task → ⊥) → result ≡ BROKEN → IsBrokenWith options.now (judge_of table.now options.now.steps) (wanted_text options.now text.now)
        (change_of R.remaining input.old input.new) (change_of W.contents out.old out.new) (change_of E.contents err.old err.new) }
{
    let text = wanted_text(options, text);
    perform(alloc, options, table, text, input, out, err, screen)
}
