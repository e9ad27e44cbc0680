//! Judges an item that was built in memory.

ghost use Rattle.std.specs.Prelude.{◌≡◌, IfErr, IfOk, None};
ghost use Rattle.item_nodes.specs.View.{view};
ghost use Rattle.cddl_examples.specs.Judging.{IsJudged, IsUnjudged};
ghost use Rattle.cddl_examples.specs.declared.judging.Unjudged.TheVariants as Why;

use cddl::{Item, Refusal, Sound, Unsound, Verdict, read_specification, table_has_root, verdict};
use std::alloc::{AllocError, Global};

/// Why nothing is said of an item.
#[derive(Clone, Copy, Debug, PartialEq, Eq)]
pub enum Unjudged {
    /// The text has no table.
    Text(Refusal),
    /// The item cannot be written.
    Item(Unsound),
    /// An allocation was refused.
    Memory,
}

impl From<Refusal> for Unjudged {
    ghost from_gives = { λ why e. e ≡ Why.Text why };

    fn from(why: Refusal) -> Unjudged {
        Unjudged::Text(why)
    }
}

impl From<Unsound> for Unjudged {
    ghost from_gives = { λ why e. e ≡ Why.Item why };

    fn from(why: Unsound) -> Unjudged {
        Unjudged::Item(why)
    }
}

impl From<AllocError> for Unjudged {
    ghost from_gives = { λ _ e. e ≡ Why.Memory };

    fn from(_e: AllocError) -> Unjudged {
        Unjudged::Memory
    }
}

/// What the first rule of the text (RFC 8610) says of the item, in at most so many steps.
pub fn judge(alloc: Global, text: &[u8], item: Item, steps: u64) -> Result<Verdict, Unjudged>
    ensures judged { IfOk result (IsJudged text.now steps (view item)) }
    ensures unjudged { IfErr result (IsUnjudged text.now (view item)) }
{
    table_has_root();
    let table = read_specification(alloc, text, None)?;
    let sound = Sound::try_new(alloc, item)?;
    let verdict = verdict(alloc, &table, &sound, steps)?;
    Ok(verdict)
}
