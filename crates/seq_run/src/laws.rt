//! What is written out is read back, a stream ends, and in one way, and steps only decide how far a session comes.

ghost use Rattle.std.specs.Prelude.{◌≡◌, ◌≤◌, ℕ, List, length};
ghost use Rattle.cbor_data.specs.Faults.{last_offset, Bounds};
ghost use Rattle.cbor_data.specs.Sequence.{Found};
ghost use Rattle.cbor_data.specs.Value.{AreBytes, Value};
ghost use Rattle.table_nodes.specs.declared.table.Table.{Table};
ghost use Rattle.seq_run.specs.declared.end.End.{End};
ghost use Rattle.seq_run.specs.Ends.{Accepts, Ends, EndsFreely, IsAccepted, IsDecisive};
ghost use Rattle.seq_run.specs.Judge.{Judge};
ghost use Rattle.seq_run.specs.Answers.{items_of};
ghost use Rattle.seq_run.specs.Output.{items_output};
ghost use Rattle.seq_run.specs.declared.output.Mode.TheVariants.{Deterministic};
ghost use Rattle.seq_run.specs.Written.{AreSameItems, AreSound, AreWritable, clean_end, deterministic_bytes, found_from, written_bytes};

use cbor_data::{deterministic_spells, one_item, preferred_spells, same_if_deterministic};
use cbor_read::{one_fault, some_front};
use cddl_match::{decided, one_answer};

/// Any list of sound items that are accepted and are within the limits as they are written, all their bytes together no
/// more than a stream may have: the run of their preferred bytes is that list, and its end is clean. It does nothing.
pub fn written_is_read_back()
    ensures freely { (table : Table) (l : Bounds) (items : List Value) → AreWritable (IsAccepted table) l items → length (written_bytes items) ≤ last_offset →
        EndsFreely table l (written_bytes items) (found_from 0 items) (clean_end items) }
    ensures within { (judge : Judge) (l : Bounds) (items : List Value) → AreWritable (Accepts judge) l items → length (written_bytes items) ≤ last_offset →
        Ends judge l (written_bytes items) (found_from 0 items) (clean_end items) }
{
    preferred_spells();
}

/// In [`Mode::Deterministic`](crate::Mode::Deterministic) the deterministic bytes of the items are written, one after the other.
/// Two lists of sound items have the same such bytes exactly if they are the same, item by item, whatever order the pairs in
/// them have. It does nothing.
pub fn same_if_rewritten()
    ensures written { (number : ℕ) (found : List Found) → items_output Deterministic number found ≡ deterministic_bytes (items_of found) }
    ensures same { (xs ys : List Value) → AreSound xs → AreSound ys → AreSameItems xs ys → deterministic_bytes xs ≡ deterministic_bytes ys }
    ensures apart { (xs ys : List Value) → AreSound xs → AreSound ys → deterministic_bytes xs ≡ deterministic_bytes ys → AreSameItems xs ys }
{
    same_if_deterministic();
    deterministic_spells();
    one_item();
}

/// A stream has one end, and its run is one list of items. It does nothing.
pub fn one_end()
    ensures within { (judge : Judge) (l : Bounds) (stream : List ℕ) (found others : List Found) (end other : End) → AreBytes stream →
        Ends judge l stream found end → Ends judge l stream others other → (found ≡ others) × (end ≡ other) }
    ensures freely { (table : Table) (l : Bounds) (stream : List ℕ) (found others : List Found) (end other : End) → AreBytes stream →
        EndsFreely table l stream found end → EndsFreely table l stream others other → (found ≡ others) × (end ≡ other) }
{
    one_fault();
    one_answer();
}

/// A stream has an end, and a run: whatever its bytes are, and whatever the limits. It does nothing.
pub fn some_end()
    ensures within { (judge : Judge) (l : Bounds) (stream : List ℕ) → AreBytes stream → (found : List Found) × (end : End) × Ends judge l stream found end }
    ensures freely { (table : Table) (l : Bounds) (stream : List ℕ) → AreBytes stream → (found : List Found) × (end : End) × EndsFreely table l stream found end }
{
    some_front();
    decided();
}

/// An end that is no want of steps is the stream's end by the specification alone, and its run has no other items. It does
/// nothing.
pub fn decisive_end()
    ensures { (judge : Judge) (l : Bounds) (stream : List ℕ) (found : List Found) (end : End) → Ends judge l stream found end → IsDecisive end →
        EndsFreely judge.table l stream found end }
{
    one_answer();
}
