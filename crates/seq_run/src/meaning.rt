//! What a stream is by the text of its specification, and that a table which stands for the text says the same. The definitions
//! are in `specs/`. The functions here do nothing: their contracts are laws.
ghost use Rattle.std.specs.Prelude.{◌≡◌, ◌<◌, ◌≤◌, ◌^◌, ◌↔◌, ℕ, List, length};
ghost use Rattle.cbor_data.specs.Faults.{Bounds, last_offset};
ghost use Rattle.cbor_data.specs.Sequence.{Found};
ghost use Rattle.cbor_data.specs.Equivalence.{IsSame};
ghost use Rattle.cbor_data.specs.Value.{AreBytes, Value};
ghost use Rattle.cddl_meaning.specs.Size.{size};
ghost use Rattle.cddl_language.specs.Language.{language, reference, type_node};
ghost use Rattle.cddl_language.specs.Literals.{Values};
ghost use Rattle.cddl_language.specs.StandsFor.{StandsFor};
ghost use Rattle.cddl_language.specs.Terms.{Definition, Text, call, no_terms};
ghost use Rattle.cddl_meaning.specs.Judges.{Answer, Yes, No};
ghost use Rattle.cddl_meaning.specs.Ranks.Decided.{IsDecided};
ghost use Rattle.table_nodes.specs.Language.{RootSays, language_of, rank_of, ranks_of, root_of};
ghost use Rattle.table_nodes.specs.declared.table.Table.{Table};
ghost use Rattle.seq_run.specs.Meaning.Text.{EndsByText, TextAccepts, TextOverruns, TextSays, TextWeighs};
ghost use Rattle.seq_run.specs.Ends.{Ends};
ghost use Rattle.seq_run.specs.Judge.{judge_of};
ghost use Rattle.seq_run.specs.Written.{AreWritable, clean_end, found_from, written_bytes};
ghost use Rattle.seq_run.specs.declared.end.End.{End};

use cbor_data::preferred_spells;
use cbor_read::{one_fault, some_front};
use cddl_language::same_by_text;
use cddl_match::decided;
use table_nodes::{GroupId, TypeId};

/// A table that stands for a text says of each item what the text says, in as many judgements, and a stream has by the table the
/// items and the end that it has by the text. So what is promised over a table is promised over the text.
pub fn table_stands_for_text()
    ensures item { (worth : Values) (ds : List Definition) (root : Text) (table : Table) → StandsFor worth ds root (language_of table) (root_of table) (rank_of table) (ranks_of table) → (x : Value) (a : Answer) (w : ℕ) → RootSays table x a w ↔ TextSays worth ds root x a w }
    ensures stream { (worth : Values) (ds : List Definition) (root : Text) (table : Table) → StandsFor worth ds root (language_of table) (root_of table) (rank_of table) (ranks_of table) → (steps : ℕ) (l : Bounds) (stream : List ℕ) (found : List Found) (end : End) → Ends (judge_of table steps) l stream found end ↔ EndsByText worth ds root steps l stream found end }
{}

/// A text says at most one thing of an item whose size is below 2^64, and in one number of judgements.
pub fn text_says_once()
    ensures { (worth : Values) (ds : List Definition) (root : Text) (x : Value) (a b : Answer) (v w : ℕ) → size x < 2 ^ 64 → TextSays worth ds root x a v → TextSays worth ds root x b w → (b ≡ a) × (w ≡ v) }
{}

/// What a text says of an item takes no more questions than the item weighs by it, where each entry of a map counts for each
/// pair, asked or not. So an item for which the steps are not enough weighs more than that.
pub fn weight_by_text()
    ensures questions { (worth : Values) (ds : List Definition) (root : Text) (x : Value) (a b : Answer) (v w : ℕ) → size x < 2 ^ 64 → TextSays worth ds root x a v → TextWeighs worth ds root x b w → (b ≡ a) × (v ≤ w) }
    ensures overruns { (worth : Values) (ds : List Definition) (root : Text) (steps : ℕ) (x : Value) (bytes : List ℕ) → TextOverruns worth ds root steps x bytes → (a : Answer) (w : ℕ) → TextWeighs worth ds root x a w → steps < w }
{}

/// By a text a stream has one end and one list of items at most, and any sound items that it accepts and that are within the
/// limits are, written out, read back as these items with a clean end.
pub fn one_end_by_text()
    ensures one { (worth : Values) (ds : List Definition) (root : Text) (steps : ℕ) (l : Bounds) (stream : List ℕ) (found others : List Found) (end other : End) → AreBytes stream → EndsByText worth ds root steps l stream found end → EndsByText worth ds root steps l stream others other → (found ≡ others) × (end ≡ other) }
    ensures read_back { (worth : Values) (ds : List Definition) (root : Text) (steps : ℕ) (l : Bounds) (items : List Value) → AreWritable (TextAccepts worth ds root steps) l items → length (written_bytes items) ≤ last_offset → EndsByText worth ds root steps l (written_bytes items) (found_from 0 items) (clean_end items) }
{
    one_fault();
    preferred_spells();
}

/// By a text that says exactly one thing of each item whose size is below 2^64 a stream has an end, whatever its bytes are.
pub fn some_end_by_text()
    ensures { (worth : Values) (ds : List Definition) (root : Text) → ((x : Value) → size x < 2 ^ 64 → IsDecided (language worth ds) (type_node worth ds (reference (call root no_terms))) 0 x) → (steps : ℕ) (l : Bounds) (stream : List ℕ) → AreBytes stream → (found : List Found) × (end : End) × EndsByText worth ds root steps l stream found end }
{
    some_front();
}

/// A text for which a table stands says exactly one thing of an item whose size is below 2^64, and in one number of
/// judgements.
pub fn text_is_decided()
    ensures { (worth : Values) (ds : List Definition) (root : Text) (table : Table) → StandsFor worth ds root (language_of table) (root_of table) (rank_of table) (ranks_of table) → (x : Value) → size x < 2 ^ 64 → IsDecided (language worth ds) (type_node worth ds (reference (call root no_terms))) 0 x }
{
    decided();
}

/// A table that stands for a text says yes to both of two items that are the same, whatever the order of pairs in their maps, or
/// no to both. The places at which a no shows may differ.
pub fn same_by_table()
    ensures yes { (worth : Values) (ds : List Definition) (root : Text) (table : Table) → StandsFor worth ds root (language_of table) (root_of table) (rank_of table) (ranks_of table) → (x y : Value) (w : ℕ) → IsSame x y → RootSays table x Yes w → (v : ℕ) × RootSays table y Yes v }
    ensures no { (worth : Values) (ds : List Definition) (root : Text) (table : Table) → StandsFor worth ds root (language_of table) (root_of table) (rank_of table) (ranks_of table) → (x y : Value) (far w : ℕ) → IsSame x y → RootSays table x (No far) w → (near v : ℕ) × RootSays table y (No near) v }
{
    same_by_text::<TypeId, GroupId>();
}
