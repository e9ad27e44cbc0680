//! What a table says of an item.

ghost use Rattle.std.specs.Prelude.{◌≡◌, ◌+◌, ◌*◌, ◌<◌, ◌≤◌, ◌^◌, ℕ, []};
ghost use Rattle.cbor_data.specs.Value.{Value, place_count};
ghost use Rattle.cddl_meaning.specs.Size.{size};
ghost use Rattle.cddl_meaning.specs.Forms.{Language, Node};
ghost use Rattle.cddl_meaning.specs.Judges.{Answer, Says};
ghost use Rattle.cddl_meaning.specs.Costs.{weighed};
ghost use Rattle.cddl_meaning.specs.Ranks.Cheaper.{IsCheaper};
ghost use Rattle.cddl_meaning.specs.Ranks.Decided.{IsDecided};
ghost use Rattle.cddl_match.specs.Machine.{IsVerdict};
ghost use Rattle.cddl_match.specs.Progress.{GoesOnFor, Progress};
ghost use Rattle.cddl_match.specs.declared.answers.Verdict.{Verdict};
ghost use Rattle.cddl_match.specs.declared.answers.Verdict.TheVariants.{Spent};
ghost use Rattle.table_nodes.specs.Language.{RootSays, language_of, root_form};
ghost use Rattle.table_nodes.specs.declared.nodes.GroupId.{GroupId};
ghost use Rattle.table_nodes.specs.declared.nodes.TypeId.{TypeId};
ghost use Rattle.table_nodes.specs.declared.table.Table.{Table};

use cddl_meaning::ranks::counts_no_more;
use table_nodes::{GroupId, TypeId};

/// A type says one thing at most of an item whose place and size are below 2^64 together, and in one number of judgements;
/// so does a table. It does nothing.
pub fn one_answer()
    ensures node { (l : Language TypeId GroupId) (n : Node TypeId GroupId) (p v w : ℕ) (x : Value) (a b : Answer) → p + size x < 2 ^ 64 → Says l n p x a v → Says l n p x b w → (b ≡ a) × (w ≡ v) }
    ensures table { (table : Table) (x : Value) (a b : Answer) (v w : ℕ) → size x < 2 ^ 64 → RootSays table x a v → RootSays table x b w → (b ≡ a) × (w ≡ v) }
{}

/// A table says exactly one thing of an item whose size is below 2^64, and in one number of judgements. It does nothing.
pub fn decided()
    ensures { (table : Table) (x : Value) → size x < 2 ^ 64 → IsDecided (language_of table) (root_form table) 0 x }
{}

/// What a table says of an item whose size is below 2^64 has a weight, too: the number of judgements where each pair of a map
/// counts every entry of the alternative, asked or not. The answer and its place are the same, and the steps are no more than
/// the weight. It does nothing.
pub fn costs_no_more()
    ensures { (table : Table) (x : Value) → size x < 2 ^ 64 → IsCheaper (language_of table) (root_form table) 0 x }
{
    counts_no_more::<TypeId, GroupId>();
}

/// By the weight: an answer takes no more steps than there are judgements in the one answer that has a weight, and where the
/// steps are spent, that weight is over them. It does nothing.
pub fn no_more_than_the_weight()
    ensures says { (table : Table) (x : Value) (a b : Answer) (v w : ℕ) → size x < 2 ^ 64 → RootSays table x a v → Says (weighed (language_of table)) (root_form table) 0 x b w → (b ≡ a) × (v ≤ w) }
    ensures spent { (table : Table) (x : Value) (steps : ℕ) → IsVerdict table x steps Spent → (a : Answer) (w : ℕ) → Says (weighed (language_of table)) (root_form table) 0 x a w → steps < w }
{}

/// Where a table says no of an item, that shows at a place in it. It does nothing.
pub fn shows_inside()
    ensures { (table : Table) (x : Value) (place w : ℕ) → RootSays table x (Answer.No place) w → place < place_count x }
{}

/// A table and a number of steps allow one verdict at most of an item whose size is below 2^64. It does nothing.
pub fn one_verdict()
    ensures { (table : Table) (x : Value) (steps : ℕ) (u v : Verdict) → size x < 2 ^ 64 → IsVerdict table x steps u → IsVerdict table x steps v → v ≡ u }
{}

/// A turn answers what `verdict` answers of the same table, item and number of steps, however many turns went on before, where
/// neither wants memory. It does nothing.
pub fn turns_answer_alike()
    ensures { (n : ℕ) (m k : Progress) (u v : Verdict) → size m.item < 2 ^ 64 → GoesOnFor n m k → IsVerdict m.table m.item m.steps u → IsVerdict k.table k.item k.steps v → v ≡ u }
{}

/// Of a new machine twice as many turns go on as it may take steps, at most: so the next turn after so many answers, or wants
/// memory. It does nothing.
pub fn turns_are_few()
    ensures { (n : ℕ) (m k : Progress) → m.taken ≡ 0 → m.asked ≡ [] → GoesOnFor n m k → n ≤ 2 * m.steps }
{}
