//! A text is accepted or wrong, and never both. What a table that was made of a text says, the text's root rule says; and that rule
//! says one thing of each item.

ghost use Rattle.std.specs.Prelude.{List, ◌≡◌, ℕ, ◌<◌, ◌^◌, Option};
ghost use Rattle.cbor_data.specs.Faults.{Bounds};
ghost use Rattle.cbor_data.specs.Sequence.{Found};
ghost use Rattle.cbor_data.specs.Value.{AreBytes, Value};
ghost use Rattle.cddl_meaning.specs.Judges.{Answer};
ghost use Rattle.cddl_meaning.specs.Size.{size};
ghost use Rattle.seq_run.specs.declared.end.End.{End};
ghost use Rattle.cddl_check.specs.Text.{IsWrongText};
ghost use Rattle.cddl_decided.specs.Tables.{HasTable};
ghost use Rattle.cddl_table.specs.Text.{IsTabledText};
ghost use Rattle.check_text.specs.declared.fault.Fault.{Fault};
ghost use Rattle.cddl_language.specs.Terms.{Text};
ghost use Rattle.table_nodes.specs.declared.table.Table.{Table};
ghost use Rattle.cddl.specs.Rules.{Ends, HasRoot, Rule, Says};
ghost use Rattle.cddl.specs.Tables.{SpeaksFor};

use cddl_check::trees_are_of_tokens;
use cddl_decided::tokens::{one_reading, tokens_or_fault};
use cddl_decided::{accepted_has_table as tree_has_table, accepted_is_decided, one_outcome};
use cddl_language::{one_fault, one_table_of_values};
use cddl_token::one_answer;
use seq_run::meaning::{one_end_by_text, some_end_by_text, table_stands_for_text};
use tree_nodes::syntax::{one_answer as one_tree_or_fault, some_answer};

/// A table that [`read_specification`](crate::read_specification) makes of a text says of each item what the text's root rule
/// says, in as many judgements, and by both a stream has the same items and the same end. So what a contract says of the table it
/// says of the text. It does nothing.
pub fn table_has_root()
    ensures { (text : List ℕ) (named : Option Text) (table : Table) → IsTabledText text named table → (rule : Rule) × HasRoot text named rule × SpeaksFor rule table }
{
    trees_are_of_tokens();
    one_table_of_values();
    table_stands_for_text();
}

/// The root rule of an accepted text says exactly one thing of each item whose size is below 2^64, at one place where it is a no,
/// and in one number of judgements; and by it a stream has exactly one list of items and one end. No table is named: it is so
/// whether memory for one was there or not. It does nothing.
pub fn text_decides()
    ensures item { (text : List ℕ) (named : Option Text) (rule : Rule) → HasRoot text named rule → (x : Value) → size x < 2 ^ 64 → (a : Answer) × (w : ℕ) × Says rule x a w × ((b : Answer) (v : ℕ) → Says rule x b v → (b ≡ a) × (v ≡ w)) }
    ensures some { (text : List ℕ) (named : Option Text) (rule : Rule) → HasRoot text named rule → (steps : ℕ) (l : Bounds) (stream : List ℕ) → AreBytes stream → (items : List Found) × (end : End) × Ends rule steps l stream items end }
    ensures one { (rule : Rule) (steps : ℕ) (l : Bounds) (stream : List ℕ) (items others : List Found) (end other : End) → AreBytes stream → Ends rule steps l stream items end → Ends rule steps l stream others other → (items ≡ others) × (end ≡ other) }
{
    accepted_is_decided();
    some_end_by_text();
    one_end_by_text();
}

/// Any list of bytes, with the name of a root or without one, is accepted or wrong and never both: it has a root rule or it is
/// refused for a fault, and can't be neither. Where it is wrong, it is so by one code at one byte; where it is accepted, the name of
/// the root rule and the definitions among which it stands are one. So which of the two [`validate`](crate::validate) tells, and
/// which fault, follows from the text alone. It does nothing.
pub fn accepted_or_wrong()
    ensures either { (text : List ℕ) (named : Option Text) → ((rule : Rule) → HasRoot text named rule → ⊥) → ((fault : Fault) → IsWrongText text named fault → ⊥) → ⊥ }
    ensures apart { (text : List ℕ) (named : Option Text) (rule : Rule) (fault : Fault) → HasRoot text named rule → IsWrongText text named fault → ⊥ }
    ensures fault { (text : List ℕ) (named : Option Text) (fault other : Fault) → IsWrongText text named fault → IsWrongText text named other → other ≡ fault }
    ensures rule { (text : List ℕ) (named : Option Text) (rule other : Rule) → HasRoot text named rule → HasRoot text named other → (other.name ≡ rule.name) × (other.definitions ≡ rule.definitions) }
{
    tokens_or_fault();
    one_answer();
    one_reading();
    some_answer();
    one_tree_or_fault();
    trees_are_of_tokens();
    one_table_of_values();
    one_fault();
    one_outcome();
}

/// No accepted text is without a table: it can't be that no language of finitely many types and groups, each a number with a rank,
/// stands for what the text's root rule means. [`read_specification`](crate::read_specification) makes such a one, of numbers of
/// 32 bits, or answers that memory was refused. It does nothing.
pub fn accepted_has_table()
    ensures { (text : List ℕ) (named : Option Text) (rule : Rule) → HasRoot text named rule → (HasTable rule.values rule.definitions rule.name → ⊥) → ⊥ }
{
    tree_has_table();
}
