//! Laws: functions that do nothing, whose contracts are for proofs.

ghost use Rattle.std.specs.Prelude.{ℕ, List, Option};
ghost use Rattle.cddl_language.specs.Terms as L;
ghost use Rattle.cddl_language.specs.Terms.{Ref, Text};
ghost use Rattle.tree_nodes.specs.Syntax.Syntax.{Rule};
ghost use Rattle.check_terms.specs.Definitions.{AreTexts};
ghost use Rattle.check_terms.specs.Table.{Grows, Holds, Table, Tree};
ghost use Rattle.check_terms.specs.Fill.Templates.{AreTrees, IsTemplate};
ghost use Rattle.check_terms.specs.declared.fill.template.Template.{Template};
ghost use Rattle.check_instances.specs.Found.{AreFound};
ghost use Rattle.check_instances.specs.declared.found.Instance.{Instance};
ghost use Rattle.check_reached.specs.Asked.{AreAnswers, AreAsked, AreEntriesAsked};
ghost use Rattle.check_reached.specs.Reached.{AreReachedWords};
ghost use Rattle.check_reading.specs.Parts.{Wanted};
ghost use Rattle.check_reading.specs.declared.words.word.Word.{Word};
ghost use Rattle.check_reached.specs.Runs.{AreCalls, IsRunOf};
ghost use Rattle.check_reached.specs.declared.asked.Asked.{Asked};
ghost use Rattle.check_reached.specs.declared.runs.Call.{Call};
ghost use Rattle.check_reached.specs.declared.runs.Run.{Run};

use check_terms::laws::growing_keeps;

/// The instances that were found stay so when the table grows.
pub fn instances_grow()
    ensures { (old new : Table) → Grows old new → (xs : List L.Definition) (found : List Instance) (refs : List Ref) → AreFound xs old found refs → AreFound xs new found refs }
{
    growing_keeps();
}

/// What was asked stays so when the table grows.
pub fn questions_grow()
    ensures { (old new : Table) → Grows old new → (rs : List Rule) (root : Text) (answers : List Asked) → AreAsked rs root old answers → AreAsked rs root new answers }
{
    growing_keeps();
}

/// What was asked of entries stays so when the table grows.
pub fn entry_questions_grow()
    ensures { (old new : Table) → Grows old new → (rs : List Rule) (root : Text) (answers : List Asked) → AreEntriesAsked rs root old answers → AreEntriesAsked rs root new answers }
{
    growing_keeps();
}

/// The words of the sites that are reached stay so when the table grows.
pub fn reached_words_grow()
    ensures { (old new : Table) → Grows old new → (rs : List Rule) (root : Text) (ws : List Word) → AreReachedWords rs root old ws → AreReachedWords rs root new ws }
{}

// What a table's growth keeps.
pub(crate) fn answers_grow()
    ensures same { (t : Table) → Grows t t }
    ensures further { (a b c : Table) → Grows a b → Grows b c → Grows a c }
    ensures texts { (old new : Table) → Grows old new → (ns : List ℕ) (xs : List Text) → AreTexts old.texts ns xs → AreTexts new.texts ns xs }
    ensures tree { (old new : Table) → Grows old new → (n : Option ℕ) (x : Tree) → Holds old n x → Holds new n x }
    ensures trees { (old new : Table) → Grows old new → (ns : List ℕ) (xs : List Tree) → AreTrees old ns xs → AreTrees new ns xs }
    ensures template { (old new : Table) → Grows old new → (ps : List Text) (m : Template) (x : Tree) → IsTemplate old ps m x → IsTemplate new ps m x }
    ensures calls { (old new : Table) → Grows old new → (calls : List Call) (refs : List Ref) → AreCalls old calls refs → AreCalls new calls refs }
    ensures run { (old new : Table) → Grows old new → (ps : List Text) (refs : List Ref) (run : Run) → IsRunOf old ps refs run → IsRunOf new ps refs run }
    ensures answers { (old new : Table) → Grows old new → (answers : List Asked) (ws : List Wanted) → AreAnswers old answers ws → AreAnswers new answers ws }
{
    growing_keeps();
    check_terms::fill::laws::growing_keeps();
}
