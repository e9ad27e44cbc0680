//! What is asked of entries of the text, in each instance.

ghost use Rattle.std.specs.Prelude.{◌≡◌, IfOk, List};
ghost use Rattle.cddl_language.specs.Faults.{Specification, definitions, rules};
ghost use Rattle.cddl_language.specs.StandsFor.{AreInstances};
ghost use Rattle.cddl_language.specs.Terms.{Ref, Text};
ghost use Rattle.check_instances.specs.Found.{AreFound};
ghost use Rattle.cddl_language.specs.Live.Live.{IsClear};
ghost use Rattle.check_reached.specs.Asked.{AreEntriesAsked};
ghost use Rattle.check_reading.specs.Survey.Survey.{IsSurvey};
ghost use Rattle.check_terms.specs.Table.{Grows};
ghost use Rattle.tree_nodes.specs.View.{view};
ghost use Rattle.tree_nodes.specs.declared.tree.Tree.{Tree};

use crate::asked::{Asked, ask_all};
use crate::calls::calls_by_name;
use cddl_language::live::reached_sites as reached_sites_are_live;
use check_instances::Instance;
use check_reading::survey::Survey;
use check_terms::laws::filled_trees;
use check_terms::{NoRoom, Terms};
use std::alloc::Global;

/// What is asked of the entries of each map that is reached, and of those of each rule's own group and of the map or the array
/// that its body is: in each instance. So each entry that is spliced into a map is among them.
///
/// It costs the entries of the survey times the instances of their rule, as `questions` does. The table grows by rows alone. An
/// error comes where memory is refused, or each number of 32 bits is taken; then some rows may have been added. It may come, too,
/// where a number of the survey is not of this table.
pub fn entry_questions(
    alloc: Global,
    terms: &mut Terms<'_>,
    survey: &Survey,
    found: &[Instance],
) -> Result<Vec<Asked>, NoRoom>
    ensures grows { Grows terms.old terms.new }
    ensures texts { IfOk result (λ v. terms.new.texts ≡ terms.old.texts) }
    ensures asked { IfOk result (λ v. (tree : Tree) (s : Specification) (root : Text) (refs : List Ref) → s.tree ≡ view tree → IsClear s → IsSurvey terms.old tree survey.now → AreInstances (definitions s) root refs → AreFound (definitions s) terms.old found.now refs → AreEntriesAsked (rules s) root terms.new v.items) }
{
    reached_sites_are_live();
    filled_trees();
    let Ok(calls) = calls_by_name(alloc, terms, found) else {
        return Err(NoRoom);
    };
    ask_all(alloc, terms, &survey.definitions, &calls, &survey.entries)
}
