//! A law, whose function does nothing: a survey stays one of its tree when the table of terms grows by rows alone.
ghost use Rattle.std.specs.Prelude.{◌≡◌};
ghost use Rattle.check_reading.specs.Survey.Survey.{IsSurvey};
ghost use Rattle.check_reading.specs.declared.survey.survey.Survey.{Survey};
ghost use Rattle.check_terms.specs.Table.{Grows, IsTable, Table};
ghost use Rattle.tree_nodes.specs.declared.tree.Tree.{Tree};

use check_terms::laws::growing_keeps;

/// A survey stays one of its tree when the table grows by rows alone.
pub fn survey_grows()
    ensures { (old new : Table) (tree : Tree) (v : Survey) → Grows old new → new.texts ≡ old.texts → IsTable new → IsSurvey old tree v → IsSurvey new tree v }
{
    growing_keeps();
}
