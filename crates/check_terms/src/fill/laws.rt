//! Laws: functions that do nothing, whose contracts are for proofs.

ghost use Rattle.std.specs.Prelude.{List, ℕ};
ghost use Rattle.cddl_language.specs.Terms.{Text};
ghost use Rattle.check_terms.specs.Table.{Grows, Table, Tree};
ghost use Rattle.check_terms.specs.Fill.Templates.{AreTrees, IsTemplate};
ghost use Rattle.check_terms.specs.declared.fill.template.Template.{Template};

/// What numbers stand for, and of what a template is, stays when a table grows.
pub fn growing_keeps()
    ensures trees { (old new : Table) → Grows old new → (ns : List ℕ) (xs : List Tree) → AreTrees old ns xs → AreTrees new ns xs }
    ensures template { (old new : Table) → Grows old new → (ps : List Text) (m : Template) (x : Tree) → IsTemplate old ps m x → IsTemplate new ps m x }
{
    crate::laws::growing_keeps();
}
