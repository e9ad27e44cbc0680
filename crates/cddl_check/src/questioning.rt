//! The checks left at the sites that the root reaches.

ghost use Rattle.std.specs.Prelude.{◌≡◌, IfErr, IfOk, List};
ghost use Rattle.cddl_language.specs.Faults.{Specification};
ghost use Rattle.cddl_language.specs.Literals.{Values};
ghost use Rattle.cddl_language.specs.Terms.{Ref, Text};
ghost use Rattle.check_terms.specs.Table.{Grows};
ghost use Rattle.tree_nodes.specs.View.{view};
ghost use Rattle.tree_nodes.specs.declared.tree.Tree.{Tree};
ghost use Rattle.cddl_check.specs.Stages.{IsAsking, IsInstanced, IsRight};
ghost use Rattle.cddl_check.specs.declared.stopped.Stopped.TheVariants as Why;

use crate::finding::Instanced;
use crate::stopped::Stopped;
use check_reached::laws::{instances_grow, questions_grow};
use check_reached::{Asked, entry_questions, questions};
use check_reading::survey::Survey;
use check_reading::survey::laws::survey_grows;
use check_root::reached_faults::not_unwrapped;
use check_terms::Terms;
use check_terms::laws::{growing_keeps, is_table};
use std::alloc::Global;

/// The checks left at the sites that the root reaches.
#[derive(Drop)]
pub(crate) struct Questions {
    /// Those of `&`, of ranges, of controls and of maps.
    pub asked: Vec<Asked>,
    /// Those of the entries that may be spliced into maps.
    pub entries: Vec<Asked>,
    /// The least offset of `~` that unwraps nothing, or a group where a type is demanded.
    pub opens: Option<usize>,
}

// The checks left at the sites that the root reaches. The table grows by rows.
pub(crate) fn ask(
    alloc: Global,
    terms: &mut Terms<'_>,
    survey: &Survey,
    instanced: &Instanced,
) -> Result<Questions, Stopped>
    ensures grows { Grows terms.old terms.new }
    ensures texts { IfOk result (λ x. terms.new.texts ≡ terms.old.texts) }
    ensures asking { IfOk result (λ x. (s : Specification) (worth : Values) (tree : Tree) (root : Text) (refs : List Ref) → s.tree ≡ view tree → IsRight s worth → IsInstanced s root refs terms.old tree survey.now instanced.now → IsAsking s root terms.new x) }
    ensures memory { IfErr result (λ e. e ≡ Why.Memory) }
{
    growing_keeps();
    instances_grow();
    questions_grow();
    survey_grows();
    let opens = not_unwrapped(alloc, survey, &instanced.reached)?;
    let asked = questions(alloc, terms, survey, &instanced.instances)?;
    is_table(terms);
    let entries = entry_questions(alloc, terms, survey, &instanced.instances)?;
    Ok(Questions {
        asked,
        entries,
        opens,
    })
}
