//! What is wrong in the whole text.

ghost use Rattle.std.specs.Prelude.{IfErr, IfOk, option_map};
ghost use Rattle.cddl_language.specs.Faults.{Specification};
ghost use Rattle.cddl_language.specs.Literals.{Values};
ghost use Rattle.check_reading.specs.Survey.Survey.{IsSurvey};
ghost use Rattle.cddl_check.specs.Outcome.{IsStopped};
ghost use Rattle.cddl_check.specs.Stages.{IsGiven, IsRight};
ghost use Rattle.cddl_check.specs.Told.{IsEarly};

use crate::stopped::Stopped;
use check_reading::survey::{Survey, survey_of};
use check_terms::Terms;
use check_text::laws::{codes_are_in_order, text_fault_is_told, text_is_clear};
use check_text::text_fault;
use std::alloc::Global;
use tree_nodes::Tree;

// The survey of a text in which nothing is wrong, whatever its root reaches; or the first fault.
pub(crate) fn clear_text<'s>(
    alloc: Global,
    terms: &mut Terms<'s>,
    tree: &Tree<'s>,
    given: Option<&str>,
) -> Result<Survey, Stopped>
    ensures survey { IfOk result (λ v. IsSurvey terms.new tree.now v) }
    ensures right { IfOk result (λ v. (s : Specification) (worth : Values) → IsGiven s worth tree.now (option_map (λ t. t.now) given.entry) → IsRight s worth) }
    ensures stopped { IfErr result (λ e. (s : Specification) (worth : Values) → IsGiven s worth tree.now (option_map (λ t. t.now) given.entry) → IsStopped s worth e) }
    ensures early { IfErr result (λ e. (s : Specification) (worth : Values) → IsGiven s worth tree.now (option_map (λ t. t.now) given.entry) → IsEarly e) }
{
    codes_are_in_order();
    text_fault_is_told();
    let survey = survey_of(alloc, terms, tree)?;
    text_is_clear(terms);
    match text_fault(alloc, terms, &survey, given)? {
        Some(fault) => Err(Stopped::Refused(fault)),
        None => Ok(survey),
    }
}
