//! The stages that come before what is reported for the root.

ghost use Rattle.std.specs.Prelude.{◌≡◌, ◌+◌, IfErr, IfOk, List, length, option_map};
ghost use Rattle.cddl_language.specs.Environment.{most_names};
ghost use Rattle.cddl_language.specs.Faults.{Specification, definitions};
ghost use Rattle.cddl_language.specs.Prelude.{prelude};
ghost use Rattle.cddl_language.specs.Terms.{Ref, Text};
ghost use Rattle.cddl_language.specs.Literals.{AreRight, Values};
ghost use Rattle.tree_nodes.specs.View.{view};
ghost use Rattle.tree_nodes.specs.declared.tree.Tree.{Tree as Trees};
ghost use Rattle.cddl_check.specs.Outcome.{IsStopped};
ghost use Rattle.cddl_check.specs.Stages.{IsGiven, IsInstanced, IsReading, IsRight};
ghost use Rattle.cddl_check.specs.Told.{IsEarly};
ghost use Rattle.cddl_check.specs.declared.stopped.Stopped.TheVariants as Why;

use crate::closing::{Meant, close_instances};
use crate::finding::{Instanced, find_instances};
use crate::questioning::{Questions, ask};
use crate::splicing::{Splices, splices_of};
use crate::stopped::Stopped;
use crate::text::clear_text;
use check_reached::laws::{
    entry_questions_grow, instances_grow, questions_grow, reached_words_grow,
};
use check_reading::survey::Survey;
use check_reading::survey::laws::survey_grows;
use check_terms::Terms;
use check_terms::laws::{growing_keeps, is_table};
use std::alloc::Global;
use tree_nodes::Tree;

/// All that was found of a specification, by the numbers of a table of terms.
#[derive(Drop)]
pub(crate) struct Reading {
    pub survey: Survey,
    pub instanced: Instanced,
    pub questions: Questions,
    pub meant: Meant,
    pub splices: Splices,
}

/// The survey of a text in which nothing is wrong, and what its root leads to: no more instances than may be.
#[derive(Drop)]
struct Begun {
    pub survey: Survey,
    pub instanced: Instanced,
}

// What is found of a specification in whose text nothing is wrong, and whose root has no more instances than may be.
pub(crate) fn read_tree<'s>(
    alloc: Global,
    terms: &mut Terms<'s>,
    tree: &Tree<'s>,
    given: Option<&str>,
) -> Result<Reading, Stopped>
    ensures read { IfOk result (λ x. (s : Specification) (worth : Values) → IsGiven s worth tree.now (option_map (λ t. t.now) given.entry) → (root : Text) × (refs : List Ref) × IsReading s worth root refs terms.new tree.now x) }
    ensures stopped { IfErr result (λ e. (s : Specification) (worth : Values) → IsGiven s worth tree.now (option_map (λ t. t.now) given.entry) → IsStopped s worth e) }
    ensures early { IfErr result (λ e. (s : Specification) (worth : Values) → IsGiven s worth tree.now (option_map (λ t. t.now) given.entry) → IsEarly e) }
{
    let begun = begin_tree(alloc, terms, tree, given)?;
    let reading = finish_tree(alloc, terms, begun)?;
    Ok(reading)
}

// The text, and what its root leads to; or the first fault of C1 to C10.
fn begin_tree<'s>(
    alloc: Global,
    terms: &mut Terms<'s>,
    tree: &Tree<'s>,
    given: Option<&str>,
) -> Result<Begun, Stopped>
    ensures begun { IfOk result (λ x. (s : Specification) (worth : Values) → IsGiven s worth tree.now (option_map (λ t. t.now) given.entry) → (root : Text) × (refs : List Ref) × IsRight s worth × IsInstanced s root refs terms.new tree.now x.survey x.instanced) }
    ensures stopped { IfErr result (λ e. (s : Specification) (worth : Values) → IsGiven s worth tree.now (option_map (λ t. t.now) given.entry) → IsStopped s worth e) }
    ensures early { IfErr result (λ e. (s : Specification) (worth : Values) → IsGiven s worth tree.now (option_map (λ t. t.now) given.entry) → IsEarly e) }
{
    let survey = clear_text(alloc, terms, tree, given)?;
    let instanced = find_instances(alloc, terms, &survey, given)?;
    Ok(Begun { survey, instanced })
}

// What is found of it from there on.
fn finish_tree(alloc: Global, terms: &mut Terms<'_>, begun: Begun) -> Result<Reading, Stopped>
    ensures read { IfOk result (λ x. (s : Specification) (worth : Values) (tree : Trees) (root : Text) (refs : List Ref) → s.tree ≡ view tree → AreRight s.tree worth → IsRight s worth → IsInstanced s root refs terms.old tree begun.survey begun.instanced → IsReading s worth root refs terms.new tree x) }
    ensures memory { IfErr result (λ e. e ≡ Why.Memory) }
{
    growing_keeps();
    instances_grow();
    questions_grow();
    entry_questions_grow();
    survey_grows();
    reached_words_grow();
    let Begun { survey, instanced } = begun;
    let questions = ask(alloc, terms, &survey, &instanced)?;
    let most = survey.known.len() + survey.definitions.len();
    let kinds = &survey.kinds;
    let meant = close_instances(alloc, terms, &instanced.instances, kinds, most)?;
    let splices = splices_of(alloc, terms, kinds, &meant)?;
    is_table(terms);
    Ok(Reading {
        survey,
        instanced,
        questions,
        meant,
        splices,
    })
}
