//! The checks left at each reached site, one per instance.

ghost use Rattle.std.specs.Prelude.{◌≡◌, ◌++◌, IfOk, List, OnOk};
ghost use Rattle.cddl_language.specs.Faults.{Specification, definitions, rules};
ghost use Rattle.cddl_language.specs.StandsFor.{AreInstances};
ghost use Rattle.cddl_language.specs.Terms.{Ref, Text};
ghost use Rattle.check_names.specs.Environment.Places.{lists};
ghost use Rattle.check_terms.specs.Fill.Templates.{IsTemplate};
ghost use Rattle.check_instances.specs.Found.{AreFound};
ghost use Rattle.cddl_language.specs.Live.Live.{IsClear};
ghost use Rattle.check_reached.specs.Asked.{AreAnswers, AreAsked, AreReady, wanted_by, wanted_each, wanted_placed};
ghost use Rattle.check_reached.specs.Runs.{AreCalls, IsRunOf};
ghost use Rattle.check_reading.specs.Parts.{AreParts, IsPart, Placed, Wanted};
ghost use Rattle.check_reading.specs.Survey.Survey.{IsSurvey};
ghost use Rattle.tree_nodes.specs.Syntax.Syntax.{Rule};
ghost use Rattle.check_terms.specs.Table.{Grows, Tree as TermTree, nothing};
ghost use Rattle.tree_nodes.specs.View.{view};
ghost use Rattle.tree_nodes.specs.declared.tree.Tree.{Tree as Trees};

use crate::calls::calls_by_name;
use crate::laws::answers_grow;
use crate::runs::{Call, Run, renew, run_of};
use cddl_language::live::reached_sites as reached_sites_are_live;
use check_instances::Instance;
use check_reading::parts::{Part, Question};
use check_reading::survey::Survey;
use check_terms::fill::Template;
use check_terms::laws::filled_trees;
use check_terms::{Definition, NoRoom, Terms, push};
use std::alloc::Global;

/// A check at a site, in one instance.
#[derive(Clone, Copy)]
pub struct Asked {
    /// The offset in bytes at which its fault is reported.
    pub at: usize,
    /// The row of the group, of the reference or of the type, with the arguments of the instance in the place of the
    /// parameters.
    pub row: u32,
    /// The row of the instance's reference.
    pub call: u32,
    pub question: Question,
}

/// What is asked of at the sites that the root reaches, in each instance: of the group or the reference after `&`, of both ends
/// of a range, of what items are compared with, of the controller of `.size`, of the left side of a control that computes a
/// literal and of the whole control, and of the group of a map.
///
/// It costs the parts of the survey times the instances of their rule: where the rule has parameters, for each part its rows are
/// visited once, and then each row that holds a parameter is numbered once for each instance. The parameters of a rule and the
/// arguments of its instances are listed once for all parts of the rule that follow one another. Memory is needed for each
/// answer, and for the arguments of all instances of one rule.
///
/// The table grows by rows alone. An error comes where memory is refused, or each number of 32 bits is taken; then some rows may
/// have been added. It may come, too, where a number of the survey is not of this table.
pub fn questions(
    alloc: Global,
    terms: &mut Terms<'_>,
    survey: &Survey,
    found: &[Instance],
) -> Result<Vec<Asked>, NoRoom>
    ensures grows { Grows terms.old terms.new }
    ensures texts { IfOk result (λ v. terms.new.texts ≡ terms.old.texts) }
    ensures asked { IfOk result (λ v. (tree : Trees) (s : Specification) (root : Text) (refs : List Ref) → s.tree ≡ view tree → IsClear s → IsSurvey terms.old tree survey.now → AreInstances (definitions s) root refs → AreFound (definitions s) terms.old found.now refs → AreAsked (rules s) root terms.new v.items) }
{
    reached_sites_are_live();
    filled_trees();
    let Ok(calls) = calls_by_name(alloc, terms, found) else {
        return Err(NoRoom);
    };
    ask_all(alloc, terms, &survey.definitions, &calls, &survey.parts)
}

// What is asked of these parts, in each instance of their rules.
pub(crate) fn ask_all(
    alloc: Global,
    terms: &mut Terms<'_>,
    definitions: &[Definition],
    calls: &[Vec<u32>],
    parts: &[Part],
) -> Result<Vec<Asked>, NoRoom>
    ensures grows { Grows terms.old terms.new }
    ensures texts { IfOk result (λ v. terms.new.texts ≡ terms.old.texts) }
    ensures answers { IfOk result (λ v. (rs : List Rule) (refs : List Ref) (ws : List Placed) → AreReady terms.old rs refs (lists calls.now) definitions.now → AreParts terms.old parts.now ws → AreAnswers terms.new v.items (wanted_by (wanted_placed rs refs) ws)) }
{
    answers_grow();
    let mut asked = Vec::new(alloc);
    let mut run = run_of(alloc, terms, definitions, calls, 0)?;
    for part in parts {
        renew(alloc, terms, definitions, calls, part.rule, &mut run)?;
        ask_part(alloc, terms, &run, *part, &mut asked)?;
    }
    Ok(asked)
}

// Adds what is asked of the part, in each of the run's instances.
fn ask_part(
    alloc: Global,
    terms: &mut Terms<'_>,
    run: &Run,
    part: Part,
    asked: &mut Vec<Asked>,
) -> Result<(), NoRoom>
    ensures grows { Grows terms.old terms.new }
    ensures texts { OnOk result (terms.new.texts ≡ terms.old.texts) }
    ensures answers { OnOk result ((ps : List Text) (refs : List Ref) (ws : List Wanted) (w : Placed) → IsRunOf terms.old ps refs run.now → IsPart terms.old part w → AreAnswers terms.old asked.old.items ws → AreAnswers terms.new asked.new.items (ws ++ wanted_each ps w.1 refs)) }
{
    answers_grow();
    let template = Template::new(alloc, terms, &run.slots, part.row)?;
    ask_each(
        alloc,
        terms,
        &template,
        &run.calls,
        part.at,
        part.question,
        asked,
    )
}

// Adds the question of the template's row, filled for each of the references.
fn ask_each(
    alloc: Global,
    terms: &mut Terms<'_>,
    template: &Template,
    calls: &[Call],
    at: usize,
    question: Question,
    asked: &mut Vec<Asked>,
) -> Result<(), NoRoom>
    ensures grows { Grows terms.old terms.new }
    ensures texts { OnOk result (terms.new.texts ≡ terms.old.texts) }
    ensures answers { OnOk result ((ps : List Text) (x : TermTree) (refs : List Ref) (ws : List Wanted) → IsTemplate terms.old ps template.now x → AreCalls terms.old calls.now refs → AreAnswers terms.old asked.old.items ws → AreAnswers terms.new asked.new.items (ws ++ wanted_each ps (record { at = at; question = question; tree = x; call = nothing }) refs)) }
{
    answers_grow();
    for call in calls {
        let row = template.fill(alloc, terms, &call.arguments)?;
        push(
            asked,
            Asked {
                at,
                row,
                call: call.row,
                question,
            },
        )?;
    }
    Ok(())
}
