//! The instances of the root, and the words at the sites that it reaches.

ghost use Rattle.std.specs.Prelude.{◌≡◌, IfErr, IfOk, List, None, Some, option_map, slice_get};
ghost use Rattle.cddl_token.specs.declared.Code.TheVariants.{TooManyInstances};
ghost use Rattle.check_instances.specs.Found.{HasFound, IsFound};
ghost use Rattle.cddl_language.specs.Faults.{HasTooManyInstances, Specification, definitions, root_of as root_in};
ghost use Rattle.cddl_language.specs.Literals.{Values};
ghost use Rattle.cddl_language.specs.Terms.{Ref, Text};
ghost use Rattle.lists.specs.Least.{IsLeast};
ghost use Rattle.check_reading.specs.Survey.Survey.{IsSurvey};
ghost use Rattle.check_terms.specs.Table.{Table};
ghost use Rattle.tree_nodes.specs.declared.tree.Tree.{Tree as Trees};
ghost use Rattle.cddl_check.specs.Outcome.{IsStopped};
ghost use Rattle.cddl_check.specs.Stages.{IsGiven, IsInstanced, IsRight};
ghost use Rattle.cddl_check.specs.Told.{IsEarly, IsTold};

use crate::stopped::{Stopped, refused};
use cddl_token::Code;
use check_instances::{Found, Instance, instances};
use check_reached::reached_words;
use check_reading::survey::Survey;
use check_reading::survey::laws::survey_grows;
use check_reading::words::Word;
use check_root::root_faults::too_many;
use check_terms::Terms;
use check_text::laws::root_faults_are_told;
use check_text::rule_faults::root_of;
use std::alloc::Global;

/// What the root leads to.
#[derive(Drop)]
pub(crate) struct Instanced {
    /// The number of the root's name.
    pub root: u32,
    /// The instances, and what they mean.
    pub instances: Vec<Instance>,
    /// The words at the sites that the root reaches.
    pub reached: Vec<Word>,
}

// What the root of a text leads to in which nothing is wrong; or that it has more instances than may be.
pub(crate) fn find_instances(
    alloc: Global,
    terms: &mut Terms<'_>,
    survey: &Survey,
    given: Option<&str>,
) -> Result<Instanced, Stopped>
    ensures found { IfOk result (λ x. (s : Specification) (worth : Values) (tree : Trees) → IsGiven s worth tree (option_map (λ t. t.now) given.entry) → IsSurvey terms.old tree survey.now → IsRight s worth → (root : Text) × (refs : List Ref) × IsInstanced s root refs terms.new tree survey.now x) }
    ensures stopped { IfErr result (λ e. (s : Specification) (worth : Values) (tree : Trees) → IsGiven s worth tree (option_map (λ t. t.now) given.entry) → IsSurvey terms.old tree survey.now → IsRight s worth → IsStopped s worth e) }
    ensures early { IfErr result IsEarly }
{
    survey_grows();
    root_faults_are_told();
    let root = root_number(terms, survey, given)?;
    let names = &survey.names;
    let found = instances(
        alloc,
        terms,
        names,
        &survey.known,
        &survey.definitions,
        root,
    )?;
    terms.len();
    let instances = few(found)?;
    let reached = reached_words(alloc, terms, survey, &instances)?;
    Ok(Instanced {
        root,
        instances,
        reached,
    })
}

// The number of the root's name, which a text has in which nothing is wrong.
fn root_number(terms: &Terms<'_>, survey: &Survey, given: Option<&str>) -> Result<u32, Stopped>
    ensures root { IfOk result (λ n. (s : Specification) (worth : Values) (tree : Trees) → IsGiven s worth tree (option_map (λ t. t.now) given.entry) → IsSurvey terms.now tree survey.now → (root : Text) × (root_in s ≡ Some root) × (slice_get terms.now.texts n ≡ Some root)) }
    ensures stopped { IfErr result (λ e. (s : Specification) (worth : Values) (tree : Trees) → IsGiven s worth tree (option_map (λ t. t.now) given.entry) → IsSurvey terms.now tree survey.now → IsRight s worth → IsStopped s worth e) }
    ensures early { IfErr result IsEarly }
{
    match root_of(terms, survey, given) {
        Some(number) => Ok(number),
        None => Err(refused(Code::NoRoot, 0)),
    }
}

// The instances, where there are no more than may be.
fn few(found: Found) -> Result<Vec<Instance>, Stopped>
    ensures found { IfOk result (λ v. (s : Specification) (root : Text) (t : Table) → IsFound (definitions s) root t found → HasFound (definitions s) root t v.items) }
    ensures few { IfOk result (λ v. (s : Specification) (root : Text) (t : Table) → IsFound (definitions s) root t found → IsLeast (HasTooManyInstances s root) None) }
    ensures many { IfErr result (λ e. (s : Specification) (root : Text) (t : Table) → IsFound (definitions s) root t found → IsTold (HasTooManyInstances s root) TooManyInstances e) }
    ensures early { IfErr result IsEarly }
{
    let many = too_many(&found);
    match found {
        Found::Instances(instances) => match many {
            None => Ok(instances),
            Some(at) => Err(refused(Code::TooManyInstances, at)),
        },
        Found::TooMany => Err(refused(Code::TooManyInstances, 0)),
    }
}
