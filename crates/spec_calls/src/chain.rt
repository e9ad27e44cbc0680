//! All that is known of the instances of a text, by the calls that lead there from the text.

use crate::root_faults::fault_of;
use crate::roots_told::told;
use alternatives::summaries;
use check_groups::choosing::choosable;
use check_groups::empty::may_be_empty;
use check_groups::splices::parts_of;
use check_instances::closed::{Closed, close};
use check_instances::openings::{Opening, endings_of, openings_of};
use check_instances::{Found, Instance, instances};
use check_literals::sizes::{Controllers, Members, controllers, members};
use check_literals::{Literals, literals};
use check_maps::map_faults::{MapFaults, map_faults};
use check_maps::spliced::{Spliced, spliced_entries};
use check_names::environment::names;
use check_names::kinds::{Kinds, kinds_of};
use check_reached::{Asked, entry_questions, questions, reached_words};
use check_reading::survey::Survey;
use check_reading::words::Word;
use check_terms::Terms;
use check_text::rule_faults::root_of;
use std::alloc::Global;

/// What is asked at the sites that the root reaches, and of entries.
#[derive(Drop)]
pub(crate) struct Questions {
    pub asked: Vec<Asked>,
    pub entries: Vec<Asked>,
}

/// The instances of a text, and what is asked of them.
#[derive(Drop)]
pub(crate) struct Reached {
    pub instances: Vec<Instance>,
    pub questions: Questions,
}

/// What the instances mean, what `~` of each unwraps, and where that ends.
#[derive(Drop)]
pub(crate) struct Opened {
    pub closed: Closed,
    pub kinds: Kinds,
    pub openings: Vec<Opening>,
    pub endings: Vec<Option<u32>>,
}

/// What the rows are by themselves.
#[derive(Drop)]
pub(crate) struct Valued {
    pub literals: Literals,
    pub controllers: Controllers,
    pub members: Members,
}

/// What is known of the groups.
#[derive(Drop)]
pub(crate) struct Groups {
    pub spliced: Vec<Spliced>,
    pub choosable: Vec<bool>,
    pub map_faults: Vec<MapFaults>,
    pub may_be_empty: Vec<bool>,
}

/// What is known of the instances of a text. A function's proof lists all that its values hold up to a reference, so the parts
/// are borrowed.
#[derive(Clone, Copy)]
pub(crate) struct Meant<'m> {
    pub reached: &'m Reached,
    pub opened: &'m Opened,
    pub valued: &'m Valued,
    pub groups: &'m Groups,
}

// The instances, if they are few and memory is there.
fn instances_in(alloc: Global, terms: &mut Terms<'_>, survey: &Survey) -> Option<Vec<Instance>> {
    let root = root_of(terms, survey, None)?;
    match instances(
        alloc,
        terms,
        &survey.names,
        &survey.known,
        &survey.definitions,
        root,
    ) {
        Ok(Found::Instances(found)) => Some(found),
        _ => None,
    }
}

// The words at the sites that the root reaches.
pub(crate) fn words_in(
    alloc: Global,
    terms: &Terms<'_>,
    survey: &Survey,
    found: &[Instance],
) -> Option<Vec<Word>> {
    reached_words(alloc, terms, survey, found).ok()
}

fn questions_in(
    alloc: Global,
    terms: &mut Terms<'_>,
    survey: &Survey,
    found: &[Instance],
) -> Option<Questions> {
    let Ok(asked) = questions(alloc, terms, survey, found) else {
        return None;
    };
    match entry_questions(alloc, terms, survey, found) {
        Ok(entries) => Some(Questions { asked, entries }),
        Err(_) => None,
    }
}

fn reached_in(alloc: Global, terms: &mut Terms<'_>, survey: &Survey) -> Option<Reached> {
    let instances = instances_in(alloc, terms, survey)?;
    match questions_in(alloc, terms, survey, &instances) {
        Some(questions) => Some(Reached {
            instances,
            questions,
        }),
        None => None,
    }
}

// The kinds of the names of the table.
fn kinds_in(alloc: Global, terms: &Terms<'_>, survey: &Survey) -> Option<Kinds> {
    let count = terms.text_count();
    match &names(alloc, count, &survey.known, &survey.definitions) {
        Ok(names) => kinds_of(alloc, terms, names, &survey.known, &survey.definitions).ok(),
        Err(_) => None,
    }
}

fn opened_in(
    alloc: Global,
    terms: &mut Terms<'_>,
    survey: &Survey,
    found: &[Instance],
) -> Option<Opened> {
    let Ok(closed) = close(alloc, terms, found) else {
        return None;
    };
    let kinds = kinds_in(alloc, terms, survey)?;
    let most = survey.known.len() + survey.definitions.len();
    let Ok(openings) = openings_of(alloc, terms, &closed, &kinds, most) else {
        return None;
    };
    match endings_of(alloc, terms, &closed, most) {
        Ok(endings) => Some(Opened {
            closed,
            kinds,
            openings,
            endings,
        }),
        Err(_) => None,
    }
}

fn valued_in(alloc: Global, terms: &Terms<'_>, opened: &Opened) -> Option<Valued> {
    let Opened {
        closed,
        kinds,
        openings,
        ..
    } = opened;
    let Ok(literals) = literals(alloc, terms, closed, kinds) else {
        return None;
    };
    let Ok(controllers) = controllers(alloc, terms, closed, kinds, openings, &literals) else {
        return None;
    };
    match members(
        alloc,
        terms,
        closed,
        kinds,
        openings,
        &literals,
        &controllers,
    ) {
        Ok(members) => Some(Valued {
            literals,
            controllers,
            members,
        }),
        Err(_) => None,
    }
}

// The entries of groups, each where it is spliced in.
fn spliced_in(
    alloc: Global,
    terms: &Terms<'_>,
    opened: &Opened,
    entries: &[Asked],
) -> Option<Vec<Spliced>> {
    spliced_entries(
        alloc,
        terms,
        &opened.closed,
        &opened.kinds,
        &opened.openings,
        &opened.endings,
        entries,
    )
    .ok()
}

// What is wrong in the groups of maps.
fn map_faults_in(alloc: Global, terms: &Terms<'_>, opened: &Opened) -> Option<Vec<MapFaults>> {
    let Ok(parts) = parts_of(
        alloc,
        terms,
        &opened.closed,
        &opened.kinds,
        &opened.openings,
    ) else {
        return None;
    };
    match &summaries(alloc, &parts) {
        Ok(summaries) => map_faults(alloc, &parts, summaries).ok(),
        Err(_) => None,
    }
}

fn groups_in(
    alloc: Global,
    terms: &Terms<'_>,
    opened: &Opened,
    entries: &[Asked],
) -> Option<Groups> {
    let spliced = spliced_in(alloc, terms, opened, entries)?;
    let map_faults = map_faults_in(alloc, terms, opened)?;
    let Opened {
        closed,
        kinds,
        openings,
        ..
    } = opened;
    let Ok(choosable) = choosable(alloc, terms, closed, kinds, openings) else {
        return None;
    };
    match may_be_empty(alloc, terms, closed, kinds, openings) {
        Ok(may_be_empty) => Some(Groups {
            spliced,
            choosable,
            map_faults,
            may_be_empty,
        }),
        Err(_) => None,
    }
}

fn answer(
    alloc: Global,
    terms: &Terms<'_>,
    survey: &Survey,
    meant: &Meant<'_>,
    what: &str,
) -> Option<String> {
    match what {
        "opened" | "unwrapped" | "literal" | "range" | "number" | "recursion" => {
            fault_of(alloc, terms, survey, meant, what)
        }
        _ => told(alloc, terms, meant, what),
    }
}

fn with_opened(
    alloc: Global,
    terms: &Terms<'_>,
    survey: &Survey,
    reached: &Reached,
    opened: &Opened,
    what: &str,
) -> Option<String> {
    let valued = valued_in(alloc, terms, opened);
    let groups = groups_in(alloc, terms, opened, &reached.questions.entries);
    match (&valued, &groups) {
        (Some(valued), Some(groups)) => {
            let meant = Meant {
                reached,
                opened,
                valued,
                groups,
            };
            answer(alloc, terms, survey, &meant, what)
        }
        _ => None,
    }
}

fn with_reached<'s>(
    alloc: Global,
    terms: &mut Terms<'s>,
    survey: &Survey,
    reached: &Reached,
    what: &str,
) -> Option<String> {
    match &opened_in(alloc, terms, survey, &reached.instances) {
        Some(opened) => with_opened(alloc, terms, survey, reached, opened, what),
        None => None,
    }
}

// What is reported for the instances of a text, by the name of the call that tells it.
pub(crate) fn surveyed<'s>(
    alloc: Global,
    terms: &mut Terms<'s>,
    survey: &Survey,
    what: &str,
) -> Option<String> {
    match &reached_in(alloc, terms, survey) {
        Some(reached) => with_reached(alloc, terms, survey, reached, what),
        None => None,
    }
}
