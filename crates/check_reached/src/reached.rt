//! The words at the sites that a root reaches.

ghost use Rattle.std.specs.Prelude.{◌≡◌, IfOk, List, length, slice_get};
ghost use Rattle.cddl_language.specs.Faults.{Specification, definitions, rules};
ghost use Rattle.cddl_language.specs.StandsFor.{AreInstances};
ghost use Rattle.cddl_language.specs.Terms.{Ref, Text};
ghost use Rattle.check_names.specs.Environment.Places.{lists};
ghost use Rattle.check_instances.specs.Found.{AreFound};
ghost use Rattle.cddl_language.specs.Live.Live.{IsClear};
ghost use Rattle.check_reached.specs.Calls.{called_in, has_calls};
ghost use Rattle.check_reached.specs.Reached.{AreReachedWords};
ghost use Rattle.check_reading.specs.Survey.Survey.{IsSurvey};
ghost use Rattle.tree_nodes.specs.View.{view};
ghost use Rattle.tree_nodes.specs.declared.tree.Tree.{Tree};

use crate::calls::{calls_by_name, calls_of};
use cddl_language::live::reached_sites as reached_sites_are_live;
use check_instances::Instance;
use check_reading::survey::Survey;
use check_reading::words::Word;
use check_reading::words::laws::words_stand;
use check_terms::{Definition, Terms};
use std::alloc::{AllocError, Global};

/// The words at the sites that the root reaches, of the survey's live ones: those of the rules whose name is that of an instance
/// (RFC 8610 section 3.10).
///
/// The instances are those of [`check_instances::instances`], by the numbers of this table. It takes time and memory in
/// proportion to the live words, the instances and the texts of the table. An error comes only where memory is refused.
pub fn reached_words(
    alloc: Global,
    terms: &Terms<'_>,
    survey: &Survey,
    found: &[Instance],
) -> Result<Vec<Word>, AllocError>
    ensures { IfOk result (λ v. (tree : Tree) (s : Specification) (root : Text) (refs : List Ref) → s.tree ≡ view tree → IsClear s → IsSurvey terms.now tree survey.now → AreInstances (definitions s) root refs → AreFound (definitions s) terms.now found.now refs → AreReachedWords (rules s) root terms.now v.items) }
{
    reached_sites_are_live();
    words_stand();
    let calls = calls_by_name(alloc, terms, found)?;
    called(alloc, &calls, &survey.definitions, &survey.live)
}

// The words of the rules whose name has instances.
fn called(
    alloc: Global,
    calls: &[Vec<u32>],
    definitions: &[Definition],
    live: &[Word],
) -> Result<Vec<Word>, AllocError>
    ensures { IfOk result (λ v. v.items ≡ called_in (lists calls.now) definitions.now live.now) }
{
    let mut reached = Vec::new(alloc);
    for word in live {
        if is_called(calls, definitions, word.rule) {
            reached.push(*word)?;
        }
    }
    Ok(reached)
}

// Whether the name of the rule at the index has instances.
fn is_called(calls: &[Vec<u32>], definitions: &[Definition], rule: usize) -> bool
    ensures { result ≡ has_calls (lists calls.now) (slice_get definitions.now rule) }
{
    let Some(definition) = definitions.get(rule) else {
        return false;
    };
    match calls_of(calls, definition.name) {
        Some(own) => !own.is_empty(),
        None => false,
    }
}
