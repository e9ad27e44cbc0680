//! What is wrong in the groups of maps.

ghost use Rattle.std.specs.Prelude.{◌≡◌, ◌+◌, IfErr, IfOk, List, length};
ghost use Rattle.cddl_language.specs.Environment.{most_names};
ghost use Rattle.cddl_language.specs.Faults.{Specification, definitions};
ghost use Rattle.cddl_language.specs.Literals.{Values};
ghost use Rattle.cddl_language.specs.Terms.{Ref, Text};
ghost use Rattle.tree_nodes.specs.declared.tree.Tree.{Tree as Trees};
ghost use Rattle.cddl_check.specs.Stages.{AreMapFaults, AreMaps, IsReading};
ghost use Rattle.cddl_check.specs.declared.stopped.Stopped.TheVariants as Why;

use crate::reading::Reading;
use crate::stopped::Stopped;
use check_groups::choosing::laws::texts_have_entries;
use check_instances::openings::endings_of;
use check_maps::map_cycles::coming_back;
use check_maps::map_faults::{MapFaults as RowFaults, map_faults};
use check_maps::spliced::{Spliced, spliced_entries};
use check_root::spliced_faults::{map_shape, no_key, too_many_alternatives};
use check_terms::Terms;
use std::alloc::Global;

/// The least offsets of what is wrong in the groups of maps.
#[derive(Clone, Copy)]
pub(crate) struct MapFaults {
    /// An entry has neither a key nor a group.
    pub no_key: Option<usize>,
    /// A group comes back to itself, or may not occur so often.
    pub shape: Option<usize>,
    /// A map has more alternatives than may be, or more entries in them.
    pub too_many: Option<usize>,
}

/// The entries that are spliced into the maps that the root reaches, and what is wrong there.
#[derive(Drop)]
pub(crate) struct Maps {
    pub spliced: Vec<Spliced>,
    /// For each of these entries whether it leads back to the group in which it stands.
    pub returning: Vec<bool>,
    /// For each row what is wrong with it in a map.
    pub faults: Vec<RowFaults>,
}

// What is wrong in the groups of the maps that the root reaches (RFC 8610 section 3.5).
pub(crate) fn faults_of_maps(
    alloc: Global,
    terms: &Terms<'_>,
    reading: &Reading,
) -> Result<MapFaults, Stopped>
    ensures found { IfOk result (λ x. (s : Specification) (worth : Values) (tree : Trees) (root : Text) (refs : List Ref) → IsReading s worth root refs terms.now tree reading.now → AreMapFaults s root x) }
    ensures memory { IfErr result (λ e. e ≡ Why.Memory) }
{
    let maps = maps_of(alloc, terms, reading)?;
    Ok(MapFaults {
        no_key: no_key(&maps.spliced, &maps.faults),
        shape: map_shape(&maps.spliced, &maps.faults, &maps.returning),
        too_many: too_many_alternatives(&reading.questions.asked, &maps.faults),
    })
}

// What is spliced into the maps that the root reaches, and what is wrong with it by its rows.
pub(crate) fn maps_of(alloc: Global, terms: &Terms<'_>, reading: &Reading) -> Result<Maps, Stopped>
    ensures found { IfOk result (λ x. (s : Specification) (worth : Values) (tree : Trees) (root : Text) (refs : List Ref) → IsReading s worth root refs terms.now tree reading.now → AreMaps s root refs terms.now x) }
    ensures memory { IfErr result (λ e. e ≡ Why.Memory) }
{
    texts_have_entries();
    let closed = &reading.meant.closed;
    let kinds = &reading.survey.kinds;
    let openings = &reading.meant.openings;
    let entries = &reading.questions.entries;
    let most = reading.survey.known.len() + reading.survey.definitions.len();
    let endings = endings_of(alloc, terms, closed, most)?;
    let spliced = spliced_entries(alloc, terms, closed, kinds, openings, &endings, entries)?;
    let returning = coming_back(alloc, terms, closed, kinds, openings, &endings, &spliced)?;
    let faults = map_faults(alloc, &reading.splices.parts, &reading.splices.summaries)?;
    Ok(Maps {
        spliced,
        returning,
        faults,
    })
}
