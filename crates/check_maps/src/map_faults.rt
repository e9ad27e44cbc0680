//! What is wrong in the groups of maps of a specification, by rows of a table.
mod large;

ghost use Rattle.std.specs.Prelude.{◌≡◌, ◌≤◌, ◌↔◌, true, IfOk, List, Some, length, slice_get};
ghost use Rattle.cddl_language.specs.Reach.{most_instances};
ghost use Rattle.cddl_language.specs.StandsFor.{AreInstances};
ghost use Rattle.cddl_language.specs.Terms.{Definition, Ref, Text};
ghost use Rattle.check_terms.specs.Table.{Table};
ghost use Rattle.check_groups.specs.Choosing.Signs.{HaveEntries};
ghost use Rattle.alternatives.specs.declared.Part.TheVariants.{Refused};
ghost use Rattle.alternatives.specs.Summaries.{AreSummaries};
ghost use Rattle.check_groups.specs.Splices.Parts.{AreParts};
ghost use Rattle.check_maps.specs.MapFaults.Faults.{AreFaults};
ghost use Rattle.check_maps.specs.MapFaults.Large.{AreFlags, HasLarge, HasPartFaults, IsLarge};

use crate::map_faults::large::{having_large, is_set, large_parts};
use alternatives::{Part, Summary, occurs_badly};
use check_groups::splices::laws::{
    groups_occur_alike, parts_stand_for_choices, parts_stand_for_entries,
};
use std::alloc::{AllocError, Global};

/// What is wrong with a row as a part of the group of a map (RFC 8610 section 3.5).
#[derive(Clone, Copy)]
pub struct MapFaults {
    /// An entry has no key and is no group.
    pub lacks_key: bool,
    /// An entry is a group that may not occur so often.
    pub occurs_badly: bool,
    /// A group, or a part of it, has more alternatives than may be, or more members in them.
    pub has_too_many: bool,
}

/// For each row of a table what is wrong with it, where these are the parts of the rows and their summaries, and for the part
/// after the rows.
///
/// The first two tell of rows of entries, the last one of rows of groups. Of other rows, and of rows that stand for what has
/// references that are no instances, they say nothing.
///
/// It takes a time in proportion to the parts, and nothing recurses. An error comes only where memory is refused.
pub fn map_faults(
    alloc: Global,
    parts: &[Part],
    summaries: &[Option<Summary>],
) -> Result<Vec<MapFaults>, AllocError>
    ensures { IfOk result (λ v. (xs : List Definition) (root : Text) (refs : List Ref) (t : Table) → HaveEntries xs → AreInstances xs root refs → length refs ≤ most_instances → AreParts xs root t parts.now → AreSummaries parts.now summaries.now → AreFaults xs root t v.items) }
{
    groups_occur_alike();
    parts_stand_for_choices();
    parts_stand_for_entries();
    let large = large_parts(alloc, summaries)?;
    let inside = having_large(alloc, parts, &large)?;
    let mut faults = Vec::new(alloc);
    for number in 0..parts.len() {
        faults.push(faults_at(parts, summaries, &large, &inside, number))?;
    }
    Ok(faults)
}

// What is wrong at a part, where these are too large and these have such a one.
fn faults_at(
    parts: &[Part],
    summaries: &[Option<Summary>],
    large: &[bool],
    inside: &[bool],
    number: usize,
) -> MapFaults
    ensures { AreSummaries parts.now summaries.now → AreFlags (IsLarge parts.now) parts.now large.now → AreFlags (HasLarge parts.now) parts.now inside.now → HasPartFaults parts.now number result }
{
    MapFaults {
        lacks_key: is_refused(parts, number),
        occurs_badly: occurs_badly(parts, summaries, number),
        has_too_many: is_set(large, number) | is_set(inside, number),
    }
}

// Whether the part is an entry without a key.
fn is_refused(parts: &[Part], number: usize) -> bool
    ensures { (result ≡ true) ↔ (slice_get parts.now number ≡ Some Refused) }
{
    matches!(parts.get(number), Some(Part::Refused))
}
