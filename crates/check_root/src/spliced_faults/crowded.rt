//! Maps with too many alternatives.

ghost use Rattle.std.specs.Prelude.{◌≡◌, IfOk};
ghost use Rattle.all_offsets.specs.Offsets.{AreOffsets, IsAtPlace, IsSaid};
ghost use Rattle.cddl_language.specs.Faults.{Specification, definitions, rules};
ghost use Rattle.cddl_language.specs.MapFaults.{HasTooManyAlternatives};
ghost use Rattle.cddl_language.specs.Terms.{Text};
ghost use Rattle.cddl_language.specs.Live.Live.{IsClear};
ghost use Rattle.check_maps.specs.MapFaults.Faults.{AreFaults};
ghost use Rattle.check_reached.specs.Asked.{AreAsked};
ghost use Rattle.check_root.specs.Least.{least_over};
ghost use Rattle.check_root.specs.SplicedFaults.Lookups as by;
ghost use Rattle.lists.specs.Least.{IsLeast};
ghost use Rattle.check_terms.specs.Table.{Table};

use crate::spliced_faults::lookups::{faults_of, told_if};
use all_offsets::{push_found, sort};
use cddl_language::live::reached_parts;
use check_maps::map_faults::MapFaults;
use check_reached::{Asked, Question};
use lists::lesser;
use std::alloc::{AllocError, Global};

/// The least offset of a map whose group, or a part of it, has more alternatives than may be, or more members in them: a limit of
/// this program.
///
/// It takes a time in proportion to what is asked.
pub fn too_many_alternatives(asked: &[Asked], faults: &[MapFaults]) -> Option<usize>
    ensures { (s : Specification) (root : Text) (t : Table) → IsClear s → AreAsked (rules s) root t asked.now → AreFaults (definitions s) root t faults.now → IsLeast (HasTooManyAlternatives (rules s) root) result }
{
    reached_parts();
    least_crowded(asked, faults)
}

/// All offsets of such maps, in ascending order, each once.
///
/// It takes a time of n log n for n questions. An error comes only where memory is refused.
pub fn all_too_many_alternatives(
    alloc: Global,
    asked: &[Asked],
    faults: &[MapFaults],
) -> Result<Vec<usize>, AllocError>
    ensures { IfOk result (λ v. (s : Specification) (root : Text) (t : Table) → IsClear s → AreAsked (rules s) root t asked.now → AreFaults (definitions s) root t faults.now → AreOffsets (HasTooManyAlternatives (rules s) root) v.items) }
{
    reached_parts();
    all_crowded(alloc, asked, faults)
}

fn all_crowded(
    alloc: Global,
    asked: &[Asked],
    faults: &[MapFaults],
) -> Result<Vec<usize>, AllocError>
    ensures { IfOk result (λ v. AreOffsets (IsAtPlace (IsSaid (λ k. by.crowded_at faults.now)) asked.now) v.items) }
{
    let mut offsets = Vec::new(alloc);
    for question in asked {
        push_found(&mut offsets, crowded_at(faults, *question))?;
    }
    sort(&mut offsets);
    Ok(offsets)
}

fn least_crowded(asked: &[Asked], faults: &[MapFaults]) -> Option<usize>
    ensures { result ≡ least_over (by.crowded_at faults.now) None asked.now }
{
    let mut least = None;
    for question in asked {
        least = lesser(least, crowded_at(faults, *question));
    }
    least
}

// The offset of the map of which it was asked, if its group has too many.
fn crowded_at(faults: &[MapFaults], asked: Asked) -> Option<usize>
    ensures { result ≡ by.crowded_at faults.now asked }
{
    match asked.question {
        Question::MapGroup => told_if(has_too_many(faults, asked.row), asked.at),
        _ => None,
    }
}

fn has_too_many(faults: &[MapFaults], row: u32) -> bool
    ensures { result ≡ by.has_too_many faults.now row }
{
    match faults_of(faults, row) {
        Some(wrong) => wrong.has_too_many,
        None => false,
    }
}
