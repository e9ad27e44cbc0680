//! What `&` chooses from.

ghost use Rattle.std.specs.Prelude.{◌≡◌, IfOk, List, None, option_copied, slice_get};
ghost use Rattle.all_offsets.specs.Offsets.{AreOffsets, IsAtPlace, IsSaid};
ghost use Rattle.check_groups.specs.Choosing.Choosing.{AreChoosable};
ghost use Rattle.check_instances.specs.Closed.Closed.{IsClosed};
ghost use Rattle.cddl_language.specs.Faults.{Specification, definitions, rules};
ghost use Rattle.cddl_language.specs.Terms.{Ref, Text};
ghost use Rattle.cddl_language.specs.Live.Live.{IsClear};
ghost use Rattle.check_reached.specs.Asked.{AreAsked};
ghost use Rattle.check_root.specs.ReachedFaults.Choices as by;
ghost use Rattle.check_root.specs.ReachedFaults.Choices.{ChoosesFromNone, flag_in};
ghost use Rattle.check_root.specs.Least.{least_over};
ghost use Rattle.lists.specs.Least.{IsLeast};

use all_offsets::{push_found, sort};
use cddl_language::live::reached_parts;
use check_instances::closed::laws::{
    meaning_at, meanings_are_reached, place_of as places_are_told,
};
use check_instances::closed::{Closed, Meaning};
use check_reached::{Asked, Question};
use check_terms::Terms;
use lists::lesser;
use std::alloc::{AllocError, Global};

/// The least offset of `&` of a group, or of a group's name, from which it cannot choose (RFC 8610 section 2.2.2.2).
///
/// The rows are of this table. It takes a time in proportion to what is asked.
pub fn nothing_chosen(
    terms: &Terms<'_>,
    closed: &Closed,
    choosable: &[bool],
    asked: &[Asked],
) -> Option<usize>
    ensures { (s : Specification) (root : Text) (refs : List Ref) → IsClear s → IsClosed (definitions s) root refs terms.now closed.now → AreChoosable (definitions s) root terms.now choosable.now → AreAsked (rules s) root terms.now asked.now → IsLeast (ChoosesFromNone s root) result }
{
    reached_parts();
    places_are_told(terms);
    meaning_at();
    meanings_are_reached();
    least_unchosen(closed, choosable, asked)
}

/// All offsets of such an `&`, in ascending order, each once.
///
/// The rows are of this table. It takes a time of n log n for n questions. An error comes only where memory is refused.
pub fn all_nothing_chosen(
    alloc: Global,
    terms: &Terms<'_>,
    closed: &Closed,
    choosable: &[bool],
    asked: &[Asked],
) -> Result<Vec<usize>, AllocError>
    ensures { IfOk result (λ v. (s : Specification) (root : Text) (refs : List Ref) → IsClear s → IsClosed (definitions s) root refs terms.now closed.now → AreChoosable (definitions s) root terms.now choosable.now → AreAsked (rules s) root terms.now asked.now → AreOffsets (ChoosesFromNone s root) v.items) }
{
    reached_parts();
    places_are_told(terms);
    meaning_at();
    meanings_are_reached();
    all_unchosen(alloc, closed, choosable, asked)
}

fn all_unchosen(
    alloc: Global,
    closed: &Closed,
    choosable: &[bool],
    asked: &[Asked],
) -> Result<Vec<usize>, AllocError>
    ensures { IfOk result (λ v. AreOffsets (IsAtPlace (IsSaid (λ k. by.unchosen_at closed.now choosable.now)) asked.now) v.items) }
{
    let mut offsets = Vec::new(alloc);
    for question in asked {
        let wrong = unchosen_at(closed, choosable, *question);
        push_found(&mut offsets, wrong)?;
    }
    sort(&mut offsets);
    Ok(offsets)
}

fn least_unchosen(closed: &Closed, choosable: &[bool], asked: &[Asked]) -> Option<usize>
    ensures { result ≡ least_over (by.unchosen_at closed.now choosable.now) None asked.now }
{
    let mut least = None;
    for question in asked {
        least = lesser(least, unchosen_at(closed, choosable, *question));
    }
    least
}

fn unchosen_at(closed: &Closed, choosable: &[bool], asked: Asked) -> Option<usize>
    ensures { result ≡ by.unchosen_at closed.now choosable.now asked }
{
    if chooses(closed, choosable, asked.question, asked.row) {
        None
    } else {
        Some(asked.at)
    }
}

fn chooses(closed: &Closed, choosable: &[bool], question: Question, row: u32) -> bool
    ensures { result ≡ by.chooses closed.now choosable.now question row }
{
    match question {
        Question::ChoosesFrom => is_choosable(choosable, row),
        Question::ChoosesByName => is_choosable_by_name(closed, choosable, row),
        _ => true,
    }
}

fn is_choosable(choosable: &[bool], row: u32) -> bool
    ensures { result ≡ flag_in (slice_get choosable.now row) }
{
    match choosable.get(row as usize) {
        Some(flag) => *flag,
        None => false,
    }
}

// Whether `&` can choose from the group of the instance whose reference has this row.
fn is_choosable_by_name(closed: &Closed, choosable: &[bool], row: u32) -> bool
    ensures { result ≡ by.is_choosable_by_name closed.now choosable.now row }
{
    match meaning_of(closed, row) {
        Some(meaning) => has_choice(choosable, meaning.group),
        None => false,
    }
}

// Whether `&` can choose from the group of this row; without one there is nothing that it cannot choose from.
fn has_choice(choosable: &[bool], group: Option<u32>) -> bool
    ensures { result ≡ by.from_group choosable.now group }
{
    match group {
        Some(row) => is_choosable(choosable, row),
        None => true,
    }
}

fn meaning_of(closed: &Closed, row: u32) -> Option<&Meaning>
    ensures { option_copied result ≡ by.meaning_there closed.now row }
{
    let place = place_of(closed, row)?;
    closed.meanings.get(place as usize)
}

fn place_of(closed: &Closed, row: u32) -> Option<u32>
    ensures { result ≡ by.place_there closed.now row }
{
    match closed.places.get(row as usize) {
        Some(place) => *place,
        None => None,
    }
}
