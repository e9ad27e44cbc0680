//! Instances that come back to themselves before an item is taken or gone into (C12).

ghost use Rattle.std.specs.Prelude.{◌≡◌, IfOk, List, length, map};
ghost use Rattle.all_offsets.specs.Offsets.{AreOffsets, IsAtPlace, IsSaid};
ghost use Rattle.check_instances.specs.Closed.Closed.{IsClosed};
ghost use Rattle.check_names.specs.Environment.Names.{AreNames};
ghost use Rattle.cddl_language.specs.Faults.{HasRecursion, Specification, definitions as definitions_of, rules};
ghost use Rattle.cddl_language.specs.Prelude.{prelude};
ghost use Rattle.cddl_language.specs.Reading.{name_at};
ghost use Rattle.cddl_language.specs.Terms.{Ref, Text};
ghost use Rattle.check_recursion.specs.Order.{IsOrder};
ghost use Rattle.check_root.specs.RootFaults.Starts as by;
ghost use Rattle.check_root.specs.RootFaults.Starts.{least_start, or_first_byte};
ghost use Rattle.lists.specs.Least.{IsLeast};
ghost use Rattle.check_terms.specs.Definitions.{AreDefinitions};
ghost use Rattle.check_terms.specs.declared.definition.Definition.{Definition};

use all_offsets::{push_found, sort};
use check_instances::closed::Closed;
use check_instances::closed::laws::meaning_at;
use check_names::environment::Name;
use check_names::environment::laws::names_stand;
use check_recursion::Order;
use check_terms::Terms;
use lists::lesser;
use std::alloc::{AllocError, Global};

/// The least offset of the first rule of a name whose instance comes back to itself (C12): by itself, after `~` or after `&` it
/// asks itself before an item is taken or gone into, which RFC 8610 does not say the meaning of. A name that the prelude alone
/// defines has no rule; where no name that comes back has one, it is reported at the first byte.
///
/// The rows and the numbers of names are of this table, and the offsets are those of the rules' names in the order of the text,
/// as a survey has them. It takes a time in proportion to the instances.
pub fn recursion(
    terms: &Terms<'_>,
    starts: &[usize],
    names: &[Name],
    closed: &Closed,
    order: &Order,
) -> Option<usize>
    ensures { (s : Specification) (root : Text) (refs : List Ref) (known definitions : List Definition) → starts.now ≡ map name_at (rules s) → AreDefinitions terms.now known prelude → AreDefinitions terms.now definitions (definitions_of s) → AreNames (length terms.now.texts) known definitions names.now → IsClosed (definitions_of s) root refs terms.now closed.now → IsOrder (definitions_of s) root refs terms.now order.now → IsLeast (HasRecursion s root) result }
{
    names_stand();
    meaning_at();
    match order {
        Order::Ranks(_) => None,
        Order::Cycles(flags) => {
            let first = least_start(terms, starts, names, closed, flags);
            Some(first.unwrap_or(0))
        }
    }
}

/// All offsets of the first rules of such names, in ascending order, each once; or the first byte, where no name that comes back
/// has one.
///
/// It takes a time of n log n for n instances. An error comes only where memory is refused.
pub fn all_recursion(
    alloc: Global,
    terms: &Terms<'_>,
    starts: &[usize],
    names: &[Name],
    closed: &Closed,
    order: &Order,
) -> Result<Vec<usize>, AllocError>
    ensures { IfOk result (λ v. (s : Specification) (root : Text) (refs : List Ref) (known definitions : List Definition) → starts.now ≡ map name_at (rules s) → AreDefinitions terms.now known prelude → AreDefinitions terms.now definitions (definitions_of s) → AreNames (length terms.now.texts) known definitions names.now → IsClosed (definitions_of s) root refs terms.now closed.now → IsOrder (definitions_of s) root refs terms.now order.now → AreOffsets (HasRecursion s root) v.items) }
{
    names_stand();
    meaning_at();
    match order {
        Order::Ranks(_) => Ok(Vec::new(alloc)),
        Order::Cycles(flags) => {
            or_first_byte(all_starts(alloc, terms, starts, names, closed, flags)?)
        }
    }
}

// These offsets, or that of the first byte where there are none.
fn or_first_byte(mut offsets: Vec<usize>) -> Result<Vec<usize>, AllocError>
    ensures { IfOk result (λ v. v.items ≡ or_first_byte offsets.items) }
{
    if offsets.is_empty() {
        offsets.push(0)?;
    }
    Ok(offsets)
}

// The offsets of the first rules of the names of all instances with a flag.
fn all_starts(
    alloc: Global,
    terms: &Terms<'_>,
    starts: &[usize],
    names: &[Name],
    closed: &Closed,
    flags: &[bool],
) -> Result<Vec<usize>, AllocError>
    ensures { IfOk result (λ v. AreOffsets (IsAtPlace (IsSaid (by.start_if terms.now starts.now names.now closed.now)) flags.now) v.items) }
{
    let mut offsets = Vec::new(alloc);
    for (place, flag) in flags.iter().enumerate() {
        let start = start_if(terms, starts, names, closed, place, *flag);
        push_found(&mut offsets, start)?;
    }
    sort(&mut offsets);
    Ok(offsets)
}

// The least offset of the first rules of the names of all instances with a flag.
fn least_start(
    terms: &Terms<'_>,
    starts: &[usize],
    names: &[Name],
    closed: &Closed,
    flags: &[bool],
) -> Option<usize>
    ensures { result ≡ least_start terms.now starts.now names.now closed.now flags.now }
{
    let mut least = None;
    for (place, flag) in flags.iter().enumerate() {
        least = lesser(least, start_if(terms, starts, names, closed, place, *flag));
    }
    least
}

fn start_if(
    terms: &Terms<'_>,
    starts: &[usize],
    names: &[Name],
    closed: &Closed,
    place: usize,
    flag: bool,
) -> Option<usize>
    ensures { result ≡ by.start_if terms.now starts.now names.now closed.now place flag }
{
    if flag {
        start_at(terms, starts, names, closed, place)
    } else {
        None
    }
}

// The offset of the first rule of the name of the instance at this place, if a rule defines it.
fn start_at(
    terms: &Terms<'_>,
    starts: &[usize],
    names: &[Name],
    closed: &Closed,
    place: usize,
) -> Option<usize>
    ensures { result ≡ by.start_at terms.now starts.now names.now closed.now place }
{
    let meaning = closed.meanings.get(place)?;
    let number = terms.row(meaning.call)?.text?;
    let first = names.get(number as usize)?.first?;
    starts.get(first).copied()
}
