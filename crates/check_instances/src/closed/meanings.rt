//! What each instance means: the choices of its bodies as a type, and their alternatives as a group.

ghost use Rattle.std.specs.Prelude.{◌≡◌, ◌≤◌, ◌++◌, [], ◌∷◌, IfOk, OnOk, List, length};
ghost use Rattle.cddl_language.specs.Reach.{most_instances};
ghost use Rattle.cddl_language.specs.StandsFor.{AreInstances};
ghost use Rattle.cddl_language.specs.Substitution.{types_in};
ghost use Rattle.cddl_language.specs.Terms as L;
ghost use Rattle.cddl_language.specs.Terms.{Ref, Term, Text};
ghost use Rattle.cddl_meaning.specs.Alike.{AlikeAll};
ghost use Rattle.check_terms.specs.Definitions.{IsBody};
ghost use Rattle.check_terms.specs.Table.{Grows};
ghost use Rattle.check_instances.specs.Bodies.{AreBodies};
ghost use Rattle.check_instances.specs.Found.{AreFound, IsInstance};
ghost use Rattle.check_instances.specs.Closed.Closed.{IsClosed, IsMeaning, TermRow};

use crate::Instance;
use crate::closed::closed::{Closed, Meaning};
use crate::closed::joining::group_of;
use crate::closed::looking::{places_of, stripped_of};
use crate::closed::spines::choices;
use crate::room::take;
use check_terms::laws::{equal_numbers, growing_keeps, is_table, rows_stand};
use check_terms::{Body, NoRoom, Terms, push};
use rooms::Room;
use std::alloc::Global;

/// How many rows a body may need for its group, which take no room.
const ROWS_OF_A_BODY: usize = 4;

/// How many choices, and further rows of groups, instances may have together, beside those that the rows give room for, and beside
/// one choice for each body.
const CHOICES: u64 = 65_536;

/// For how many of them each row gives room.
const CHOICES_OF_A_ROW: u64 = 4;

/// What the instances mean (RFC 8610 section 3.10), and what is looked up of them by rows of the table, which gets a row for each
/// group that is none of its rows.
///
/// It takes time and memory in proportion to the rows, and to the choices and the alternatives of all instances together.
///
/// These choices, and the rows that are added, are at most 65,536 and four for each row that the table has before, beside one choice
/// and four rows for each body.
///
/// An error comes where memory is refused, where there are more of these, or where each number of 32 bits is taken; then some rows
/// may have been added. It may come, too, where a number is not of this table.
pub fn close(alloc: Global, terms: &mut Terms<'_>, found: &[Instance]) -> Result<Closed, NoRoom>
    ensures grows { Grows terms.old terms.new }
    ensures texts { terms.new.texts ≡ terms.old.texts }
    ensures closed { IfOk result (λ c. (xs : List L.Definition) (root : Text) (refs : List Ref) → AreInstances xs root refs → length refs ≤ most_instances → AreFound xs terms.old found.now refs → IsClosed xs root refs terms.new c) }
{
    let meanings = meanings_of(alloc, terms, found)?;
    let places = places_of(alloc, terms.len(), &meanings)?;
    let stripped = stripped_of(alloc, terms)?;
    equal_numbers(terms);
    rows_stand(terms);
    Ok(Closed {
        meanings,
        places,
        stripped,
    })
}

fn meanings_of(
    alloc: Global,
    terms: &mut Terms<'_>,
    found: &[Instance],
) -> Result<Vec<Meaning>, NoRoom>
    ensures grows { Grows terms.old terms.new }
    ensures texts { terms.new.texts ≡ terms.old.texts }
    ensures means { IfOk result (λ v. (xs : List L.Definition) (refs : List Ref) → AreFound xs terms.old found.now refs → AlikeAll (IsMeaning xs terms.new) refs v.items) }
{
    growing_keeps();
    let mut room = Room::new(CHOICES, CHOICES_OF_A_ROW, terms.len());
    let mut meanings = Vec::new(alloc);
    for instance in found {
        let rows = terms.len();
        let meaning = meaning_of(alloc, terms, instance)?;
        let bodies = instance.bodies.len();
        let added = terms.len().saturating_sub(rows);
        take(&mut room, meaning.types.len().saturating_sub(bodies))?;
        take(
            &mut room,
            added.saturating_sub(bodies.saturating_mul(ROWS_OF_A_BODY)),
        )?;
        push(&mut meanings, meaning)?;
    }
    Ok(meanings)
}

fn meaning_of(alloc: Global, terms: &mut Terms<'_>, instance: &Instance) -> Result<Meaning, NoRoom>
    ensures grows { Grows terms.old terms.new }
    ensures texts { terms.new.texts ≡ terms.old.texts }
    ensures means { IfOk result (λ m. (xs : List L.Definition) (r : Ref) → IsInstance xs terms.old instance.now r → IsMeaning xs terms.new r m) }
{
    growing_keeps();
    let types = types_of(alloc, terms, &instance.bodies)?;
    let group = group_of(alloc, terms, &instance.bodies)?;
    Ok(Meaning {
        call: instance.call,
        types,
        group,
    })
}

// The choices of all these bodies, in order. An entry has none.
fn types_of(alloc: Global, terms: &Terms<'_>, bodies: &[Body]) -> Result<Vec<u32>, NoRoom>
    ensures { IfOk result (λ v. (xs : List L.Body) → AreBodies terms.now bodies.now xs → AlikeAll (TermRow terms.now) (types_in xs) v.items) }
{
    let mut types = Vec::new(alloc);
    for body in bodies {
        add_choices(alloc, terms, &mut types, *body)?;
    }
    Ok(types)
}

fn add_choices(
    alloc: Global,
    terms: &Terms<'_>,
    types: &mut Vec<u32>,
    body: Body,
) -> Result<(), NoRoom>
    ensures { OnOk result ((x : L.Body) (ys : List Term) → IsBody terms.now body x → AlikeAll (TermRow terms.now) ys types.old.items → AlikeAll (TermRow terms.now) (ys ++ types_in (x ∷ [])) types.new.items) }
{
    let Body::Types(row) = body else {
        return Ok(());
    };
    let Ok(rows) = choices(alloc, terms, row) else {
        return Err(NoRoom);
    };
    match types.extend_from_slice(&rows) {
        Ok(()) => Ok(()),
        Err(_) => Err(NoRoom),
    }
}
