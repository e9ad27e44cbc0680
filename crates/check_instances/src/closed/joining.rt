//! One group of the alternatives of all bodies of an instance.

ghost use Rattle.std.specs.Prelude.{◌≡◌, ◌++◌, [], ◌∷◌, IfOk, List, Some, flat_map};
ghost use Rattle.cddl_language.specs.Terms as L;
ghost use Rattle.cddl_language.specs.Terms.{Entries, Entry};
ghost use Rattle.cddl_language.specs.Substitution.{body_alternatives};
ghost use Rattle.check_terms.specs.Definitions.{IsBody};
ghost use Rattle.check_terms.specs.Table.{Grows};
ghost use Rattle.check_terms.specs.Trees.{IsEntry, IsTerm};
ghost use Rattle.check_instances.specs.Bodies.{AreBodies};
ghost use Rattle.check_instances.specs.Closed.Closed.{AreAlternatives};
ghost use Rattle.check_instances.specs.Closed.Joining as by;

use crate::closed::spines::alternatives;
use crate::closed::store::add;
use check_terms::laws::growing_keeps;
use check_terms::{Body, Form, NoRoom, Terms};
use std::alloc::Global;

// The row of a group with the alternatives of all these bodies, in order. A single group in parentheses keeps its row; there is
// none of no bodies.
pub(crate) fn group_of(
    alloc: Global,
    terms: &mut Terms<'_>,
    bodies: &[Body],
) -> Result<Option<u32>, NoRoom>
    ensures grows { Grows terms.old terms.new }
    ensures texts { terms.new.texts ≡ terms.old.texts }
    ensures stands { IfOk result (λ g. (xs : List L.Body) → AreBodies terms.old bodies.now xs → AreAlternatives terms.new (flat_map body_alternatives xs) g) }
{
    growing_keeps();
    let mut group = None;
    for body in bodies {
        group = Some(with_body(alloc, terms, group, *body)?);
    }
    Ok(group)
}

// The group with the body's alternatives after its own.
fn with_body(
    alloc: Global,
    terms: &mut Terms<'_>,
    group: Option<u32>,
    body: Body,
) -> Result<u32, NoRoom>
    ensures grows { Grows terms.old terms.new }
    ensures texts { terms.new.texts ≡ terms.old.texts }
    ensures stands { IfOk result (λ n. (x : L.Body) (es : List Entries) → IsBody terms.old body x → AreAlternatives terms.old es group → AreAlternatives terms.new (es ++ body_alternatives x) (Some n)) }
{
    growing_keeps();
    let further = body_group(terms, body)?;
    match group {
        Some(group) => joined(alloc, terms, group, further),
        None => Ok(further),
    }
}

// The group with the further one's alternatives after its own.
fn joined(alloc: Global, terms: &mut Terms<'_>, group: u32, further: u32) -> Result<u32, NoRoom>
    ensures grows { Grows terms.old terms.new }
    ensures texts { terms.new.texts ≡ terms.old.texts }
    ensures stands { IfOk result (λ n. (es fs : List Entries) → AreAlternatives terms.old es (Some group) → AreAlternatives terms.old fs (Some further) → AreAlternatives terms.new (es ++ fs) (Some n)) }
{
    growing_keeps();
    let Ok(rows) = alternatives(alloc, terms, further) else {
        return Err(NoRoom);
    };
    let mut whole = group;
    for row in &rows {
        whole = add(terms, Form::OrElse, Some(whole), Some(*row))?;
    }
    Ok(whole)
}

// The row of the body as a group.
fn body_group(terms: &mut Terms<'_>, body: Body) -> Result<u32, NoRoom>
    ensures grows { Grows terms.old terms.new }
    ensures texts { terms.new.texts ≡ terms.old.texts }
    ensures stands { IfOk result (λ n. (x : L.Body) → IsBody terms.old body x → AreAlternatives terms.new (body_alternatives x) (Some n)) }
{
    match body {
        Body::Types(row) => type_group(terms, row),
        Body::Entry(row) => entry_group(terms, row),
    }
}

// The group of an entry of the type.
fn type_group(terms: &mut Terms<'_>, row: u32) -> Result<u32, NoRoom>
    ensures grows { Grows terms.old terms.new }
    ensures texts { terms.new.texts ≡ terms.old.texts }
    ensures stands { IfOk result (λ n. (x : L.Term) → IsTerm terms.old row x → AreAlternatives terms.new (body_alternatives (L.of_types x)) (Some n)) }
{
    growing_keeps();
    let entry = add(terms, Form::Typed, Some(row), None)?;
    lone(terms, entry)
}

// The group of the entry, or in its parentheses.
fn entry_group(terms: &mut Terms<'_>, row: u32) -> Result<u32, NoRoom>
    ensures grows { Grows terms.old terms.new }
    ensures texts { terms.new.texts ≡ terms.old.texts }
    ensures stands { IfOk result (λ n. (x : Entry) → IsEntry terms.old row x → AreAlternatives terms.new (body_alternatives (L.of_entry x)) (Some n)) }
{
    growing_keeps();
    match bare_group(terms, row) {
        Some(group) => Ok(group),
        None => lone(terms, row),
    }
}

// The group in the entry's parentheses, where it has no occurrence.
fn bare_group(terms: &Terms<'_>, number: u32) -> Option<u32>
    ensures { result ≡ by.bare_at terms.now.rows number }
{
    let row = terms.row(number)?;
    match (row.form, row.text) {
        (Form::Grouped, None) => row.first,
        _ => None,
    }
}

// The group of this one entry.
fn lone(terms: &mut Terms<'_>, entry: u32) -> Result<u32, NoRoom>
    ensures grows { Grows terms.old terms.new }
    ensures texts { terms.new.texts ≡ terms.old.texts }
    ensures stands { IfOk result (λ n. (x : Entry) → IsEntry terms.old entry x → AreAlternatives terms.new (L.lone x ∷ []) (Some n)) }
{
    growing_keeps();
    let none = add(terms, Form::NoEntries, None, None)?;
    let one = add(terms, Form::Entries, Some(none), Some(entry))?;
    add(terms, Form::Sole, Some(one), None)
}
