//! All instances that a root leads to, each a closed reference with the bodies that it means, unless there are too many.

ghost use Rattle.std.specs.Prelude.{◌≡◌, ℕ, [], ◌∷◌, ◌++◌, List, Some, IfOk, length, slice_get};
ghost use Rattle.cddl_language.specs.Prelude.{prelude};
ghost use Rattle.cddl_language.specs.Terms as L;
ghost use Rattle.cddl_language.specs.Terms.{Ref, Text, no_terms};
ghost use Rattle.check_terms.specs.Definitions.{AreDefinitions};
ghost use Rattle.check_terms.specs.Table.{Grows, IsTable};
ghost use Rattle.check_terms.specs.Trees.{IsRef};
ghost use Rattle.check_names.specs.Environment.Names.{AreNames};
ghost use Rattle.check_instances.specs.Bodies.{AreMeanings};
ghost use Rattle.check_instances.specs.Found.{IsFound, IsInstance};
ghost use Rattle.check_instances.specs.Search.{IsSearch};
ghost use Rattle.check_instances.specs.Steps.{rows_of};

use crate::bodies::bodies_of;
use crate::laws::patterns_grow;
use crate::outlines::outlines;
use crate::patterns::{Pattern, patterns};
use crate::room::Lack;
use crate::search::Search;
use check_names::environment::laws::names_stand;
use check_names::environment::{Name, names};
use check_terms::laws::{equal_numbers, growing_keeps};
use check_terms::{Body, Definition, Form, NoRoom, Row, Terms, push};
use rooms::Room;
use std::alloc::Global;

/// How many instances there may be.
pub const MOST_INSTANCES: usize = 4096;

/// How many bodies, rows in them and arguments instances may have, beside those that the text gives room for.
const FILLED_ROWS: u64 = 524_288;

/// For how many of them each row and each definition of the text gives room.
const FILLED_ROWS_OF_A_ROW: u64 = 2;

/// A closed reference that the root leads to, and what it means.
#[derive(Drop)]
pub struct Instance {
    /// The row of the reference.
    pub call: u32,
    /// The body of each definition of its name, with the arguments in the place of the parameters, in order.
    pub bodies: Vec<Body>,
}

/// What a search for instances finds.
#[derive(Drop)]
pub enum Found {
    /// All of them, each once.
    Instances(Vec<Instance>),
    /// There are more than may be.
    TooMany,
}

/// The instances: the closed reference to the root, the name with this text, and with each closed reference those that stand in
/// what it means (RFC 8610 section 3.10).
///
/// The numbers are of this table, the known definitions are those of the prelude, and the names are what
/// [`check_names::environment::names`] says of both lists.
///
/// Each row that an instance's bodies are made of is visited once, however often it is shared, and each body is filled once for
/// each instance. The template of each definition is made first, which costs n log n for the rows of all of them. With more
/// instances than may be the search ends at once. Nothing recurses.
///
/// The arguments and the bodies of all instances, and the rows that are added for these, are at most 524,288 and two for each
/// definition and each row that the table has before. Where they are more, a second search goes through the references of the
/// bodies alone, only to see whether there are too many instances. Its arguments, bodies and rows are at most 524,288 again, beside
/// rows in proportion to the text, which it needs to begin.
///
/// An error comes where memory is refused or each number of 32 bits is taken, and where there are more of these than there is room
/// for and the second search does not find too many instances; then some rows may have been added. It may come, too, where a
/// number is not of this table.
pub fn instances(
    alloc: Global,
    terms: &mut Terms<'_>,
    names: &[Name],
    known: &[Definition],
    definitions: &[Definition],
    root: u32,
) -> Result<Found, NoRoom>
    ensures grows { Grows terms.old terms.new }
    ensures texts { terms.new.texts ≡ terms.old.texts }
    ensures found { IfOk result (λ f. (xs : List L.Definition) (n : Text) (count : ℕ) → AreDefinitions terms.old known.now prelude → AreDefinitions terms.old definitions.now xs → AreNames count known.now definitions.now names.now → slice_get terms.old.texts root ≡ Some n → IsFound xs n terms.new f) }
{
    growing_keeps();
    let call = root_call(terms, root)?;
    let rows = terms.len().saturating_add(definitions.len());
    let room = Room::new(FILLED_ROWS, FILLED_ROWS_OF_A_ROW, rows);
    match instances_of(alloc, room, terms, names, known, definitions, call) {
        Ok(found) => Ok(found),
        Err(Lack::Memory) => Err(NoRoom),
        Err(Lack::Room) => count_outlines(alloc, terms, known, definitions, call),
    }
}

// The reference to the name without arguments.
fn root_call(terms: &mut Terms<'_>, root: u32) -> Result<u32, NoRoom>
    ensures grows { Grows terms.old terms.new }
    ensures texts { terms.new.texts ≡ terms.old.texts }
    ensures stands { IfOk result (λ n. (x : Text) → slice_get terms.old.texts root ≡ Some x → IsRef terms.new n (L.call x no_terms)) }
{
    growing_keeps();
    if root as usize >= terms.text_count() {
        return Err(NoRoom);
    }
    let none = terms.add(Row {
        form: Form::NoTerms,
        text: None,
        first: None,
        second: None,
    })?;
    terms.add(Row {
        form: Form::Call,
        text: Some(root),
        first: Some(none),
        second: None,
    })
}

// Says that there are too many where the outlines of the definitions have too many; else there is no room.
fn count_outlines(
    alloc: Global,
    terms: &mut Terms<'_>,
    known: &[Definition],
    definitions: &[Definition],
    root: u32,
) -> Result<Found, NoRoom>
    ensures grows { Grows terms.old terms.new }
    ensures texts { terms.new.texts ≡ terms.old.texts }
    ensures found { IfOk result (λ f. (xs : List L.Definition) (n : Text) → AreDefinitions terms.old known.now prelude → AreDefinitions terms.old definitions.now xs → IsRef terms.old root (L.call n no_terms) → IsFound xs n terms.new f) }
{
    growing_keeps();
    let outlines = outlines(alloc, terms, definitions)?;
    let Ok(names) = names(alloc, terms.text_count(), known, &outlines) else {
        return Err(NoRoom);
    };
    let room = Room::new(FILLED_ROWS, 0, 0);
    match instances_of(alloc, room, terms, &names, known, &outlines, root) {
        Ok(Found::TooMany) => Ok(Found::TooMany),
        _ => Err(NoRoom),
    }
}

// The instances, whose bodies, rows in them and arguments take this room.
fn instances_of(
    alloc: Global,
    room: Room,
    terms: &mut Terms<'_>,
    names: &[Name],
    known: &[Definition],
    definitions: &[Definition],
    root: u32,
) -> Result<Found, Lack>
    ensures grows { Grows terms.old terms.new }
    ensures texts { terms.new.texts ≡ terms.old.texts }
    ensures found { IfOk result (λ f. (xs : List L.Definition) (n : Text) (count : ℕ) → AreDefinitions terms.old known.now prelude → AreDefinitions terms.old definitions.now xs → AreNames count known.now definitions.now names.now → IsRef terms.old root (L.call n no_terms) → IsFound xs n terms.new f) }
{
    growing_keeps();
    names_stand();
    let known = patterns(alloc, terms, known)?;
    let own = patterns(alloc, terms, definitions)?;
    search_from(alloc, room, terms, names, &known, &own, root)
}

fn search_from(
    alloc: Global,
    mut room: Room,
    terms: &mut Terms<'_>,
    names: &[Name],
    known: &[Pattern],
    own: &[Pattern],
    root: u32,
) -> Result<Found, Lack>
    ensures grows { Grows terms.old terms.new }
    ensures texts { terms.new.texts ≡ terms.old.texts }
    ensures found { IfOk result (λ f. (xs : List L.Definition) (n : Text) → AreMeanings xs terms.old names.now known.now own.now → IsRef terms.old root (L.call n no_terms) → IsFound xs n terms.new f) }
{
    growing_keeps();
    patterns_grow();
    let mut search = begin(alloc, terms, root)?;
    let mut found = Vec::new(alloc);
    while let Some(call) = search.reference(found.len()) {
        if search.refs.len() > MOST_INSTANCES {
            equal_numbers(terms);
            return Ok(Found::TooMany);
        }
        let instance = follow(
            alloc,
            &mut room,
            terms,
            &mut search,
            names,
            known,
            own,
            call,
        )?;
        push(&mut found, instance)?;
    }
    equal_numbers(terms);
    Ok(Found::Instances(found))
}

fn begin(alloc: Global, terms: &Terms<'_>, root: u32) -> Result<Search, NoRoom>
    ensures ends { IfOk result (λ s. s.waiting.items ≡ []) }
    ensures begins { IfOk result (λ s. (xs : List L.Definition) (n : Text) → IsRef terms.now root (L.call n no_terms) → IsSearch xs n terms.now (root ∷ []) [] s.marks.items s.waiting.items s.refs.items) }
{
    let mut search = Search::new(alloc);
    push(&mut search.waiting, root)?;
    search.walk(terms)?;
    Ok(search)
}

// What the reference means, and the references that stand in it.
fn follow(
    alloc: Global,
    room: &mut Room,
    terms: &mut Terms<'_>,
    search: &mut Search,
    names: &[Name],
    known: &[Pattern],
    own: &[Pattern],
    call: u32,
) -> Result<Instance, Lack>
    ensures grows { Grows terms.old terms.new }
    ensures texts { terms.new.texts ≡ terms.old.texts }
    ensures call { IfOk result (λ i. i.call ≡ call) }
    ensures ends { IfOk result (λ i. search.new.waiting.items ≡ []) }
    ensures means { IfOk result (λ i. (xs : List L.Definition) (r : Ref) → AreMeanings xs terms.old names.now known.now own.now → IsRef terms.old call r → IsInstance xs terms.new i r) }
    ensures follows { IfOk result (λ i. (xs : List L.Definition) (n : Text) (from first : List ℕ) → AreMeanings xs terms.old names.now known.now own.now → search.old.waiting.items ≡ [] → slice_get search.old.refs.items (length first) ≡ Some call → IsSearch xs n terms.old from first search.old.marks.items search.old.waiting.items search.old.refs.items → IsSearch xs n terms.new (rows_of i.bodies.items ++ from) (first ++ call ∷ []) search.new.marks.items search.new.waiting.items search.new.refs.items) }
{
    growing_keeps();
    let bodies = bodies_of(alloc, room, terms, names, known, own, call)?;
    search.await_bodies(&bodies)?;
    search.walk(terms)?;
    Ok(Instance { call, bodies })
}
