//! What a closed reference means: the bodies of its name's definitions, with its arguments in the place of parameters.

ghost use Rattle.std.specs.Prelude.{◌≡◌, ◌++◌, ℕ, List, Some, IfOk, option_copied, slice_get};
ghost use Rattle.cddl_language.specs.Environment.{definitions_of, from_prelude};
ghost use Rattle.cddl_language.specs.Prelude.{prelude};
ghost use Rattle.cddl_language.specs.Substitution.{bodies, fill_body};
ghost use Rattle.cddl_language.specs.Terms as L;
ghost use Rattle.cddl_language.specs.Terms.{Ref, Term, Text};
ghost use Rattle.check_terms.specs.Definitions.{IsBody};
ghost use Rattle.check_terms.specs.Filled.{term_trees};
ghost use Rattle.check_terms.specs.Table.{Grows};
ghost use Rattle.check_terms.specs.Trees.{IsRef};
ghost use Rattle.check_names.specs.Environment.Environment.{AreAt, IsStanding, as_list};
ghost use Rattle.check_names.specs.Environment.Names.{standing};
ghost use Rattle.check_terms.specs.Fill.Templates.{AreTrees};
ghost use Rattle.check_instances.specs.Bodies.{AreBodies, AreMeanings, ArePatterns, filled_bodies};
ghost use Rattle.check_instances.specs.Steps as by;

use crate::laws::patterns_grow;
use crate::patterns::Pattern;
use crate::room::{Lack, take};
use check_names::environment::Name;
use check_terms::fill::arguments_of;
use check_terms::laws::{filled_trees, is_table};
use check_terms::{Body, Terms, push};
use rooms::Room;
use std::alloc::Global;

// What a closed reference means: the body of each definition of its name, with the arguments in the place of the parameters.
// The arguments and the bodies take room, and so does each row of a body that holds a parameter, whether the filled one is new or
// there already.
pub(crate) fn bodies_of(
    alloc: Global,
    room: &mut Room,
    terms: &mut Terms<'_>,
    names: &[Name],
    known: &[Pattern],
    own: &[Pattern],
    call: u32,
) -> Result<Vec<Body>, Lack>
    ensures grows { Grows terms.old terms.new }
    ensures texts { terms.new.texts ≡ terms.old.texts }
    ensures stand { IfOk result (λ v. (xs : List L.Definition) (r : Ref) → AreMeanings xs terms.old names.now known.now own.now → IsRef terms.old call r → AreBodies terms.new v.items (bodies xs r)) }
{
    is_table(terms);
    let Some(row) = terms.row(call) else {
        return Err(Lack::Memory);
    };
    let Some(name) = name_at(names, row.text) else {
        return Err(Lack::Memory);
    };
    let arguments = arguments_of(alloc, terms, row.first)?;
    take(room, arguments.len())?;
    fill_name(alloc, room, terms, name, known, own, &arguments)
}

fn name_at(names: &[Name], number: Option<u32>) -> Option<&Name>
    ensures { (k : ℕ) → number ≡ Some k → option_copied result ≡ slice_get names.now k }
{
    names.get(number? as usize)
}

// The bodies of the name's definitions: the prelude's, unless the text replaces it, and those of the text that count.
fn fill_name(
    alloc: Global,
    room: &mut Room,
    terms: &mut Terms<'_>,
    name: &Name,
    known: &[Pattern],
    own: &[Pattern],
    arguments: &[u32],
) -> Result<Vec<Body>, Lack>
    ensures grows { Grows terms.old terms.new }
    ensures texts { terms.new.texts ≡ terms.old.texts }
    ensures stand { IfOk result (λ v. (xs : List L.Definition) (n : Text) (ts : List Term) → IsStanding xs n (standing name.now) → ArePatterns terms.old known.now prelude → ArePatterns terms.old own.now xs → AreTrees terms.old arguments.now (term_trees ts) → AreBodies terms.new v.items (filled_bodies ts (definitions_of xs n))) }
{
    patterns_grow();
    let bodies = fill_known(alloc, room, terms, kept_place(name), known, arguments)?;
    fill_own(alloc, room, terms, &name.counting, own, arguments, bodies)
}

// The place of the prelude's definition, unless the text replaces it.
fn kept_place(name: &Name) -> Option<usize>
    ensures { result ≡ by.kept_place (standing name.now) }
{
    match name.first_equals {
        Some(_) => None,
        None => name.known,
    }
}

fn fill_known(
    alloc: Global,
    room: &mut Room,
    terms: &mut Terms<'_>,
    place: Option<usize>,
    patterns: &[Pattern],
    arguments: &[u32],
) -> Result<Vec<Body>, Lack>
    ensures grows { Grows terms.old terms.new }
    ensures texts { terms.new.texts ≡ terms.old.texts }
    ensures stand { IfOk result (λ v. (ds all : List L.Definition) (ts : List Term) → AreAt all (as_list place) ds → ArePatterns terms.old patterns.now all → AreTrees terms.old arguments.now (term_trees ts) → AreBodies terms.new v.items (filled_bodies ts ds)) }
{
    let mut bodies = Vec::new(alloc);
    if let Some(place) = place {
        let body = fill_at(alloc, room, terms, place, patterns, arguments)?;
        push(&mut bodies, body)?;
    }
    Ok(bodies)
}

// The bodies of the definitions at these places, after the others.
fn fill_own(
    alloc: Global,
    room: &mut Room,
    terms: &mut Terms<'_>,
    places: &[usize],
    patterns: &[Pattern],
    arguments: &[u32],
    mut bodies: Vec<Body>,
) -> Result<Vec<Body>, Lack>
    ensures grows { Grows terms.old terms.new }
    ensures texts { terms.new.texts ≡ terms.old.texts }
    ensures stand { IfOk result (λ v. (ds all : List L.Definition) (ts : List Term) (before : List L.Body) → AreAt all places.now ds → ArePatterns terms.old patterns.now all → AreTrees terms.old arguments.now (term_trees ts) → AreBodies terms.old bodies.items before → AreBodies terms.new v.items (before ++ filled_bodies ts ds)) }
{
    patterns_grow();
    for place in places {
        let body = fill_at(alloc, room, terms, *place, patterns, arguments)?;
        push(&mut bodies, body)?;
    }
    Ok(bodies)
}

// The body of the definition at the place.
fn fill_at(
    alloc: Global,
    room: &mut Room,
    terms: &mut Terms<'_>,
    place: usize,
    patterns: &[Pattern],
    arguments: &[u32],
) -> Result<Body, Lack>
    ensures grows { Grows terms.old terms.new }
    ensures texts { terms.new.texts ≡ terms.old.texts }
    ensures stands { IfOk result (λ b. (all : List L.Definition) (d : L.Definition) (ts : List Term) → slice_get all place ≡ Some d → ArePatterns terms.old patterns.now all → AreTrees terms.old arguments.now (term_trees ts) → IsBody terms.new b (fill_body d.parameters ts d.body)) }
{
    filled_trees();
    let Some(pattern) = pattern_at(patterns, place) else {
        return Err(Lack::Memory);
    };
    take(room, 1)?;
    take(room, pattern.template.steps())?;
    let row = pattern.template.fill(alloc, terms, arguments)?;
    Ok(with_row(pattern.body, row))
}

fn pattern_at(patterns: &[Pattern], place: usize) -> Option<&Pattern>
    ensures { option_copied result ≡ slice_get patterns.now place }
{
    patterns.get(place)
}

fn with_row(body: Body, row: u32) -> Body
    ensures { result ≡ by.with_row body row }
{
    match body {
        Body::Types(_) => Body::Types(row),
        Body::Entry(_) => Body::Entry(row),
    }
}
