//! The terms of the prelude's lines, numbered in a table of terms, and the definitions that the lines are.
ghost use Rattle.std.specs.Prelude.{◌≡◌, IfOk, Some, None, codes, false, map, true};
ghost use Rattle.cddl_language.specs.Prelude.{int_and_integer, plain};
ghost use Rattle.cddl_language.specs.Terms.{bareword, entries, keyed, no_entries, or, tagged};
ghost use Rattle.check_terms.specs.Definitions.{AreDefinitions, IsDefinition};
ghost use Rattle.check_terms.specs.Table.{Grows};
ghost use Rattle.check_terms.specs.Trees.{IsEntries, IsEntry, IsTerm};
ghost use Rattle.check_reading.specs.Prelude.Lines.{definition_in, term_of};

use crate::prelude::lines::{Line, Meaning};
use check_terms::laws::growing_keeps;
use check_terms::{Body, Definition, Form, NoRoom, Sign, Terms};
use std::alloc::Global;

/// Adds the terms of the lines, and answers the definitions that the lines say.
pub fn add_lines(
    alloc: Global,
    terms: &mut Terms<'_>,
    lines: &[Line],
) -> Result<Vec<Definition>, NoRoom>
    ensures grows { Grows terms.old terms.new }
    ensures definitions { IfOk result (λ v. AreDefinitions terms.new v.items (map definition_in lines.now)) }
{
    growing_keeps();
    let mut definitions = Vec::new(alloc);
    for line in lines {
        let definition = add_line(alloc, terms, line)?;
        definitions.push(definition).map_err(|_| NoRoom)?;
    }
    Ok(definitions)
}

// The definition that the line says.
fn add_line(alloc: Global, terms: &mut Terms<'_>, line: &Line) -> Result<Definition, NoRoom>
    ensures grows { Grows terms.old terms.new }
    ensures definition { IfOk result (λ d. IsDefinition terms.new d (definition_in line.now)) }
{
    growing_keeps();
    let (name, meaning) = *line;
    let body = add_meaning(terms, meaning)?;
    let name = terms.add_text(name)?;
    Ok(Definition {
        name,
        parameters: Vec::new(alloc),
        sign: Sign::Is,
        body: Body::Types(body),
    })
}

// The type that a line says.
fn add_meaning(terms: &mut Terms<'_>, meaning: Meaning) -> Result<u32, NoRoom>
    ensures grows { Grows terms.old terms.new }
    ensures stands { IfOk result (λ n. IsTerm terms.new n (term_of meaning)) }
{
    match meaning {
        Meaning::Hash(text) => terms.add_node(Form::Hash, Some(text), None, None),
        Meaning::Alias(name) => add_name(terms, name),
        Meaning::Either(one, other) => add_either(terms, one, other),
        Meaning::Tagged(opening, name) => add_tagged(terms, opening, name),
        Meaning::TaggedPair(opening, one, other) => add_tagged_pair(terms, opening, one, other),
    }
}

// The use of a name without arguments.
fn add_name<'s>(terms: &mut Terms<'s>, name: &'s str) -> Result<u32, NoRoom>
    ensures grows { Grows terms.old terms.new }
    ensures stands { IfOk result (λ n. IsTerm terms.new n (plain name.now)) }
{
    let arguments = terms.add_node(Form::NoTerms, None, None, None)?;
    let reference = terms.add_node(Form::Call, Some(name), Some(arguments), None)?;
    terms.add_node(Form::Named, None, Some(reference), None)
}

// A choice of two names.
fn add_either<'s>(terms: &mut Terms<'s>, one: &'s str, other: &'s str) -> Result<u32, NoRoom>
    ensures grows { Grows terms.old terms.new }
    ensures stands { IfOk result (λ n. IsTerm terms.new n (or (plain one.now) (plain other.now))) }
{
    growing_keeps();
    let first = add_name(terms, one)?;
    let second = add_name(terms, other)?;
    terms.add_node(Form::Or, None, Some(first), Some(second))
}

// A tag of what a name means.
fn add_tagged<'s>(terms: &mut Terms<'s>, opening: &'s str, name: &'s str) -> Result<u32, NoRoom>
    ensures grows { Grows terms.old terms.new }
    ensures stands { IfOk result (λ n. IsTerm terms.new n (tagged opening.now (plain name.now))) }
{
    let content = add_name(terms, name)?;
    terms.add_node(Form::Tagged, Some(opening), Some(content), None)
}

// A tag of an array of an int and an integer.
fn add_tagged_pair<'s>(
    terms: &mut Terms<'s>,
    opening: &'s str,
    one: &'s str,
    other: &'s str,
) -> Result<u32, NoRoom>
    ensures grows { Grows terms.old terms.new }
    ensures stands { IfOk result (λ n. IsTerm terms.new n (tagged opening.now (int_and_integer one.now other.now))) }
{
    let pair = add_pair(terms, one, other)?;
    let group = terms.add_node(Form::Sole, None, Some(pair), None)?;
    let array = terms.add_node(Form::ArrayOf, None, Some(group), None)?;
    terms.add_node(Form::Tagged, Some(opening), Some(array), None)
}

// An int and an integer as entries under these keys.
fn add_pair<'s>(terms: &mut Terms<'s>, one: &'s str, other: &'s str) -> Result<u32, NoRoom>
    ensures grows { Grows terms.old terms.new }
    ensures stands { IfOk result (λ n. IsEntries terms.new n (entries (entries no_entries (keyed None (bareword one.now) (plain (codes "int"))) true) (keyed None (bareword other.now) (plain (codes "integer"))) false)) }
{
    growing_keeps();
    let first = add_keyed(terms, one, "int")?;
    let second = add_keyed(terms, other, "integer")?;
    let nothing = terms.add_node(Form::NoEntries, None, None, None)?;
    let before = terms.add_node(Form::EntriesComma, None, Some(nothing), Some(first))?;
    terms.add_node(Form::Entries, None, Some(before), Some(second))
}

// An entry with a bareword as its key.
fn add_keyed<'s>(terms: &mut Terms<'s>, key: &'s str, name: &'s str) -> Result<u32, NoRoom>
    ensures grows { Grows terms.old terms.new }
    ensures stands { IfOk result (λ n. IsEntry terms.new n (keyed None (bareword key.now) (plain name.now))) }
{
    growing_keeps();
    let value = add_name(terms, name)?;
    let key = terms.add_node(Form::Bareword, Some(key), None, None)?;
    terms.add_node(Form::Keyed, None, Some(key), Some(value))
}
