//! What is known of the rules of a text and of the types in it, for the places of a table's types.

ghost use Rattle.std.specs.Prelude.{◌≡◌, ◌++◌, [], ◌∷◌, IfOk, OnOk, map};
ghost use Rattle.cddl_language.specs.Reading.{rules_of};
ghost use Rattle.tree_nodes.specs.View.{view};
ghost use Rattle.source_places.specs.Sources.{IsTold, call_of};
ghost use Rattle.source_places.specs.States.{name_number};

use crate::copies::copy_of;
use check_instances::closed::Meaning;
use check_reading::reader::read;
use check_terms::laws::{equal_numbers, growing_keeps};
use check_terms::{Definition, NoRoom, Terms, push};
use source_pieces::laws::growing_keeps_rules;
use source_pieces::{PieceAt, RuleAt, pieces_at, rules_at};
use std::alloc::Global;
use table_making::TypeOrigin;
use tree_nodes::Tree;

/// Where the types of a table stand in the text of its specification, by their numbers.
#[derive(Drop)]
pub struct Sources<'s> {
    // The terms of the specification, and those of its text that none of its instances has.
    pub(crate) terms: Terms<'s>,
    // The definitions that the rules are, in their order.
    pub(crate) definitions: Vec<Definition>,
    // The row of the reference of each instance.
    pub(crate) calls: Vec<u32>,
    // The types as they are written.
    pub(crate) text: TypesInText,
}

// What is known of the types that stand in the text.
#[derive(Drop)]
pub(crate) struct TypesInText {
    // What each type is of.
    pub(crate) origins: Vec<TypeOrigin>,
    // The number of the name of each instance.
    pub(crate) numbers: Vec<Option<u32>>,
    // The numbers of all names are below this.
    pub(crate) names: usize,
    pub(crate) rules: Vec<RuleAt>,
    pub(crate) pieces: Vec<PieceAt>,
    // Whether arguments are in the place of parameters.
    pub(crate) filled: bool,
}

/// Where the types of a table stand in the text of its specification, by its terms, the meanings of its instances, its tree, and what
/// each type of the table is of.
///
/// It takes memory for a copy of the table of terms, which stays, and a time in proportion to the nodes of the tree, each read once
/// for each bracket in which it stands, of which the parser has 128 at most.
///
/// # Errors
///
/// Memory was refused, or a number does not fit.
pub fn sources_at<'s>(
    alloc: Global,
    terms: &Terms<'s>,
    meanings: &[Meaning],
    tree: &Tree<'s>,
    origins: Vec<TypeOrigin>,
) -> Result<Sources<'s>, NoRoom>
    ensures { IfOk result (λ x. IsTold terms.now meanings.now (rules_of (view tree.now)) origins.items x) }
{
    let numbers = numbers_of(alloc, terms, meanings)?;
    let calls = calls_of(alloc, meanings)?;
    let mut all = copy_of(alloc, terms)?;
    let definitions = read(alloc, &mut all, tree)?;
    let rules = rules_at(alloc, &mut all, tree)?;
    let pieces = pieces_at(alloc, &mut all, tree)?;
    equal_numbers(&all);
    growing_keeps();
    growing_keeps_rules();
    let text = TypesInText {
        origins,
        numbers,
        names: all.text_count(),
        rules,
        pieces,
        filled: false,
    };
    Ok(Sources {
        terms: all,
        definitions,
        calls,
        text,
    })
}

// The row of the reference of each of these instances.
fn calls_of(alloc: Global, meanings: &[Meaning]) -> Result<Vec<u32>, NoRoom>
    ensures { IfOk result (λ v. v.items ≡ map call_of meanings.now) }
{
    let mut calls = Vec::new(alloc);
    for meaning in meanings {
        push(&mut calls, meaning.call)?;
    }
    Ok(calls)
}

// The number of the name of each of these instances.
fn numbers_of(
    alloc: Global,
    terms: &Terms<'_>,
    meanings: &[Meaning],
) -> Result<Vec<Option<u32>>, NoRoom>
    ensures { IfOk result (λ v. v.items ≡ map (name_number terms.now.rows) meanings.now) }
{
    let mut numbers = Vec::new(alloc);
    for meaning in meanings {
        push_number(&mut numbers, name_number(terms, meaning))?;
    }
    Ok(numbers)
}

fn push_number(numbers: &mut Vec<Option<u32>>, number: Option<u32>) -> Result<(), NoRoom>
    ensures { OnOk result (numbers.new.items ≡ numbers.old.items ++ number ∷ []) }
{
    match numbers.push(number) {
        Ok(()) => Ok(()),
        Err(_) => Err(NoRoom),
    }
}

// The number of an instance's name.
fn name_number(terms: &Terms<'_>, meaning: &Meaning) -> Option<u32>
    ensures { result ≡ name_number terms.now.rows meaning.now }
{
    terms.row(meaning.call)?.text
}
