//! Facts with numbers, and the implications of parameters.

ghost use Rattle.std.specs.Prelude.{◌≡◌, ◌≢◌, ◌+◌, ℕ, List, IfNone, IfOk, IfSome, Some, length, slice_get};
ghost use Rattle.check_live.specs.Facts.{AddsParameter, IsAfter, IsPrepared, slot_of, use_of};
ghost use Rattle.check_terms.specs.Table.{AreDistinct};

use check_terms::Definition;
use graphs::implications::Implication;
use indexmap::IndexSet;
use std::alloc::{AllocError, Global};

/// What a fact says.
#[derive(Clone, Copy, Debug, PartialEq, Eq, Hash)]
pub(crate) enum Kind {
    /// The rule at the place `of` refers, at a live site, to the name of the number `part`.
    Use,
    /// A rule of the name of the number `of` refers, at a live site, to its parameter at the place `part`.
    Slot,
}

/// A fact of a text.
#[derive(Clone, Copy, Debug, PartialEq, Eq, Hash)]
pub(crate) struct Fact {
    pub(crate) kind: Kind,
    pub(crate) of: usize,
    pub(crate) part: usize,
}

// That the rule refers, at a live site, to the name.
pub(crate) fn use_of(rule: usize, name: u32) -> Fact
    ensures { result ≡ use_of rule name }
{
    Fact {
        kind: Kind::Use,
        of: rule,
        part: name as usize,
    }
}

// That a rule of the name refers, at a live site, to its parameter at the place.
pub(crate) fn slot_of(name: u32, place: usize) -> Fact
    ensures { result ≡ slot_of name place }
{
    Fact {
        kind: Kind::Slot,
        of: name as usize,
        part: place,
    }
}

/// The facts of parameters, and what follows from them.
#[derive(Drop)]
pub(crate) struct Facts {
    pub(crate) numbers: IndexSet<Fact>,
    pub(crate) implications: Vec<Implication>,
}

// The facts of all parameters: a slot follows from the use of the parameter in each rule of the name.
pub(crate) fn facts_of(alloc: Global, definitions: &[Definition]) -> Result<Facts, AllocError>
    ensures { IfOk result (λ f. IsPrepared definitions.now (length definitions.now) 0 f.numbers.keys f.implications.items) }
{
    let mut facts = Facts {
        numbers: IndexSet::new(alloc),
        implications: Vec::new(alloc),
    };
    for (rule, definition) in definitions.iter().enumerate() {
        add_parameters(&mut facts, rule, definition)?;
    }
    Ok(facts)
}

fn add_parameters(facts: &mut Facts, rule: usize, definition: &Definition) -> Result<(), AllocError>
    ensures { IfOk result (λ _. (ds : List Definition) → slice_get ds rule ≡ Some definition.now → IsPrepared ds rule 0 facts.old.numbers.keys facts.old.implications.items → IsPrepared ds (rule + 1) 0 facts.new.numbers.keys facts.new.implications.items) }
{
    for (place, parameter) in definition.parameters.iter().enumerate() {
        add_parameter(facts, rule, definition.name, place, *parameter)?;
    }
    Ok(())
}

fn add_parameter(
    facts: &mut Facts,
    rule: usize,
    name: u32,
    place: usize,
    parameter: u32,
) -> Result<(), AllocError>
    ensures { IfOk result (λ _. AddsParameter rule name place parameter facts.old.numbers.keys facts.new.numbers.keys facts.old.implications.items facts.new.implications.items) }
{
    let used = number_of(&mut facts.numbers, use_of(rule, parameter))?;
    let slot = number_of(&mut facts.numbers, slot_of(name, place))?;
    facts.implications.push(Implication {
        then: slot,
        first: Some(used),
        second: None,
    })?;
    Ok(())
}

// The number of the fact, which gets one if it has none.
fn number_of(numbers: &mut IndexSet<Fact>, fact: Fact) -> Result<usize, AllocError>
    ensures there { IfOk result (λ n. slice_get numbers.new.keys n ≡ Some fact) }
    ensures adds { IfOk result (λ n. IsAfter numbers.old.keys fact numbers.new.keys) }
    ensures distinct { IfOk result (λ n. AreDistinct numbers.old.keys → AreDistinct numbers.new.keys) }
{
    let (number, _) = numbers.insert_full(fact)?;
    Ok(number)
}

// The number of the fact, if it has one.
pub(crate) fn find(numbers: &IndexSet<Fact>, fact: Fact) -> Option<usize>
    ensures found { IfSome result (λ n. slice_get numbers.now.keys n ≡ Some fact) }
    ensures missing { IfNone result ((n : ℕ) → slice_get numbers.now.keys n ≢ Some fact) }
{
    numbers.get_index_of(&fact)
}
