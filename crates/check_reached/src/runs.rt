//! What serves the sites of one rule: the places of its parameters, and the rows of its instances and of their arguments. Sites
//! come rule by rule, so that it is made once for many of them.

ghost use Rattle.std.specs.Prelude.{◌≡◌, [], IfOk, List, OnOk, map, option_copied, slice_get};
ghost use Rattle.cddl_language.specs.Terms.{Ref};
ghost use Rattle.check_names.specs.Environment.Places.{lists};
ghost use Rattle.check_terms.specs.Fill.Templates.{AreTrees};
ghost use Rattle.check_terms.specs.Table.{Table};
ghost use Rattle.check_terms.specs.Trees.{IsRef, ref_tree};
ghost use Rattle.check_reached.specs.Asked.{AreReady};
ghost use Rattle.check_reached.specs.Runs.{AreCalls, IsCall, IsRunFor, IsRunOf};
ghost use Rattle.tree_nodes.specs.Syntax.Syntax.{Rule};

use crate::calls::calls_of;
use check_terms::fill::{Slots, arguments_of};
use check_terms::{Definition, NoRoom, Terms, push};
use std::alloc::Global;

/// A reference that is an instance, by its row, and the rows of its arguments.
#[derive(Drop)]
pub(crate) struct Call {
    pub(crate) row: u32,
    pub(crate) arguments: Vec<u32>,
}

/// What serves the sites of the rule at a place.
#[derive(Drop)]
pub(crate) struct Run {
    pub(crate) rule: usize,
    pub(crate) slots: Slots,
    pub(crate) calls: Vec<Call>,
}

// What serves the sites of the rule at the place: what is there, if it is that rule's.
pub(crate) fn renew(
    alloc: Global,
    terms: &Terms<'_>,
    definitions: &[Definition],
    calls: &[Vec<u32>],
    rule: usize,
    run: &mut Run,
) -> Result<(), NoRoom>
    ensures rule { OnOk result (run.new.rule ≡ rule) }
    ensures serves { OnOk result ((rs : List Rule) (refs : List Ref) → AreReady terms.now rs refs (lists calls.now) definitions.now → IsRunFor terms.now refs (slice_get rs run.old.rule) run.old → IsRunFor terms.now refs (slice_get rs rule) run.new) }
{
    if run.rule == rule {
        return Ok(());
    }
    *run = run_of(alloc, terms, definitions, calls, rule)?;
    Ok(())
}

// What serves the sites of the rule at the place.
pub(crate) fn run_of(
    alloc: Global,
    terms: &Terms<'_>,
    definitions: &[Definition],
    calls: &[Vec<u32>],
    rule: usize,
) -> Result<Run, NoRoom>
    ensures rule { IfOk result (λ r. r.rule ≡ rule) }
    ensures serves { IfOk result (λ run. (rs : List Rule) (refs : List Ref) → AreReady terms.now rs refs (lists calls.now) definitions.now → IsRunFor terms.now refs (slice_get rs rule) run) }
{
    let Some(definition) = definition_at(definitions, rule) else {
        return empty_run(alloc, rule);
    };
    let Some(rows) = calls_of(calls, definition.name) else {
        return empty_run(alloc, rule);
    };
    let slots = Slots::new(alloc, &definition.parameters)?;
    let calls = with_arguments(alloc, terms, rows)?;
    Ok(Run { rule, slots, calls })
}

fn definition_at(definitions: &[Definition], place: usize) -> Option<&Definition>
    ensures { option_copied result ≡ slice_get definitions.now place }
{
    definitions.get(place)
}

// What serves the sites of a rule that has no instances.
fn empty_run(alloc: Global, rule: usize) -> Result<Run, NoRoom>
    ensures rule { IfOk result (λ run. run.rule ≡ rule) }
    ensures serves { IfOk result (λ run. (t : Table) → IsRunOf t [] [] run) }
{
    let slots = Slots::new(alloc, &[])?;
    Ok(Run {
        rule,
        slots,
        calls: Vec::new(alloc),
    })
}

// The references of these rows, with the rows of their arguments.
fn with_arguments(alloc: Global, terms: &Terms<'_>, rows: &[u32]) -> Result<Vec<Call>, NoRoom>
    ensures { IfOk result (λ v. (refs : List Ref) → AreTrees terms.now rows.now (map ref_tree refs) → AreCalls terms.now v.items refs) }
{
    let mut calls = Vec::new(alloc);
    for row in rows {
        let call = call_of(alloc, terms, *row)?;
        push(&mut calls, call)?;
    }
    Ok(calls)
}

fn call_of(alloc: Global, terms: &Terms<'_>, number: u32) -> Result<Call, NoRoom>
    ensures { IfOk result (λ c. (r : Ref) → IsRef terms.now number r → IsCall terms.now c r) }
{
    let Some(row) = terms.row(number) else {
        return Err(NoRoom);
    };
    let arguments = arguments_of(alloc, terms, row.first)?;
    Ok(Call {
        row: number,
        arguments,
    })
}
