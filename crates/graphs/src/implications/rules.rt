//! Implications, linked by the facts that are their premises.
ghost use Rattle.std.specs.Prelude.{◌≡◌, IfOk, Some, None, set, slice_index_or};
ghost use Rattle.graphs.specs.Implications.Rules.{AreHeads, IsLinked, premises_of};

use crate::implications::Implication;
use std::alloc::{AllocError, Global};

/// Implications, linked by their premises. Each has two places: its premises are at twice its number and the one after that.
#[derive(Drop)]
pub struct Rules<'a> {
    pub facts: usize,
    pub implications: &'a [Implication],
    /// For each fact the last place where it is a premise.
    pub heads: Vec<Option<usize>>,
    /// For each place the last one before it that has the same fact.
    pub links: Vec<Option<usize>>,
}

/// The implications, linked.
pub fn rules_of(
    alloc: Global,
    facts: usize,
    implications: &[Implication],
) -> Result<Rules<'_>, AllocError>
    ensures facts { IfOk result (λ r. r.facts ≡ facts) }
    ensures implications { IfOk result (λ r. r.implications.now ≡ implications.now) }
    ensures linked { IfOk result (λ r. IsLinked facts (premises_of facts implications.now) r.heads.items r.links.items) }
{
    let premises = premises(alloc, facts, implications)?;
    let mut heads = vec![in alloc; None; facts]?;
    let links = links_of(alloc, facts, &mut heads, &premises)?;
    Ok(Rules {
        facts,
        implications,
        heads,
        links,
    })
}

// The premises at their places. Where there is none, the place has a number that is no fact.
fn premises(
    alloc: Global,
    facts: usize,
    implications: &[Implication],
) -> Result<Vec<usize>, AllocError>
    ensures { IfOk result (λ v. v.items ≡ premises_of facts implications.now) }
{
    let mut premises = Vec::new(alloc);
    for implication in implications {
        premises.push(implication.first.unwrap_or(facts))?;
        premises.push(implication.second.unwrap_or(facts))?;
    }
    Ok(premises)
}

// Links the places that have the same fact.
fn links_of(
    alloc: Global,
    facts: usize,
    heads: &mut Vec<Option<usize>>,
    premises: &[usize],
) -> Result<Vec<Option<usize>>, AllocError>
    requires { AreHeads facts premises.now 0 heads.old.items }
    ensures { IfOk result (λ v. IsLinked facts premises.now heads.new.items v.items) }
{
    let mut links = Vec::new(alloc);
    for (place, premise) in premises.iter().enumerate() {
        links.push(put_head(heads, *premise, place))?;
    }
    Ok(links)
}

// Puts the place at the head of the fact, and answers what was there. A number that is no fact has no head.
fn put_head(heads: &mut Vec<Option<usize>>, fact: usize, place: usize) -> Option<usize>
    ensures before { result ≡ slice_index_or heads.old.items fact None }
    ensures after { heads.new.items ≡ set heads.old.items fact (Some place) }
{
    if fact >= heads.len() {
        return None;
    }
    let before = heads[fact];
    heads[fact] = Some(place);
    before
}
