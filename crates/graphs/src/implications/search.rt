//! A search for all facts that follow, which looks at an implication again when one of its premises is found.
ghost use Rattle.std.specs.Prelude.{◌≡◌, ◌<◌, IfOk};
ghost use Rattle.graphs.specs.Implications.Rules.{AreRules, premises_of};
ghost use Rattle.graphs.specs.Implications.Search.{IsEnded, IsKept, HasPremise, Nowhere, gap, looked, met, ready, state};

use crate::implications::Implication;
use crate::implications::rules::Rules;
use std::alloc::{AllocError, Global};

/// The facts that were found, and those of them whose implications were not yet looked at again.
#[derive(Drop)]
pub struct Search {
    /// For each fact whether it was found.
    pub flags: Vec<bool>,
    /// The facts that were found and wait.
    pub waiting: Vec<usize>,
}

/// The search after each implication was looked at once.
pub fn search_of(
    alloc: Global,
    facts: usize,
    implications: &[Implication],
) -> Result<Search, AllocError>
    ensures { IfOk result (λ s. IsKept facts implications.now Nowhere (state s)) }
{
    let flags = vec![in alloc; false; facts]?;
    let mut search = Search {
        flags,
        waiting: Vec::new(alloc),
    };
    for implication in implications {
        search.look(*implication)?;
    }
    Ok(search)
}

impl Search {
    /// Goes on until no fact waits.
    pub fn run(&mut self, rules: &Rules<'_>) -> Result<(), AllocError>
        requires rules { AreRules rules.now }
        requires kept { IsKept rules.now.facts rules.now.implications.now Nowhere (state self.old) }
        ensures { IfOk result (λ _. IsEnded rules.now.facts rules.now.implications.now (state self.new)) }
    {
        while let Some(fact) = self.waiting.pop() {
            self.visit(rules, fact)?;
        }
        Ok(())
    }

    // Looks again at each implication that has the fact as a premise.
    fn visit(&mut self, rules: &Rules<'_>, fact: usize) -> Result<(), AllocError>
        requires rules { AreRules rules.now }
        requires fact { fact < rules.now.facts }
        requires kept { IsKept rules.now.facts rules.now.implications.now (HasPremise (premises_of rules.now.facts rules.now.implications.now) fact) (state self.old) }
        ensures kept { IfOk result (λ _. IsKept rules.now.facts rules.now.implications.now Nowhere (state self.new)) }
        ensures gap { IfOk result (λ _. gap (state self.new) ≡ gap (state self.old)) }
    {
        let mut next = rules.heads[fact];
        while let Some(place) = next {
            self.look(rules.implications[place / 2])?;
            next = rules.links[place];
        }
        Ok(())
    }

    // Finds the conclusion of an implication, if its premises were found and it was not.
    fn look(&mut self, implication: Implication) -> Result<(), AllocError>
        ensures { IfOk result (λ _. state self.new ≡ looked implication (state self.old)) }
    {
        if is_ready(&self.flags, implication) {
            self.waiting.push(implication.then)?;
            self.flags[implication.then] = true;
        }
        Ok(())
    }
}

// Whether the premises are flagged, and the conclusion is a fact that is not.
fn is_ready(flags: &[bool], implication: Implication) -> bool
    ensures { result ≡ ready flags.now implication }
{
    if !is_met(flags, implication.first) || !is_met(flags, implication.second) {
        return false;
    }
    !flags.get(implication.then).copied().unwrap_or(true)
}

// Whether there is no premise, or it is flagged.
fn is_met(flags: &[bool], premise: Option<usize>) -> bool
    ensures { result ≡ met flags.now premise }
{
    match premise {
        Some(fact) => flags.get(fact).copied().unwrap_or(false),
        None => true,
    }
}
