//! Parts that are too large, and parts that have such a one.

ghost use Rattle.std.specs.Prelude.{◌≡◌, ◌↔◌, ◌++◌, ℕ, true, List, IfOk, OnOk};
ghost use Rattle.alternatives.specs.declared.Part as P;
ghost use Rattle.alternatives.specs.Summaries.{AreSummaries, IsSummary};
ghost use Rattle.check_maps.specs.MapFaults.Large.{AreFlags, HasLarge, IsLarge};
ghost use Rattle.check_maps.specs.MapFaults.Rules.{all_rules, is_set, need, rule, rules_by};

use alternatives::laws::one_meaning;
use alternatives::{Part, Summary, is_too_large};
use graphs::implications::{Implication, following};
use std::alloc::{AllocError, Global};

// Whether the flag of this number is set.
pub(crate) fn is_set(flags: &[bool], number: usize) -> bool
    ensures { result ≡ is_set flags.now number }
{
    flags.get(number).copied().unwrap_or(false)
}

// For each part whether it has more alternatives than may be, or more members in them.
pub(crate) fn large_parts(
    alloc: Global,
    summaries: &[Option<Summary>],
) -> Result<Vec<bool>, AllocError>
    ensures { IfOk result (λ v. (parts : List P.Part) → AreSummaries parts summaries.now → AreFlags (IsLarge parts) parts v.items) }
{
    let mut large = Vec::new(alloc);
    for summary in summaries {
        large.push(is_large(*summary))?;
    }
    Ok(large)
}

// Whether a part with this summary is too large.
fn is_large(summary: Option<Summary>) -> bool
    ensures { (parts : List P.Part) (n : ℕ) → IsSummary parts n summary → (result ≡ true) ↔ IsLarge parts n }
{
    one_meaning();
    match summary {
        Some(summary) => is_too_large(summary),
        None => false,
    }
}

// For each part whether it is a group with an occurrence that is too large, with it or without, or has such a part.
pub(crate) fn having_large(
    alloc: Global,
    parts: &[Part],
    large: &[bool],
) -> Result<Vec<bool>, AllocError>
    ensures { IfOk result (λ v. AreFlags (IsLarge parts.now) parts.now large.now → AreFlags (HasLarge parts.now) parts.now v.items) }
{
    let rules = rules_of(alloc, parts, large)?;
    following(alloc, parts.len(), &rules)
}

// The implications of all parts.
fn rules_of(alloc: Global, parts: &[Part], large: &[bool]) -> Result<Vec<Implication>, AllocError>
    ensures { IfOk result (λ v. v.items ≡ all_rules large.now 0 parts.now) }
{
    let mut rules = Vec::new(alloc);
    for (number, part) in parts.iter().enumerate() {
        add_rules(&mut rules, large, number, *part)?;
    }
    Ok(rules)
}

fn add_rules(
    rules: &mut Vec<Implication>,
    large: &[bool],
    number: usize,
    part: Part,
) -> Result<(), AllocError>
    ensures { OnOk result (rules.new.items ≡ rules.old.items ++ rules_by large.now number part) }
{
    match part {
        Part::Same(other) => rules.push(rule(number, Some(other)))?,
        Part::Both(first, second) | Part::Either(first, second) => {
            rules.push(rule(number, Some(first)))?;
            rules.push(rule(number, Some(second)))?;
        }
        Part::Occurs(_, group) => rules.push(rule(number, need(large, number, group)))?,
        Part::Refused | Part::Entry(_) | Part::Empty | Part::Nothing => {}
    }
    Ok(())
}

// What has to follow for a group with an occurrence: nothing where it is too large, with it or without.
fn need(large: &[bool], number: usize, group: usize) -> Option<usize>
    ensures { result ≡ need large.now number group }
{
    if is_set(large, number) || is_set(large, group) {
        None
    } else {
        Some(group)
    }
}

fn rule(then: usize, first: Option<usize>) -> Implication
    ensures { result ≡ rule then first }
{
    Implication {
        then,
        first,
        second: None,
    }
}
