//! Of what it follows that a group may take no item, as implications.
//!
//! The numbers of groups are facts: that the group may take no item. The first number past them is a fact too, which nothing
//! concludes; it stands for each group that is not there. After it comes a fact for each implication. Those that are concluded
//! say that the parts of a sequence up to one of them may take no item.

ghost use Rattle.std.specs.Prelude.{◌≡◌, ◌++◌, ◌∷◌, [], IfOk, OnOk, length};
ghost use Rattle.table_nodes.specs.Nodes.{group_view};
ghost use Rattle.table_nodes.specs.Flags.Rules.{all_rules, chain, choices, fact_of, link_at, rule, rules_by};

use crate::{Group, GroupId, Most};
use graphs::implications::Implication;
use std::alloc::{AllocError, Global};

// The implications of all groups, one a part and one a group at most.
pub(crate) fn rules_of(alloc: Global, groups: &[Group]) -> Result<Vec<Implication>, AllocError>
    ensures { IfOk result (λ v. v.items ≡ all_rules (length groups.now) 0 0 groups.now) }
{
    let mut rules = Vec::new(alloc);
    for (number, group) in groups.iter().enumerate() {
        add_rules(&mut rules, groups, number, group)?;
    }
    Ok(rules)
}

// The fact of the implication that is added next; as a count, all facts of those that are there.
pub(crate) fn next_link(groups: &[Group], rules: &[Implication]) -> usize
    ensures { result ≡ link_at (length groups.now) (length rules.now) }
{
    groups.len() + 1 + rules.len()
}

fn fact_of(groups: &[Group], id: GroupId) -> usize
    ensures { result ≡ fact_of (length groups.now) id }
{
    id.number.min(groups.len())
}

fn add_rules(
    rules: &mut Vec<Implication>,
    groups: &[Group],
    number: usize,
    group: &Group,
) -> Result<(), AllocError>
    ensures { OnOk result (rules.new.items ≡ rules.old.items ++ rules_by (length groups.now) number (length rules.old.items) (group_view group.now)) }
{
    match group {
        Group::Entry(_) => Ok(()),
        Group::Ref(id) => add(rules, number, Some(fact_of(groups, *id)), None),
        Group::Sequence(ids) => add_sequence(rules, groups, number, ids),
        Group::Alternatives(ids) => add_alternatives(rules, groups, number, ids),
        Group::Repeat { least: 0, .. } => add(rules, number, None, None),
        Group::Repeat {
            most: Most::AtMost(0),
            ..
        } => add(rules, number, None, None),
        Group::Repeat { group, .. } => add(rules, number, Some(fact_of(groups, *group)), None),
    }
}

// A link for each part, which follows where the one before does and the part; the group follows from the last one.
fn add_sequence(
    rules: &mut Vec<Implication>,
    groups: &[Group],
    number: usize,
    ids: &[GroupId],
) -> Result<(), AllocError>
    ensures { OnOk result (rules.new.items ≡ rules.old.items ++ chain (length groups.now) number (length rules.old.items) None ids.now) }
{
    let mut before = None;
    for id in ids {
        let link = next_link(groups, rules);
        add(rules, link, before, Some(fact_of(groups, *id)))?;
        before = Some(link);
    }
    add(rules, number, before, None)
}

fn add_alternatives(
    rules: &mut Vec<Implication>,
    groups: &[Group],
    number: usize,
    ids: &[GroupId],
) -> Result<(), AllocError>
    ensures { OnOk result (rules.new.items ≡ rules.old.items ++ choices (length groups.now) number ids.now) }
{
    for id in ids {
        add(rules, number, Some(fact_of(groups, *id)), None)?;
    }
    Ok(())
}

fn add(
    rules: &mut Vec<Implication>,
    then: usize,
    first: Option<usize>,
    second: Option<usize>,
) -> Result<(), AllocError>
    ensures { OnOk result (rules.new.items ≡ rules.old.items ++ rule then first second ∷ []) }
{
    rules.push(Implication {
        then,
        first,
        second,
    })?;
    Ok(())
}
