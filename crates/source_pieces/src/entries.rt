//! The entries of a group are put at the end of the list, each with how many come after it.

ghost use Rattle.std.specs.Prelude.{[], ◌∷◌, OnOk};
ghost use Rattle.tree_nodes.specs.View.{view_group, view_grpent};
ghost use Rattle.source_pieces.specs.Pieces.{an_entry, entries_in, own_entries, the_rule};
ghost use Rattle.source_pieces.specs.Walk.{Adds, listed_choices, listed_entries, view_around, view_inner};

use crate::node::{AroundNode, EntryNode, Found, InnerNode, inner_node};
use crate::push::push_entry;
use std::alloc::AllocError;
use tree_nodes::{Entry, Group, GrpChoice, GrpEnt};

// The one entry that a type is as the body of a rule.
pub(crate) fn add_lone<'t>(
    inner: InnerNode<'t>,
    rule: usize,
    found: &mut Vec<Found<'t>>,
) -> Result<(), AllocError>
    ensures { OnOk result (Adds found.old.items found.new.items rule (λ read. an_entry the_rule 0 0 (view_inner read inner.entry) ∷ [])) }
{
    let node = EntryNode {
        around: AroundNode::Rule,
        alternative: 0,
        place: 0,
        inner,
    };
    push_entry(node, rule, found)
}

// The entries of a rule whose body this is.
pub(crate) fn add_body<'t>(
    body: &'t GrpEnt,
    rule: usize,
    found: &mut Vec<Found<'t>>,
) -> Result<(), AllocError>
    ensures { OnOk result (Adds found.old.items found.new.items rule (λ read. own_entries (view_grpent read body.now))) }
{
    match body {
        GrpEnt::Typed { types, .. } => add_lone(InnerNode::Types(types), rule, found),
        GrpEnt::Keyed { types, .. } => add_lone(InnerNode::Types(types), rule, found),
        GrpEnt::Grouped {
            occur,
            opening,
            group,
            closing,
        } => match occur {
            Some(_) => add_lone(InnerNode::Group(*opening, group, *closing), rule, found),
            None => add_entries_of(AroundNode::Rule, group, rule, found),
        },
    }
}

// The entries of a group with this round it.
pub(crate) fn add_entries_of<'t>(
    around: AroundNode,
    group: &'t Group,
    rule: usize,
    found: &mut Vec<Found<'t>>,
) -> Result<(), AllocError>
    ensures { OnOk result (Adds found.old.items found.new.items rule (λ read. entries_in (view_around read around) 0 (view_group read group.now))) }
{
    let Group { first, others } = group;
    let choices = others.as_slice();
    let entries = first.as_slice();
    add_listed(around, choices.len(), entries, rule, found)?;
    add_choices(around, choices, rule, found)
}

// Those of the further choices.
fn add_choices<'t>(
    around: AroundNode,
    choices: &'t [GrpChoice],
    rule: usize,
    found: &mut Vec<Found<'t>>,
) -> Result<(), AllocError>
    ensures { OnOk result (Adds found.old.items found.new.items rule (λ read. listed_choices read (view_around read around) choices.now)) }
{
    let mut left = choices;
    'each: while let Some((choice, others)) = left.split_first() {
        let entries = choice.entries.as_slice();
        add_listed(around, others.len(), entries, rule, found)?;
        left = others;
    }
    Ok(())
}

// Those of one choice, with so many choices after it.
fn add_listed<'t>(
    around: AroundNode,
    alternative: usize,
    entries: &'t [Entry],
    rule: usize,
    found: &mut Vec<Found<'t>>,
) -> Result<(), AllocError>
    ensures { OnOk result (Adds found.old.items found.new.items rule (λ read. listed_entries read (view_around read around) alternative entries.now)) }
{
    let mut left = entries;
    'each: while let Some((entry, others)) = left.split_first() {
        let node = EntryNode {
            around,
            alternative,
            place: others.len(),
            inner: inner_node(&entry.grpent),
        };
        push_entry(node, rule, found)?;
        left = others;
    }
    Ok(())
}
