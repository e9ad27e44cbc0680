//! The walk over a group: each entry comes before those in its parentheses.

ghost use Rattle.std.specs.Prelude.{◌≡◌, OnOk, option_map};
ghost use Rattle.std.specs.List.{flat_map};
ghost use Rattle.cddl_token.specs.declared.Token.{Token};
ghost use Rattle.tree_nodes.specs.View.{view_group, view_grpent, view_rule};
ghost use Rattle.tree_nodes.specs.declared.tree.Leaf.{Leaf};
ghost use Rattle.check_sites.specs.Entries.Entries.{body_inside, entry_inside, group_inside, opened_in, opened_inside, rule_inside};
ghost use Rattle.check_sites.specs.Entries.Walk.{Adds, entry_part};

use crate::entries::bare::bare_group;
use crate::entries::entry::TextEntry;
use crate::entries::push::{Place, push_entry, push_type};
use std::alloc::AllocError;
use tree_nodes::{Entry, Group, GrpEnt, Rule};

// Adds the entries of a group, and those in parentheses in it.
#[cycle(walk)]
pub(crate) fn add_group<'t>(
    group: &'t Group,
    place: Place,
    found: &mut Vec<TextEntry<'t>>,
) -> Result<(), AllocError>
    ensures { OnOk result (Adds found.old.items found.new.items place (λ read. group_inside (view_group read group.now))) }
{
    let Group { first, others } = group;
    add_entries(first, place, found)?;
    for choice in others {
        add_entries(&choice.entries, place, found)?;
    }
    Ok(())
}

#[cycle(walk)]
fn add_entries<'t>(
    entries: &'t Vec<Entry>,
    place: Place,
    found: &mut Vec<TextEntry<'t>>,
) -> Result<(), AllocError>
    ensures { OnOk result (Adds found.old.items found.new.items place (λ read. flat_map (entry_part read) entries.now.items)) }
{
    for entry in entries {
        add_entry(&entry.grpent, place, found)?;
    }
    Ok(())
}

// Adds the entry, and those in it, where it is a group in parentheses.
#[cycle(walk)]
fn add_entry<'t>(
    entry: &'t GrpEnt,
    place: Place,
    found: &mut Vec<TextEntry<'t>>,
) -> Result<(), AllocError>
    ensures { OnOk result (Adds found.old.items found.new.items place (λ read. entry_inside (view_grpent read entry.now))) }
{
    push_entry(entry, place, found)?;
    match entry {
        GrpEnt::Typed { .. } => Ok(()),
        GrpEnt::Keyed { .. } => Ok(()),
        GrpEnt::Grouped { group, .. } => add_group(group, place, found),
    }
}

// Adds the entries of a rule's body. Parentheses round all of it are the group itself.
pub(crate) fn add_body<'t>(
    rule: &'t Rule,
    place: Place,
    found: &mut Vec<TextEntry<'t>>,
) -> Result<(), AllocError>
    ensures { OnOk result (Adds found.old.items found.new.items place (λ read. rule_inside (view_rule read rule.now))) }
{
    match rule {
        Rule::TypeRule { types, .. } => push_type(types, place, found),
        Rule::GroupRule { grpent, .. } => add_group_body(grpent, place, found),
    }
}

fn add_group_body<'t>(
    entry: &'t GrpEnt,
    place: Place,
    found: &mut Vec<TextEntry<'t>>,
) -> Result<(), AllocError>
    ensures { OnOk result (Adds found.old.items found.new.items place (λ read. body_inside (view_grpent read entry.now))) }
{
    match entry {
        GrpEnt::Grouped { occur, group, .. } => match occur {
            None => add_group(group, place, found),
            Some(_) => add_entry(entry, place, found),
        },
        GrpEnt::Typed { .. } => add_entry(entry, place, found),
        GrpEnt::Keyed { .. } => add_entry(entry, place, found),
    }
}

// Adds the entries of the map or the array that the rule's body is.
pub(crate) fn add_opened<'t>(
    rule: &'t Rule,
    place: Place,
    found: &mut Vec<TextEntry<'t>>,
) -> Result<(), AllocError>
    ensures { OnOk result (Adds found.old.items found.new.items place (λ read. opened_inside (view_rule read rule.now))) }
{
    match opened_group(rule) {
        Some(group) => add_group(group, place, found),
        None => Ok(()),
    }
}

fn opened_group(rule: &Rule) -> Option<&Group>
    ensures { (read : Leaf → Token) → option_map (λ g. view_group read g.now) result ≡ opened_in (view_rule read rule.now) }
{
    match rule {
        Rule::TypeRule { types, .. } => bare_group(types),
        Rule::GroupRule { .. } => None,
    }
}
