//! The walk: a function for each kind of node adds the types and the entries in it at the end of the list, the node itself before its
//! parts.

ghost use Rattle.std.specs.Prelude.{◌≡◌, ◌++◌, IfOk, OnOk, map};
ghost use Rattle.std.specs.List.{flat_map};
ghost use Rattle.cddl_language.specs.Reading.{rules_of};
ghost use Rattle.tree_nodes.specs.View.{token_of, view, view_arg, view_group, view_grpent, view_key, view_ref, view_rule, view_type1, view_type2, view_types};
ghost use Rattle.source_pieces.specs.Pieces.{entries_in, in_arguments, in_entry, in_group, in_key, in_ref, in_rule, in_type1, in_type2, in_types, rule_by_rule};
ghost use Rattle.source_pieces.specs.Walk.{Adds, entry_pieces, further_pieces, view_around, view_found};

use crate::entries::{add_body, add_entries_of, add_lone};
use crate::node::{AroundNode, Found, InnerNode};
use crate::push::{
    push_choice, push_key, push_literal, push_member, push_operand, push_operation, push_value,
    push_word,
};
use std::alloc::{AllocError, Global};
use tree_nodes::{
    Entry, Further, GenericArg, Group, GrpEnt, MemberKey, Ref, Rule, Tree, Type1, Type2, Types,
};

// All types of a specification's text and the words that are keys there, rule by rule in the order of the text.
//
// It takes a time in proportion to the size of the tree, and goes down one level of the program's stack for each bracket that
// is open, of which the parser has 128 at most. An error comes only where memory is refused.
pub(crate) fn nodes<'t>(alloc: Global, tree: &'t Tree<'_>) -> Result<Vec<Found<'t>>, AllocError>
    ensures { IfOk result (λ v. map (view_found (token_of tree.now)) v.items ≡ rule_by_rule 0 (rules_of (view tree.now))) }
{
    let mut found = Vec::new(alloc);
    for (rule, node) in tree.rules.iter().enumerate() {
        add_rule(node, rule, &mut found)?;
    }
    Ok(found)
}

fn add_rule<'t>(node: &'t Rule, rule: usize, found: &mut Vec<Found<'t>>) -> Result<(), AllocError>
    ensures { OnOk result (Adds found.old.items found.new.items rule (λ read. in_rule (view_rule read node.now))) }
{
    match node {
        Rule::TypeRule { types, .. } => {
            add_lone(InnerNode::Types(types), rule, found)?;
            push_member(AroundNode::Rule, types, rule, found)?;
            add_types(types, rule, found)
        }
        Rule::GroupRule { grpent, .. } => {
            add_body(grpent, rule, found)?;
            add_grpent(AroundNode::Rule, grpent, rule, found)
        }
    }
}

#[cycle(walk)]
fn add_types<'t>(
    types: &'t Types,
    rule: usize,
    found: &mut Vec<Found<'t>>,
) -> Result<(), AllocError>
    ensures { OnOk result (Adds found.old.items found.new.items rule (λ read. in_types (view_types read types.now))) }
{
    push_choice(types, rule, found)?;
    let Types { first, others } = types;
    add_type1(first, rule, found)?;
    add_further(others, rule, found)
}

// The types after the first of a type, or of arguments.
#[cycle(walk)]
fn add_further<'t>(
    others: &'t Vec<Further>,
    rule: usize,
    found: &mut Vec<Found<'t>>,
) -> Result<(), AllocError>
    ensures { OnOk result (Adds found.old.items found.new.items rule (λ read. flat_map (further_pieces read) others.now.items)) }
{
    for further in others {
        add_type1(&further.type1, rule, found)?;
    }
    Ok(())
}

#[cycle(walk)]
fn add_type1<'t>(
    type1: &'t Type1,
    rule: usize,
    found: &mut Vec<Found<'t>>,
) -> Result<(), AllocError>
    ensures { OnOk result (Adds found.old.items found.new.items rule (λ read. in_type1 (view_type1 read type1.now))) }
{
    match type1 {
        Type1::One(type2) => add_type2(type2, rule, found),
        Type1::Operation { left, right, .. } => {
            push_operation(type1, rule, found)?;
            add_type2(left, rule, found)?;
            add_type2(right, rule, found)
        }
    }
}

#[cycle(walk)]
fn add_type2<'t>(
    type2: &'t Type2,
    rule: usize,
    found: &mut Vec<Found<'t>>,
) -> Result<(), AllocError>
    ensures { OnOk result (Adds found.old.items found.new.items rule (λ read. in_type2 (view_type2 read type2.now))) }
{
    push_operand(type2, rule, found)?;
    match type2 {
        Type2::Literal(_) => Ok(()),
        Type2::Typename(name) => add_ref(name, rule, found),
        Type2::Parens { types, .. } => add_types(types, rule, found),
        Type2::MapOf {
            opening,
            group,
            closing,
        } => add_group(AroundNode::Brackets(*opening, *closing), group, rule, found),
        Type2::ArrayOf {
            opening,
            group,
            closing,
        } => {
            let own = AroundNode::Brackets(*opening, *closing);
            add_bracketed(own, own, group, rule, found)
        }
        Type2::Unwrapped { name, .. } => add_ref(name, rule, found),
        Type2::ChoiceOf {
            opening,
            group,
            closing,
            ..
        } => add_group(AroundNode::Brackets(*opening, *closing), group, rule, found),
        Type2::ChoiceOfName { name, .. } => add_ref(name, rule, found),
        Type2::Tagged { types, .. } => add_types(types, rule, found),
        Type2::TaggedBy { head, types, .. } => {
            add_types(head, rule, found)?;
            add_types(types, rule, found)
        }
        Type2::SimpleBy { head, .. } => add_types(head, rule, found),
        Type2::Hash(_) => Ok(()),
    }
}

// The types in the arguments of a name.
#[cycle(walk)]
fn add_ref<'t>(name: &'t Ref, rule: usize, found: &mut Vec<Found<'t>>) -> Result<(), AllocError>
    ensures { OnOk result (Adds found.old.items found.new.items rule (λ read. in_ref (view_ref read name.now))) }
{
    match name {
        Ref::Name(_) => Ok(()),
        Ref::Applied { arguments, .. } => add_arguments(arguments, rule, found),
    }
}

#[cycle(walk)]
fn add_arguments<'t>(
    arguments: &'t GenericArg,
    rule: usize,
    found: &mut Vec<Found<'t>>,
) -> Result<(), AllocError>
    ensures { OnOk result (Adds found.old.items found.new.items rule (λ read. in_arguments (view_arg read arguments.now))) }
{
    let GenericArg { first, others } = arguments;
    add_type1(first, rule, found)?;
    add_further(others, rule, found)
}

// The entries of a group in its own brackets, and then what is in each of them.
#[cycle(walk)]
fn add_bracketed<'t>(
    own: AroundNode,
    around: AroundNode,
    group: &'t Group,
    rule: usize,
    found: &mut Vec<Found<'t>>,
) -> Result<(), AllocError>
    ensures { OnOk result (Adds found.old.items found.new.items rule (λ read. entries_in (view_around read own) 0 (view_group read group.now) ++ in_group (view_around read around) (view_group read group.now))) }
{
    add_entries_of(own, group, rule, found)?;
    add_group(around, group, rule, found)
}

// What is in a group with this round it.
#[cycle(walk)]
fn add_group<'t>(
    around: AroundNode,
    group: &'t Group,
    rule: usize,
    found: &mut Vec<Found<'t>>,
) -> Result<(), AllocError>
    ensures { OnOk result (Adds found.old.items found.new.items rule (λ read. in_group (view_around read around) (view_group read group.now))) }
{
    let Group { first, others } = group;
    add_entries(around, first, rule, found)?;
    for choice in others {
        add_entries(around, &choice.entries, rule, found)?;
    }
    Ok(())
}

#[cycle(walk)]
fn add_entries<'t>(
    around: AroundNode,
    entries: &'t Vec<Entry>,
    rule: usize,
    found: &mut Vec<Found<'t>>,
) -> Result<(), AllocError>
    ensures { OnOk result (Adds found.old.items found.new.items rule (λ read. flat_map (entry_pieces around read) entries.now.items)) }
{
    for entry in entries {
        add_grpent(around, &entry.grpent, rule, found)?;
    }
    Ok(())
}

// What is in an entry of a group with this round it, also where the entry is a group in parentheses itself.
#[cycle(walk)]
fn add_grpent<'t>(
    around: AroundNode,
    grpent: &'t GrpEnt,
    rule: usize,
    found: &mut Vec<Found<'t>>,
) -> Result<(), AllocError>
    ensures { OnOk result (Adds found.old.items found.new.items rule (λ read. in_entry (view_around read around) (view_grpent read grpent.now))) }
{
    match grpent {
        GrpEnt::Typed { types, .. } => {
            push_member(around, types, rule, found)?;
            add_types(types, rule, found)
        }
        GrpEnt::Keyed { key, types, .. } => {
            add_key(key, rule, found)?;
            push_key(around, key, rule, found)?;
            push_value(around, key, types, rule, found)?;
            add_types(types, rule, found)
        }
        GrpEnt::Grouped {
            opening,
            group,
            closing,
            ..
        } => {
            let own = AroundNode::Brackets(*opening, *closing);
            add_bracketed(own, around, group, rule, found)
        }
    }
}

#[cycle(walk)]
fn add_key<'t>(
    key: &'t MemberKey,
    rule: usize,
    found: &mut Vec<Found<'t>>,
) -> Result<(), AllocError>
    ensures { OnOk result (Adds found.old.items found.new.items rule (λ read. in_key (view_key read key.now))) }
{
    match key {
        MemberKey::TypeKey { type1, .. } => add_type1(type1, rule, found),
        MemberKey::Bareword { name, .. } => push_word(*name, rule, found),
        MemberKey::ValueKey { value, .. } => push_literal(*value, rule, found),
    }
}
