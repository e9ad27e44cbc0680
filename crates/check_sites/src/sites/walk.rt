//! The walk: a function for each kind of node adds its sites at the end of the list, that of the node itself before those
//! in its parts. Where a node may be one name, `demanded` says whether a type is demanded there.
ghost use Rattle.std.specs.Prelude.{◌≡◌, Bool, IfOk, OnOk, [], false, true, if◌then◌else◌, map};
ghost use Rattle.std.specs.List.{flat_map};
ghost use Rattle.cddl_language.specs.Reading.{rules_of};
ghost use Rattle.cddl_language.specs.Sites.{demands_type, in_entry, in_group, in_key, in_ref, in_rule, in_type1, in_type2, in_types, in_arguments};
ghost use Rattle.tree_nodes.specs.View.{token_of, view, view_arg, view_assignt, view_group, view_grpent, view_key, view_ref, view_rule, view_type1, view_type2, view_types};
ghost use Rattle.cddl_token.specs.declared.Token.{Token};
ghost use Rattle.tree_nodes.specs.declared.tree.Leaf.{Leaf};
ghost use Rattle.check_sites.specs.Sites.View.{outside, view_found};
ghost use Rattle.check_sites.specs.Sites.Walk.{Adds, all_outer_sites, all_sites, entry_sites, further_sites, placed, several};

use crate::sites::push::{
    Place, push_choice, push_choice_of_name, push_entry, push_hash, push_map, push_name,
    push_operation, push_unwrapping,
};
use crate::sites::site::Found;
use std::alloc::{AllocError, Global};
use tree_nodes::{
    AssignT, Entry, Further, GenericArg, Group, GrpEnt, MemberKey, Ref, Rule, Tree, Type1, Type2,
    Types,
};

/// All sites of a specification, rule by rule in the order of the text. What stands for a node itself comes before what is
/// in its parts.
///
/// It takes a time in proportion to the size of the tree, and goes down one level of the program's stack for each bracket
/// that is open, of which the parser has 128 at most. An error comes only where memory is refused.
pub fn sites<'t>(alloc: Global, tree: &'t Tree<'_>) -> Result<Vec<Found<'t>>, AllocError>
    ensures all { IfOk result (λ v. map (view_found (token_of tree.now)) v.items ≡ all_sites (rules_of (view tree.now))) }
    ensures outer { IfOk result (λ v. map (view_found (token_of tree.now)) (outside v.items) ≡ all_outer_sites (rules_of (view tree.now))) }
{
    let mut found = Vec::new(alloc);
    for (rule, node) in tree.rules.iter().enumerate() {
        let place = Place {
            rule,
            in_argument: false,
            enters: true,
        };
        add_rule(node, place, &mut found)?;
    }
    Ok(found)
}

/// The sites of one argument that are outside of arguments in it, in the order of the text, as sites of the rule at this
/// place.
///
/// It takes a time in proportion to the argument's size without the arguments in it, and goes down as deep as `sites`. An
/// error comes only where memory is refused.
pub fn argument_sites<'t>(
    alloc: Global,
    argument: &'t Type1,
    rule: usize,
) -> Result<Vec<Found<'t>>, AllocError>
    ensures { IfOk result (λ v. (read : Leaf → Token) → map (view_found read) v.items ≡ placed rule (in_type1 false true (view_type1 read argument.now))) }
{
    let place = Place {
        rule,
        in_argument: true,
        enters: false,
    };
    let mut found = Vec::new(alloc);
    add_type1(argument, true, place, &mut found)?;
    Ok(found)
}

fn add_rule<'t>(rule: &'t Rule, place: Place, found: &mut Vec<Found<'t>>) -> Result<(), AllocError>
    ensures { OnOk result (Adds found.old.items found.new.items place (λ inside read. in_rule inside (view_rule read rule.now))) }
{
    match rule {
        Rule::TypeRule { assign, types, .. } => {
            add_types(types, is_type_demanded(*assign), place, found)
        }
        Rule::GroupRule { grpent, .. } => add_grpent(grpent, place, found),
    }
}

// After `/=` a type is demanded.
fn is_type_demanded(assign: AssignT) -> bool
    ensures { (inside : Bool) (read : Leaf → Token) → result ≡ demands_type inside (view_assignt read assign) }
{
    match assign {
        AssignT::TypeIs(_) => false,
        AssignT::TypeOr(_) => true,
    }
}

#[cycle(walk)]
fn add_types<'t>(
    types: &'t Types,
    demanded: bool,
    place: Place,
    found: &mut Vec<Found<'t>>,
) -> Result<(), AllocError>
    ensures { OnOk result (Adds found.old.items found.new.items place (λ inside read. in_types inside demanded (view_types read types.now))) }
{
    let Types { first, others } = types;
    add_type1(first, is_demanded(demanded, others), place, found)?;
    add_further(others, place, found)
}

// In a choice of several a type is demanded.
fn is_demanded(demanded: bool, others: &Vec<Further>) -> bool
    ensures { result ≡ several demanded others.now.items }
{
    demanded || !others.is_empty()
}

// The types after the first of a type, or of arguments.
#[cycle(walk)]
fn add_further<'t>(
    others: &'t Vec<Further>,
    place: Place,
    found: &mut Vec<Found<'t>>,
) -> Result<(), AllocError>
    ensures { OnOk result (Adds found.old.items found.new.items place (λ inside read. flat_map (further_sites inside read) others.now.items)) }
{
    for further in others {
        add_type1(&further.type1, true, place, found)?;
    }
    Ok(())
}

#[cycle(walk)]
fn add_type1<'t>(
    type1: &'t Type1,
    demanded: bool,
    place: Place,
    found: &mut Vec<Found<'t>>,
) -> Result<(), AllocError>
    ensures { OnOk result (Adds found.old.items found.new.items place (λ inside read. in_type1 inside demanded (view_type1 read type1.now))) }
{
    match type1 {
        Type1::One(type2) => add_type2(type2, demanded, place, found),
        Type1::Operation {
            left,
            operator,
            right,
        } => {
            push_operation(left, *operator, right, place, found)?;
            add_type2(left, true, place, found)?;
            add_type2(right, true, place, found)
        }
    }
}

#[cycle(walk)]
fn add_type2<'t>(
    type2: &'t Type2,
    demanded: bool,
    place: Place,
    found: &mut Vec<Found<'t>>,
) -> Result<(), AllocError>
    ensures { OnOk result (Adds found.old.items found.new.items place (λ inside read. in_type2 inside demanded (view_type2 read type2.now))) }
{
    match type2 {
        Type2::Literal(_) => Ok(()),
        Type2::Typename(name) => {
            push_name(name, demanded, place, found)?;
            add_ref(name, place, found)
        }
        Type2::Parens { types, .. } => add_types(types, demanded, place, found),
        Type2::MapOf { opening, group, .. } => {
            push_map(*opening, group, place, found)?;
            add_group(group, place, found)
        }
        Type2::ArrayOf { group, .. } => add_group(group, place, found),
        Type2::Unwrapped { tilde, name } => {
            push_unwrapping(*tilde, name, demanded, place, found)?;
            add_ref(name, place, found)
        }
        Type2::ChoiceOf {
            ampersand,
            group,
            ..
        } => {
            push_choice(*ampersand, group, place, found)?;
            add_group(group, place, found)
        }
        Type2::ChoiceOfName { ampersand, name } => {
            push_choice_of_name(*ampersand, name, place, found)?;
            add_ref(name, place, found)
        }
        Type2::Tagged { types, .. } => add_types(types, true, place, found),
        Type2::TaggedBy { head, types, .. } => {
            add_types(head, true, place, found)?;
            add_types(types, true, place, found)
        }
        Type2::SimpleBy { head, .. } => add_types(head, true, place, found),
        Type2::Hash(token) => push_hash(*token, place, found),
    }
}

// The sites in the arguments of a name.
#[cycle(walk)]
fn add_ref<'t>(name: &'t Ref, place: Place, found: &mut Vec<Found<'t>>) -> Result<(), AllocError>
    ensures { OnOk result (Adds found.old.items found.new.items place (λ inside read. in_ref inside (view_ref read name.now))) }
{
    match name {
        Ref::Name(_) => Ok(()),
        Ref::Applied { arguments, .. } => add_applied(arguments, place, found),
    }
}

// The sites in arguments, where the walk enters them.
#[cycle(walk)]
fn add_applied<'t>(
    arguments: &'t GenericArg,
    place: Place,
    found: &mut Vec<Found<'t>>,
) -> Result<(), AllocError>
    ensures { OnOk result (Adds found.old.items found.new.items place (λ inside read. if inside then in_arguments inside (view_arg read arguments.now) else [])) }
{
    if !place.enters {
        return Ok(());
    }
    let inside = Place {
        rule: place.rule,
        in_argument: true,
        enters: true,
    };
    add_arguments(arguments, inside, found)
}

#[cycle(walk)]
fn add_arguments<'t>(
    arguments: &'t GenericArg,
    place: Place,
    found: &mut Vec<Found<'t>>,
) -> Result<(), AllocError>
    ensures { OnOk result (Adds found.old.items found.new.items place (λ inside read. in_arguments inside (view_arg read arguments.now))) }
{
    let GenericArg { first, others } = arguments;
    add_type1(first, true, place, found)?;
    add_further(others, place, found)
}

#[cycle(walk)]
fn add_group<'t>(
    group: &'t Group,
    place: Place,
    found: &mut Vec<Found<'t>>,
) -> Result<(), AllocError>
    ensures { OnOk result (Adds found.old.items found.new.items place (λ inside read. in_group inside (view_group read group.now))) }
{
    let Group { first, others } = group;
    add_entries(first, place, found)?;
    for choice in others {
        add_entries(&choice.entries, place, found)?;
    }
    Ok(())
}

#[cycle(walk)]
fn add_entries<'t>(
    entries: &'t Vec<Entry>,
    place: Place,
    found: &mut Vec<Found<'t>>,
) -> Result<(), AllocError>
    ensures { OnOk result (Adds found.old.items found.new.items place (λ inside read. flat_map (entry_sites inside read) entries.now.items)) }
{
    for entry in entries {
        add_grpent(&entry.grpent, place, found)?;
    }
    Ok(())
}

#[cycle(walk)]
fn add_grpent<'t>(
    grpent: &'t GrpEnt,
    place: Place,
    found: &mut Vec<Found<'t>>,
) -> Result<(), AllocError>
    ensures { OnOk result (Adds found.old.items found.new.items place (λ inside read. in_entry inside (view_grpent read grpent.now))) }
{
    push_entry(grpent, place, found)?;
    match grpent {
        GrpEnt::Typed { types, .. } => add_types(types, false, place, found),
        GrpEnt::Keyed { key, types, .. } => {
            add_key(key, place, found)?;
            add_types(types, true, place, found)
        }
        GrpEnt::Grouped { group, .. } => add_group(group, place, found),
    }
}

#[cycle(walk)]
fn add_key<'t>(
    key: &'t MemberKey,
    place: Place,
    found: &mut Vec<Found<'t>>,
) -> Result<(), AllocError>
    ensures { OnOk result (Adds found.old.items found.new.items place (λ inside read. in_key inside (view_key read key.now))) }
{
    match key {
        MemberKey::TypeKey { type1, .. } => add_type1(type1, true, place, found),
        MemberKey::Bareword { .. } => Ok(()),
        MemberKey::ValueKey { .. } => Ok(()),
    }
}
