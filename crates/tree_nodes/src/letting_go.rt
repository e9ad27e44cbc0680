//! How the parts of a tree are let go of: with little of the program's stack for each bracket.
//!
//! What recurses keeps wide values to itself, so that few of them are on the stack for each bracket.
use crate::tree::{
    Entry, Further, GenericArg, Group, GrpChoice, GrpEnt, MemberKey, Ref, Type1, Type2, Types,
};

#[cycle(letting_go)]
#[inline(never)]
pub(crate) fn let_go_of_boxed_types(types: Box<Types>) {
    let_go_of_types(Box::into_inner(types));
}

#[cycle(letting_go)]
#[inline(always)]
fn let_go_of_types(types: Types) {
    let Types { first, others } = types;
    let_go_of_further(others);
    let_go_of_type1(first);
}

#[cycle(letting_go)]
#[inline(always)]
fn let_go_of_further(mut others: Vec<Further>) {
    while let Some(further) = others.pop() {
        let Further { sign: _, type1 } = further;
        let_go_of_type1(type1);
    }
    others.destroy_empty();
}

#[cycle(letting_go)]
#[inline(always)]
fn let_go_of_type1(type1: Type1) {
    match type1 {
        Type1::One(operand) => let_go_of_operand(operand),
        Type1::Operation {
            left,
            operator: _,
            right,
        } => {
            let_go_of_operand(left);
            let_go_of_operand(right);
        }
    }
}

#[cycle(letting_go)]
#[inline(never)]
fn let_go_of_operand(operand: Box<Type2>) {
    drop(Box::into_inner(operand));
}

#[cycle(letting_go)]
#[inline(never)]
pub(crate) fn let_go_of_ref(name: Ref) {
    match name {
        Ref::Name(_) => {}
        Ref::Applied {
            opening: _,
            arguments,
            closing: _,
        } => {
            let GenericArg { first, others } = Box::into_inner(arguments);
            let_go_of_further(others);
            let_go_of_type1(first);
        }
    }
}

#[cycle(letting_go)]
#[inline(always)]
pub(crate) fn let_go_of_group(group: Group) {
    let Group { first, mut others } = group;
    let_go_of_entries(first);
    while let Some(choice) = others.pop() {
        let GrpChoice {
            slashes: _,
            entries,
        } = choice;
        let_go_of_entries(entries);
    }
    others.destroy_empty();
}

#[cycle(letting_go)]
#[inline(never)]
fn let_go_of_entries(mut entries: Vec<Entry>) {
    while let Some(entry) = entries.pop() {
        let Entry { grpent, comma: _ } = entry;
        match grpent {
            GrpEnt::Typed { occur: _, types } => let_go_of_types(types),
            GrpEnt::Keyed {
                occur: _,
                key,
                types,
            } => {
                let_go_of_key(key);
                let_go_of_types(types);
            }
            GrpEnt::Grouped {
                occur: _,
                opening: _,
                group,
                closing: _,
            } => let_go_of_group(group),
        }
    }
    entries.destroy_empty();
}

#[cycle(letting_go)]
#[inline(never)]
fn let_go_of_key(key: Box<MemberKey>) {
    match Box::into_inner(key) {
        MemberKey::TypeKey {
            type1,
            cut: _,
            arrow: _,
        } => let_go_of_type1(type1),
        MemberKey::Bareword { name: _, colon: _ } | MemberKey::ValueKey { value: _, colon: _ } => {}
    }
}
