//! The numbers of what the nodes of a tree stand for. Each function goes down one level of the program's stack for each node
//! round another, and so a few levels for each bracket that is open, of which the parser has 128 at most.
ghost use Rattle.std.specs.Prelude.{IfOk, None, Some, map, option_map};
ghost use Rattle.cddl_language.specs.Reading.{entries_of, entry_of, group_of, key_of, operation, ref_of, term_of, term_of1, term_of2, terms_of};
ghost use Rattle.tree_nodes.specs.Syntax.Syntax as S;
ghost use Rattle.check_terms.specs.Table.{Grows, Holds, IsPart, Tree as TermTree, node, nothing};
ghost use Rattle.check_terms.specs.Trees.{IsEntries, IsEntry, IsGroup, IsKey, IsRef, IsTerm, IsTerms, group_tree, ref_tree, term_tree};
ghost use Rattle.tree_nodes.specs.View.{token_of, view_arg, view_entry, view_group, view_grpent, view_key, view_operator, view_ref, view_type1, view_type2, view_types, with_entries};

use crate::reader::leaves::{
    add_leaf, add_operation, entries_form, key_form, occurrence, read_literal, text_at,
};
use check_terms::{Form, NoRoom, Terms, opened_name};
use tree_nodes::{
    Entry, GenericArg, Group, GrpChoice, GrpEnt, MemberKey, Operator, Ref, Tree, Type1, Type2,
    Types,
};

// The number of a type.
#[cycle(nodes)]
pub(crate) fn read_types<'s>(
    terms: &mut Terms<'s>,
    tree: &Tree<'s>,
    types: &Types,
) -> Result<u32, NoRoom>
    ensures grows { Grows terms.old terms.new }
    ensures term { IfOk result (λ n. IsTerm terms.new n (term_of (view_types (token_of tree.now) types.now))) }
{
    let Types { first, others } = types;
    let mut number = read_type1(terms, tree, first)?;
    for further in others {
        let next = read_type1(terms, tree, &further.type1)?;
        number = terms.add_node(Form::Or, None, Some(number), Some(next))?;
    }
    Ok(number)
}

// The number of a member of a choice (RFC 8610, appendix B: type1).
#[cycle(nodes)]
fn read_type1<'s>(terms: &mut Terms<'s>, tree: &Tree<'s>, type1: &Type1) -> Result<u32, NoRoom>
    ensures grows { Grows terms.old terms.new }
    ensures term { IfOk result (λ n. IsTerm terms.new n (term_of1 (view_type1 (token_of tree.now) type1.now))) }
{
    match type1 {
        Type1::One(operand) => read_operand(terms, tree, operand),
        Type1::Operation {
            left,
            operator,
            right,
        } => {
            let left = read_operand(terms, tree, left)?;
            let right = read_operand(terms, tree, right)?;
            add_operation(terms, tree, operator, left, right)
        }
    }
}

/// The number of an operand: the term that it is (RFC 8610, appendix B: type2).
///
/// # Errors
///
/// `NoRoom` where memory is refused, or each number of 32 bits is taken. The table may have grown.
#[cycle(nodes)]
pub fn read_operand<'s>(
    terms: &mut Terms<'s>,
    tree: &Tree<'s>,
    operand: &Type2,
) -> Result<u32, NoRoom>
    ensures grows { Grows terms.old terms.new }
    ensures term { IfOk result (λ n. IsTerm terms.new n (term_of2 (view_type2 (token_of tree.now) operand.now))) }
{
    match operand {
        Type2::Literal(value) => read_literal(terms, tree, value),
        Type2::Typename(name) => read_name(terms, tree, Form::Named, name),
        Type2::Parens { types, .. } => read_inside(terms, tree, Form::Parens, None, types),
        Type2::MapOf { group, .. } => read_bracketed(terms, tree, Form::MapOf, group),
        Type2::ArrayOf { group, .. } => read_bracketed(terms, tree, Form::ArrayOf, group),
        Type2::Unwrapped { name, .. } => read_name(terms, tree, Form::Unwrapped, name),
        Type2::ChoiceOf { group, .. } => read_bracketed(terms, tree, Form::ChoiceOf, group),
        Type2::ChoiceOfName { name, .. } => read_name(terms, tree, Form::ChoiceOfName, name),
        Type2::Tagged { opening, types, .. } => {
            let text = text_at(tree, *opening);
            read_inside(terms, tree, Form::Tagged, Some(text), types)
        }
        Type2::TaggedBy { head, types, .. } => {
            let head = read_types(terms, tree, head)?;
            read_tagged_by(terms, tree, head, types)
        }
        Type2::SimpleBy { head, .. } => read_inside(terms, tree, Form::SimpleBy, None, head),
        Type2::Hash(leaf) => add_leaf(terms, tree, Form::Hash, *leaf),
    }
}

// The number of a row of this form over a reference.
#[cycle(nodes)]
fn read_name<'s>(
    terms: &mut Terms<'s>,
    tree: &Tree<'s>,
    form: Form,
    name: &Ref,
) -> Result<u32, NoRoom>
    ensures grows { Grows terms.old terms.new }
    ensures stands { IfOk result (λ n. Holds terms.new (Some n) (node form None (ref_tree (ref_of (view_ref (token_of tree.now) name.now))) nothing)) }
{
    let reference = read_reference(terms, tree, name)?;
    terms.add_node(form, None, Some(reference), None)
}

// The number of a row of this form and text over a type.
#[cycle(nodes)]
fn read_inside<'s>(
    terms: &mut Terms<'s>,
    tree: &Tree<'s>,
    form: Form,
    text: Option<&'s str>,
    types: &Types,
) -> Result<u32, NoRoom>
    ensures grows { Grows terms.old terms.new }
    ensures stands { IfOk result (λ n. Holds terms.new (Some n) (node form (option_map (λ s. s.now) text.entry) (term_tree (term_of (view_types (token_of tree.now) types.now))) nothing)) }
{
    let inside = read_types(terms, tree, types)?;
    terms.add_node(form, text, Some(inside), None)
}

// The number of a row of this form over a group.
#[cycle(nodes)]
fn read_bracketed<'s>(
    terms: &mut Terms<'s>,
    tree: &Tree<'s>,
    form: Form,
    group: &Group,
) -> Result<u32, NoRoom>
    ensures grows { Grows terms.old terms.new }
    ensures stands { IfOk result (λ n. Holds terms.new (Some n) (node form None (group_tree (group_of (view_group (token_of tree.now) group.now))) nothing)) }
{
    let inside = read_group(terms, tree, group)?;
    terms.add_node(form, None, Some(inside), None)
}

// The number of `#6.< head > ( types )`, where the head is a row of the table.
#[cycle(nodes)]
fn read_tagged_by<'s>(
    terms: &mut Terms<'s>,
    tree: &Tree<'s>,
    head: u32,
    types: &Types,
) -> Result<u32, NoRoom>
    requires { IsPart terms.old (Some head) }
    ensures grows { Grows terms.old terms.new }
    ensures stands { IfOk result (λ n. (h : TermTree) → Holds terms.old (Some head) h → Holds terms.new (Some n) (node Form.TaggedBy None h (term_tree (term_of (view_types (token_of tree.now) types.now))))) }
{
    let inside = read_types(terms, tree, types)?;
    terms.add_node(Form::TaggedBy, None, Some(head), Some(inside))
}

/// The number of a reference: a name that is used, and its arguments (RFC 8610 section 3.10).
///
/// # Errors
///
/// `NoRoom` where memory is refused, or each number of 32 bits is taken. The table may have grown.
#[cycle(nodes)]
pub fn read_reference<'s>(terms: &mut Terms<'s>, tree: &Tree<'s>, name: &Ref) -> Result<u32, NoRoom>
    ensures grows { Grows terms.old terms.new }
    ensures reference { IfOk result (λ n. IsRef terms.new n (ref_of (view_ref (token_of tree.now) name.now))) }
{
    match name {
        Ref::Name(leaf) => {
            let text = text_at(tree, *leaf);
            let arguments = terms.add_node(Form::NoTerms, None, None, None)?;
            terms.add_node(Form::Call, Some(text), Some(arguments), None)
        }
        Ref::Applied {
            opening,
            arguments,
            ..
        } => {
            let text = opened_name(text_at(tree, *opening));
            let arguments = read_arguments(terms, tree, arguments)?;
            terms.add_node(Form::Call, Some(text), Some(arguments), None)
        }
    }
}

// The number of the arguments. They are read from the last to the first, since each has a row with the row of those after it.
#[cycle(nodes)]
fn read_arguments<'s>(
    terms: &mut Terms<'s>,
    tree: &Tree<'s>,
    arguments: &GenericArg,
) -> Result<u32, NoRoom>
    ensures grows { Grows terms.old terms.new }
    ensures arguments { IfOk result (λ n. IsTerms terms.new n (terms_of (view_arg (token_of tree.now) arguments.now))) }
{
    let GenericArg { first, others } = arguments;
    let mut number = terms.add_node(Form::NoTerms, None, None, None)?;
    for further in others.iter().rev() {
        let argument = read_type1(terms, tree, &further.type1)?;
        number = terms.add_node(Form::Argument, None, Some(argument), Some(number))?;
    }
    let argument = read_type1(terms, tree, first)?;
    terms.add_node(Form::Argument, None, Some(argument), Some(number))
}

/// The number of a group (RFC 8610 section 2.1).
///
/// # Errors
///
/// `NoRoom` where memory is refused, or each number of 32 bits is taken. The table may have grown.
#[cycle(nodes)]
pub fn read_group<'s>(terms: &mut Terms<'s>, tree: &Tree<'s>, group: &Group) -> Result<u32, NoRoom>
    ensures grows { Grows terms.old terms.new }
    ensures group { IfOk result (λ n. IsGroup terms.new n (group_of (view_group (token_of tree.now) group.now))) }
{
    let Group { first, others } = group;
    let first = read_entries(terms, tree, first)?;
    let mut number = terms.add_node(Form::Sole, None, Some(first), None)?;
    for choice in others {
        let GrpChoice { entries, .. } = choice;
        let next = read_entries(terms, tree, entries)?;
        number = terms.add_node(Form::OrElse, None, Some(number), Some(next))?;
    }
    Ok(number)
}

// The number of the entries of one alternative.
#[cycle(nodes)]
fn read_entries<'s>(
    terms: &mut Terms<'s>,
    tree: &Tree<'s>,
    entries: &Vec<Entry>,
) -> Result<u32, NoRoom>
    ensures grows { Grows terms.old terms.new }
    ensures entries { IfOk result (λ n. IsEntries terms.new n (entries_of (with_entries S.no_entries (map (view_entry (token_of tree.now)) entries.now.items)))) }
{
    let mut number = terms.add_node(Form::NoEntries, None, None, None)?;
    for entry in entries {
        let next = read_entry(terms, tree, &entry.grpent)?;
        number = terms.add_node(entries_form(entry.comma), None, Some(number), Some(next))?;
    }
    Ok(number)
}

/// The number of an entry, without its comma.
///
/// # Errors
///
/// `NoRoom` where memory is refused, or each number of 32 bits is taken. The table may have grown.
#[cycle(nodes)]
pub fn read_entry<'s>(terms: &mut Terms<'s>, tree: &Tree<'s>, entry: &GrpEnt) -> Result<u32, NoRoom>
    ensures grows { Grows terms.old terms.new }
    ensures entry { IfOk result (λ n. IsEntry terms.new n (entry_of (view_grpent (token_of tree.now) entry.now))) }
{
    match entry {
        GrpEnt::Typed { occur, types } => {
            let occur = occurrence(tree, *occur);
            read_inside(terms, tree, Form::Typed, occur, types)
        }
        GrpEnt::Keyed { occur, key, types } => {
            let occur = occurrence(tree, *occur);
            let key = read_key(terms, tree, key)?;
            let types = read_types(terms, tree, types)?;
            terms.add_node(Form::Keyed, occur, Some(key), Some(types))
        }
        GrpEnt::Grouped { occur, group, .. } => {
            let occur = occurrence(tree, *occur);
            let group = read_group(terms, tree, group)?;
            terms.add_node(Form::Grouped, occur, Some(group), None)
        }
    }
}

// The number of a key.
#[cycle(nodes)]
fn read_key<'s>(terms: &mut Terms<'s>, tree: &Tree<'s>, key: &MemberKey) -> Result<u32, NoRoom>
    ensures grows { Grows terms.old terms.new }
    ensures key { IfOk result (λ n. IsKey terms.new n (key_of (view_key (token_of tree.now) key.now))) }
{
    match key {
        MemberKey::TypeKey { type1, cut, .. } => {
            let number = read_type1(terms, tree, type1)?;
            terms.add_node(key_form(*cut), None, Some(number), None)
        }
        MemberKey::Bareword { name, .. } => add_leaf(terms, tree, Form::Bareword, *name),
        MemberKey::ValueKey { value, .. } => {
            let number = read_literal(terms, tree, value)?;
            terms.add_node(Form::LiteralKey, None, Some(number), None)
        }
    }
}

/// The number of an entry that is a type alone.
///
/// # Errors
///
/// `NoRoom` where memory is refused, or each number of 32 bits is taken. The table may have grown.
pub fn read_type_entry<'s>(
    terms: &mut Terms<'s>,
    tree: &Tree<'s>,
    types: &Types,
) -> Result<u32, NoRoom>
    ensures grows { Grows terms.old terms.new }
    ensures entry { IfOk result (λ n. IsEntry terms.new n (entry_of (S.typed None (view_types (token_of tree.now) types.now)))) }
{
    read_inside(terms, tree, Form::Typed, None, types)
}

/// The number of a range or of a control, with both of its operands (RFC 8610, appendix B: type1).
///
/// # Errors
///
/// `NoRoom` where memory is refused, or each number of 32 bits is taken. The table may have grown.
pub fn read_operation<'s>(
    terms: &mut Terms<'s>,
    tree: &Tree<'s>,
    left: &Type2,
    operator: &Operator,
    right: &Type2,
) -> Result<u32, NoRoom>
    ensures grows { Grows terms.old terms.new }
    ensures term { IfOk result (λ n. IsTerm terms.new n (operation (term_of2 (view_type2 (token_of tree.now) left.now)) (view_operator (token_of tree.now) operator.now) (term_of2 (view_type2 (token_of tree.now) right.now)))) }
{
    let first = read_operand(terms, tree, left)?;
    let second = read_operand(terms, tree, right)?;
    add_operation(terms, tree, operator, first, second)
}
