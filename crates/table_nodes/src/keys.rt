//! The one value that a type is known to be.

ghost use Rattle.std.specs.Prelude.{◌≡◌, IfOk, MatchOption, None, Option, Some};
ghost use Rattle.cbor_data.specs.Value.{Value};
ghost use Rattle.item_nodes.specs.View.{view};
ghost use Rattle.cddl_meaning.specs.Forms.{key_by, key_in, most_forms};
ghost use Rattle.table_nodes.specs.Choices.{type_in};
ghost use Rattle.table_nodes.specs.Keys.{AreLiterals, shown_value};
ghost use Rattle.table_nodes.specs.Nodes.{type_view};
ghost use Rattle.table_nodes.specs.declared.nodes.TypeId.{TypeId as Id};

use crate::nodes::{Node, Test, TypeId};
use item_nodes::Item;
use std::alloc::{AllocError, Global};

/// So many forms are gone through to find the value of a key, and one more.
const MOST_FORMS: u8 = 16;

/// What a type shows of the one value that it is: that value, or a type that is the same one.
#[derive(Clone, Copy)]
enum Shown<'t> {
    Value(&'t Item),
    Same(TypeId),
    Nothing,
}

// What the form of a type shows of the one value that it is.
#[inline]
fn shown_by(form: &Node) -> Shown<'_>
    ensures { (next : Id → Option Value) → key_by next (type_view form.now) ≡ shown_value result next }
{
    match form {
        Node::Plain(Test::Equals(literal)) => Shown::Value(literal),
        Node::Ref(to) => Shown::Same(*to),
        Node::Choice(members) => match members.as_slice() {
            [member] => Shown::Same(*member),
            _ => Shown::Nothing,
        },
        _ => Shown::Nothing,
    }
}

// What the type of this number shows, if it is there.
#[inline]
fn shown_at(types: &[Node], node: TypeId) -> Shown<'_>
    ensures { (next : Id → Option Value) → key_by next (type_in types.now node) ≡ shown_value result next }
{
    match types.get(node.number) {
        Some(form) => shown_by(form),
        None => Shown::Nothing,
    }
}

// The type to which the names lead by which a type is known to be one value: it is that value, or the type is known to be none.
fn literal_type(types: &[Node], node: TypeId) -> TypeId
    ensures { key_in (type_in types.now) most_forms node ≡ key_in (type_in types.now) 0 result }
{
    let mut node = node;
    let mut left = MOST_FORMS;
    while left > 0 {
        match shown_at(types, node) {
            Shown::Value(_) => return node,
            Shown::Nothing => return node,
            Shown::Same(next) => {
                node = next;
                left -= 1;
            }
        }
    }
    node
}

// The value that a type is by its own form.
#[inline(always)]
pub(crate) fn own_literal(types: &[Node], node: TypeId) -> Option<&Item>
    ensures { MatchOption result (key_in (type_in types.now) 0 node ≡ None) (λ literal. key_in (type_in types.now) 0 node ≡ Some (view literal.now)) }
{
    match shown_at(types, node) {
        Shown::Value(literal) => Some(literal),
        Shown::Same(_) => None,
        Shown::Nothing => None,
    }
}

// The one value that a type is known to be by its form.
#[inline(never)]
pub(crate) fn literal_in(types: &[Node], node: TypeId) -> Option<&Item>
    ensures { MatchOption result (key_in (type_in types.now) most_forms node ≡ None) (λ literal. key_in (type_in types.now) most_forms node ≡ Some (view literal.now)) }
{
    own_literal(types, literal_type(types, node))
}

// Of each type the one that is the value that it is known to be.
pub(crate) fn literals_of(alloc: Global, types: &[Node]) -> Result<Vec<TypeId>, AllocError>
    ensures { IfOk result (λ v. AreLiterals types.now v.items) }
{
    let mut literals = Vec::with_capacity(alloc, types.len())?;
    for number in 0..types.len() {
        literals.push(literal_type(types, TypeId { number }))?;
    }
    Ok(literals)
}

// The one value that a type is known to be, where it is kept of each type, else by its form.
#[inline(always)]
pub(crate) fn literal_at<'t>(
    types: &'t [Node],
    literals: &[TypeId],
    node: TypeId,
) -> Option<&'t Item>
    ensures { AreLiterals types.now literals.now → MatchOption result (key_in (type_in types.now) most_forms node ≡ None) (λ literal. key_in (type_in types.now) most_forms node ≡ Some (view literal.now)) }
{
    match literals.get(node.number) {
        Some(to) => own_literal(types, *to),
        None => literal_in(types, node),
    }
}
