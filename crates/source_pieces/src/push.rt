//! A node of each kind is put at the end of the list.

ghost use Rattle.std.specs.Prelude.{OnOk, [], ◌∷◌};
ghost use Rattle.tree_nodes.specs.Syntax.Syntax as S;
ghost use Rattle.tree_nodes.specs.View.{view_key, view_type1, view_type2, view_types, view_value};
ghost use Rattle.source_pieces.specs.Pieces.{a_key, a_member, a_type, a_value, a_word, an_entry, key_piece, operand};
ghost use Rattle.source_pieces.specs.Walk.{Adds, view_around, view_inner, view_node};

use crate::node::{AroundNode, EntryNode, Found, Node};
use std::alloc::AllocError;
use tree_nodes::{Leaf, MemberKey, Type1, Type2, Types, Value};

pub(crate) fn push_choice<'t>(
    types: &'t Types,
    rule: usize,
    found: &mut Vec<Found<'t>>,
) -> Result<(), AllocError>
    ensures { OnOk result (Adds found.old.items found.new.items rule (λ read. a_type (view_types read types.now) ∷ [])) }
{
    push(Node::Choice(types), rule, found)
}

pub(crate) fn push_operation<'t>(
    type1: &'t Type1,
    rule: usize,
    found: &mut Vec<Found<'t>>,
) -> Result<(), AllocError>
    ensures { OnOk result (Adds found.old.items found.new.items rule (λ read. a_type (S.only (view_type1 read type1.now)) ∷ [])) }
{
    push(Node::Operation(type1), rule, found)
}

pub(crate) fn push_operand<'t>(
    type2: &'t Type2,
    rule: usize,
    found: &mut Vec<Found<'t>>,
) -> Result<(), AllocError>
    ensures { OnOk result (Adds found.old.items found.new.items rule (λ read. operand (view_type2 read type2.now) ∷ [])) }
{
    push(Node::Operand(type2), rule, found)
}

pub(crate) fn push_literal(
    value: Value,
    rule: usize,
    found: &mut Vec<Found<'_>>,
) -> Result<(), AllocError>
    ensures { OnOk result (Adds found.old.items found.new.items rule (λ read. operand (S.literal (view_value read value)) ∷ [])) }
{
    push(Node::Literal(value), rule, found)
}

pub(crate) fn push_word(
    name: Leaf,
    rule: usize,
    found: &mut Vec<Found<'_>>,
) -> Result<(), AllocError>
    ensures { OnOk result (Adds found.old.items found.new.items rule (λ read. a_word (read name) ∷ [])) }
{
    push(Node::Word(name), rule, found)
}

pub(crate) fn push_key<'t>(
    around: AroundNode,
    key: &'t MemberKey,
    rule: usize,
    found: &mut Vec<Found<'t>>,
) -> Result<(), AllocError>
    ensures { OnOk result (Adds found.old.items found.new.items rule (λ read. a_key (view_around read around) (key_piece (view_key read key.now)) ∷ [])) }
{
    push(Node::Key(around, key), rule, found)
}

pub(crate) fn push_value<'t>(
    around: AroundNode,
    key: &'t MemberKey,
    types: &'t Types,
    rule: usize,
    found: &mut Vec<Found<'t>>,
) -> Result<(), AllocError>
    ensures { OnOk result (Adds found.old.items found.new.items rule (λ read. a_value (view_around read around) (key_piece (view_key read key.now)) (view_types read types.now) ∷ [])) }
{
    push(Node::Value(around, key, types), rule, found)
}

pub(crate) fn push_member<'t>(
    around: AroundNode,
    types: &'t Types,
    rule: usize,
    found: &mut Vec<Found<'t>>,
) -> Result<(), AllocError>
    ensures { OnOk result (Adds found.old.items found.new.items rule (λ read. a_member (view_around read around) (view_types read types.now) ∷ [])) }
{
    push(Node::Member(around, types), rule, found)
}

pub(crate) fn push_entry<'t>(
    entry: EntryNode<'t>,
    rule: usize,
    found: &mut Vec<Found<'t>>,
) -> Result<(), AllocError>
    ensures { OnOk result (Adds found.old.items found.new.items rule (λ read. an_entry (view_around read entry.entry.around) entry.entry.alternative entry.entry.place (view_inner read entry.entry.inner) ∷ [])) }
{
    push(Node::Entry(entry), rule, found)
}

fn push<'t>(node: Node<'t>, rule: usize, found: &mut Vec<Found<'t>>) -> Result<(), AllocError>
    ensures { OnOk result (Adds found.old.items found.new.items rule (λ read. view_node read node.entry ∷ [])) }
{
    found.push(Found { rule, node })?;
    Ok(())
}
