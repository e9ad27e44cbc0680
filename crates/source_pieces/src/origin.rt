//! What a type of the table is of that is a node of the tree: the number of its row, or of the word's text; and where an entry stands
//! in its group.

ghost use Rattle.std.specs.Prelude.{◌≡◌, ◌++◌, [], ◌∷◌, IfOk, IfSome, None, OnOk, Some};
ghost use Rattle.cddl_language.specs.Reading.{literal_of, rules_of, term_of, term_of1, text_of};
ghost use Rattle.cddl_language.specs.Terms.{Term, typed};
ghost use Rattle.check_terms.specs.Table.{Grows, Holds, node, nothing};
ghost use Rattle.check_terms.specs.Trees.{IsEntry, IsTerm, literal_tree};
ghost use Rattle.cddl_token.specs.declared.Token.{Token};
ghost use Rattle.tree_nodes.specs.View.{token_of, view, view_type1, view_types, view_value};
ghost use Rattle.tree_nodes.specs.declared.tree.Leaf.{Leaf as ALeaf};
ghost use Rattle.source_pieces.specs.Instances.{all_as_written};
ghost use Rattle.source_pieces.specs.Origins.{ArePieces, AreRead, AreRound, AreRoundIt, IsKeyOf, IsNumberOf, MayBeIn, MayBeOf};
ghost use Rattle.source_pieces.specs.Pieces.{bare_types, name_of_types, name_there};
ghost use Rattle.source_pieces.specs.Walk.{view_around, view_node};

use crate::names::lone_name;
use crate::node::{AroundNode, EntryNode, Found, InnerNode, Node, key_node};
use crate::piece::{EntryAt, NameAt, PieceAt};
use crate::span::{Span, brackets_span, node_span};
use crate::walk::nodes;
use check_reading::reader::{read_operand, read_operation, read_type_entry};
use check_terms::laws::growing_keeps;
use check_terms::{Form, NoRoom, Terms};
use std::alloc::Global;
use table_making::TypeOrigin;
use tree_nodes::{Leaf, Tree, Type1, Types, Value};

/// The types that stand in the text, the words that are keys there, and the entries and members of groups, each as it is written. The
/// table of terms grows by what they are.
///
/// It reads each node of the tree with all that is in it, so a type is read once for each bracket in which it stands, of which the
/// parser has 128 at most.
///
/// # Errors
///
/// Memory was refused, or a number does not fit.
pub fn pieces_at<'s>(
    alloc: Global,
    terms: &mut Terms<'s>,
    tree: &Tree<'s>,
) -> Result<Vec<PieceAt>, NoRoom>
    ensures grows { Grows terms.old terms.new }
    ensures pieces { IfOk result (λ v. ArePieces all_as_written terms.new (rules_of (view tree.now)) v.items) }
{
    growing_keeps();
    let Ok(found) = nodes(alloc, tree) else {
        return Err(NoRoom);
    };
    pieces_of(alloc, terms, tree, &found)
}

// What these nodes are, each read into the table of terms.
fn pieces_of<'s>(
    alloc: Global,
    terms: &mut Terms<'s>,
    tree: &Tree<'s>,
    found: &[Found<'_>],
) -> Result<Vec<PieceAt>, NoRoom>
    ensures grows { Grows terms.old terms.new }
    ensures read { IfOk result (λ v. AreRead terms.new (token_of tree.now) found.now v.items) }
{
    growing_keeps();
    let mut pieces = Vec::new(alloc);
    for node in found {
        let origin = node_origin(terms, tree, node.node)?;
        let key = key_origin(terms, tree, node.node)?;
        let name = node_name(terms, tree, node.node)?;
        let piece = PieceAt {
            rule: node.rule,
            origin,
            key,
            around: around_at(tree, node.node),
            entry: entry_at(node.node),
            name,
            asked: None,
            span: node_span(tree, node.node),
        };
        push(&mut pieces, piece)?;
    }
    Ok(pieces)
}

fn push(pieces: &mut Vec<PieceAt>, piece: PieceAt) -> Result<(), NoRoom>
    ensures { OnOk result (pieces.new.items ≡ pieces.old.items ++ piece ∷ []) }
{
    match pieces.push(piece) {
        Ok(()) => Ok(()),
        Err(_) => Err(NoRoom),
    }
}

// What the key is of, where the node is that of an entry or the type of the value in one.
fn key_origin<'s>(
    terms: &mut Terms<'s>,
    tree: &Tree<'s>,
    node: Node<'_>,
) -> Result<Option<TypeOrigin>, NoRoom>
    ensures grows { Grows terms.old terms.new }
    ensures key { IfOk result (λ o. IsKeyOf terms.new (view_node (token_of tree.now) node.entry) o) }
{
    match node {
        Node::Key(_, key) => node_origin(terms, tree, key_node(key)),
        Node::Value(_, key, _) => node_origin(terms, tree, key_node(key)),
        Node::Choice(_) => Ok(None),
        Node::Operation(_) => Ok(None),
        Node::Operand(_) => Ok(None),
        Node::Literal(_) => Ok(None),
        Node::Word(_) => Ok(None),
        Node::Member(_, _) => Ok(None),
        Node::Entry(_) => Ok(None),
    }
}

// Where an entry stands in its group.
fn entry_at(node: Node<'_>) -> Option<EntryAt>
    ensures { (read : ALeaf → Token) → MayBeIn (view_node read node.entry) result }
{
    match node {
        Node::Entry(entry) => Some(EntryAt {
            alternative: entry.alternative,
            place: entry.place,
        }),
        Node::Choice(_) => None,
        Node::Operation(_) => None,
        Node::Operand(_) => None,
        Node::Literal(_) => None,
        Node::Word(_) => None,
        Node::Key(_, _) => None,
        Node::Value(_, _, _) => None,
        Node::Member(_, _) => None,
    }
}

// What is round the group of an entry or of a member, or the map's group in which a key or a value is.
fn around_at(tree: &Tree<'_>, node: Node<'_>) -> Option<Span>
    ensures { AreRoundIt (view_node (token_of tree.now) node.entry) result }
{
    match node {
        Node::Entry(entry) => around_span(tree, entry.around),
        Node::Key(around, _) => around_span(tree, around),
        Node::Value(around, _, _) => around_span(tree, around),
        Node::Member(around, _) => around_span(tree, around),
        Node::Choice(_) => None,
        Node::Operation(_) => None,
        Node::Operand(_) => None,
        Node::Literal(_) => None,
        Node::Word(_) => None,
    }
}

// The brackets round a group, if there are some.
fn around_span(tree: &Tree<'_>, around: AroundNode) -> Option<Span>
    ensures { AreRound (view_around (token_of tree.now) around) result }
{
    match around {
        AroundNode::Brackets(opening, closing) => Some(brackets_span(tree, opening, closing)),
        AroundNode::Rule => None,
    }
}

// The name that an entry or a member is, if it is one alone.
fn node_name<'s>(
    terms: &mut Terms<'s>,
    tree: &Tree<'s>,
    node: Node<'_>,
) -> Result<Option<NameAt>, NoRoom>
    ensures grows { Grows terms.old terms.new }
    ensures name { IfOk result (λ o. IsNumberOf terms.new (name_there (view_node (token_of tree.now) node.entry)) o) }
{
    match node {
        Node::Member(_, types) => types_name(terms, tree, types),
        Node::Entry(
            EntryNode {
                inner: InnerNode::Types(types),
                ..
            },
        ) => types_name(terms, tree, types),
        _ => Ok(None),
    }
}

// The name that a type is, if it is one alone.
fn types_name<'s>(
    terms: &mut Terms<'s>,
    tree: &Tree<'s>,
    types: &Types,
) -> Result<Option<NameAt>, NoRoom>
    ensures grows { Grows terms.old terms.new }
    ensures name { IfOk result (λ o. IsNumberOf terms.new (name_of_types (bare_types (view_types (token_of tree.now) types.now))) o) }
{
    match lone_name(tree, types) {
        Some(name) => Ok(Some(NameAt {
            number: terms.add_text(name.text)?,
            is_unwrapped: name.is_unwrapped,
        })),
        None => Ok(None),
    }
}

// The row of a type, or the text of a word; nothing for an entry or a member, which may be a group, nor for a key in its place.
fn node_origin<'s>(
    terms: &mut Terms<'s>,
    tree: &Tree<'s>,
    node: Node<'_>,
) -> Result<Option<TypeOrigin>, NoRoom>
    ensures grows { Grows terms.old terms.new }
    ensures origin { IfOk result (λ o. MayBeOf terms.new (view_node (token_of tree.now) node.entry) o) }
{
    match node {
        Node::Choice(types) => Ok(Some(TypeOrigin::Row(read_types(terms, tree, types)?))),
        Node::Operation(type1) => Ok(Some(TypeOrigin::Row(read_type1(terms, tree, type1)?))),
        Node::Operand(type2) => Ok(Some(TypeOrigin::Row(read_operand(terms, tree, type2)?))),
        Node::Literal(value) => Ok(Some(TypeOrigin::Row(read_literal(terms, tree, value)?))),
        Node::Word(leaf) => Ok(Some(TypeOrigin::Word(terms.add_text(text_at(tree, leaf))?))),
        Node::Value(_, _, types) => Ok(Some(TypeOrigin::Row(read_types(terms, tree, types)?))),
        Node::Key(_, _) => Ok(None),
        Node::Member(_, _) => Ok(None),
        Node::Entry(_) => Ok(None),
    }
}

// The row of a choice: the part of the entry that it is by itself.
fn read_types<'s>(terms: &mut Terms<'s>, tree: &Tree<'s>, types: &Types) -> Result<u32, NoRoom>
    ensures grows { Grows terms.old terms.new }
    ensures term { IfOk result (λ n. IsTerm terms.new n (term_of (view_types (token_of tree.now) types.now))) }
{
    let entry = read_type_entry(terms, tree, types)?;
    match first_part(terms, entry) {
        Some(row) => Ok(row),
        None => Err(NoRoom),
    }
}

// The row of an entry's type.
fn first_part(terms: &Terms<'_>, entry: u32) -> Option<u32>
    ensures { IfSome result (λ n. (x : Term) → IsEntry terms.now entry (typed None x) → IsTerm terms.now n x) }
{
    terms.row(entry)?.first
}

fn read_type1<'s>(terms: &mut Terms<'s>, tree: &Tree<'s>, type1: &Type1) -> Result<u32, NoRoom>
    ensures grows { Grows terms.old terms.new }
    ensures term { IfOk result (λ n. IsTerm terms.new n (term_of1 (view_type1 (token_of tree.now) type1.now))) }
{
    match type1 {
        Type1::One(operand) => read_operand(terms, tree, operand),
        Type1::Operation {
            left,
            operator,
            right,
        } => read_operation(terms, tree, left, operator, right),
    }
}

fn read_literal<'s>(terms: &mut Terms<'s>, tree: &Tree<'s>, value: Value) -> Result<u32, NoRoom>
    ensures grows { Grows terms.old terms.new }
    ensures literal { IfOk result (λ n. Holds terms.new (Some n) (literal_tree (literal_of (view_value (token_of tree.now) value)))) }
{
    match value {
        Value::Number(leaf) => add_leaf(terms, tree, Form::Number, leaf),
        Value::Text(leaf) => add_leaf(terms, tree, Form::Text, leaf),
        Value::Bytes(leaf) => add_leaf(terms, tree, Form::Bytes, leaf),
    }
}

// The number of a row with the text of this leaf and no parts.
fn add_leaf<'s>(
    terms: &mut Terms<'s>,
    tree: &Tree<'s>,
    form: Form,
    leaf: Leaf,
) -> Result<u32, NoRoom>
    ensures grows { Grows terms.old terms.new }
    ensures stands { IfOk result (λ n. Holds terms.new (Some n) (node form (Some (text_of (token_of tree.now leaf))) nothing nothing)) }
{
    let text = text_at(tree, leaf);
    terms.add_node(form, Some(text), None, None)
}

// The text of a leaf's token.
pub(crate) fn text_at<'s>(tree: &Tree<'s>, leaf: Leaf) -> &'s str
    ensures { result.now ≡ text_of (token_of tree.now leaf) }
{
    tree.token(leaf).text
}
