//! What is read of leaves.
ghost use Rattle.std.specs.Prelude.{◌≡◌, IfOk, Some, is_some, option_map};
ghost use Rattle.cddl_language.specs.Reading.{literal_of, occurrence as occurrence_of, operation, text_of};
ghost use Rattle.cddl_language.specs.Terms.{Term};
ghost use Rattle.check_terms.specs.Table.{Grows, Holds, IsPart, node, nothing};
ghost use Rattle.check_terms.specs.Trees.{IsTerm, entries_form as form_of_entries, key_form as form_of_key, literal_tree};
ghost use Rattle.tree_nodes.specs.View.{leaf as token_at, token_of, view_operator, view_value};

use check_terms::{Form, NoRoom, Terms, control_name};
use tree_nodes::{Leaf, Operator, Tree, Value};

// The text of a leaf's token.
pub(crate) fn text_at<'s>(tree: &Tree<'s>, leaf: Leaf) -> &'s str
    ensures { result.now ≡ text_of (token_of tree.now leaf) }
{
    tree.token(leaf).text
}

// The text of an occurrence, if there is one.
pub(crate) fn occurrence<'s>(tree: &Tree<'s>, occur: Option<Leaf>) -> Option<&'s str>
    ensures { option_map (λ t. t.now) result ≡ occurrence_of (token_at (token_of tree.now) occur) }
{
    match occur {
        Some(leaf) => Some(text_at(tree, leaf)),
        None => None,
    }
}

// The form of entries, the last of which has this comma after it or none.
pub(crate) fn entries_form(comma: Option<Leaf>) -> Form
    ensures { result ≡ form_of_entries (is_some comma) }
{
    match comma {
        Some(_) => Form::EntriesComma,
        None => Form::Entries,
    }
}

// The form of a type as a key, with this cut or none.
pub(crate) fn key_form(cut: Option<Leaf>) -> Form
    ensures { result ≡ form_of_key (is_some cut) }
{
    match cut {
        Some(_) => Form::CutKey,
        None => Form::TypeKey,
    }
}

// The number of a row with the text of this leaf and no parts.
pub(crate) fn add_leaf<'s>(
    terms: &mut Terms<'s>,
    tree: &Tree<'s>,
    form: Form,
    leaf: Leaf,
) -> Result<u32, NoRoom>
    ensures grows { Grows terms.old terms.new }
    ensures stands { IfOk result (λ n. Holds terms.new (Some n) (node form (Some (text_of (token_of tree.now leaf))) nothing nothing)) }
{
    let text = text_at(tree, leaf);
    terms.add_node(form, Some(text), None, None)
}

// The number of a literal, as a type or in a key.
pub(crate) fn read_literal<'s>(
    terms: &mut Terms<'s>,
    tree: &Tree<'s>,
    value: &Value,
) -> Result<u32, NoRoom>
    ensures grows { Grows terms.old terms.new }
    ensures literal { IfOk result (λ n. Holds terms.new (Some n) (literal_tree (literal_of (view_value (token_of tree.now) value.now)))) }
{
    match value {
        Value::Number(leaf) => add_leaf(terms, tree, Form::Number, *leaf),
        Value::Text(leaf) => add_leaf(terms, tree, Form::Text, *leaf),
        Value::Bytes(leaf) => add_leaf(terms, tree, Form::Bytes, *leaf),
    }
}

// The number of a range or a control between two operands, which are rows of the table.
pub(crate) fn add_operation<'s>(
    terms: &mut Terms<'s>,
    tree: &Tree<'s>,
    operator: &Operator,
    left: u32,
    right: u32,
) -> Result<u32, NoRoom>
    requires left { IsPart terms.old (Some left) }
    requires right { IsPart terms.old (Some right) }
    ensures grows { Grows terms.old terms.new }
    ensures term { IfOk result (λ n. (x y : Term) → IsTerm terms.old left x → IsTerm terms.old right y → IsTerm terms.new n (operation x (view_operator (token_of tree.now) operator.now) y)) }
{
    match operator {
        Operator::Range(_) => terms.add_node(Form::Range, None, Some(left), Some(right)),
        Operator::RangeBelow(_) => terms.add_node(Form::RangeBelow, None, Some(left), Some(right)),
        Operator::Control(leaf) => {
            let name = control_name(text_at(tree, *leaf));
            terms.add_node(Form::Control, Some(name), Some(left), Some(right))
        }
    }
}
