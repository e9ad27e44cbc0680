//! What is asked of at a site, and of an entry.

ghost use Rattle.std.specs.Prelude.{◌≡◌, IfOk, None, Some, option_map};
ghost use Rattle.check_terms.specs.Table.{Grows, Holds};
ghost use Rattle.check_terms.specs.Trees.{IsEntry};
ghost use Rattle.check_reading.specs.Parts as by;
ghost use Rattle.check_reading.specs.Parts.{entry_wanted, node_tree, wanted};
ghost use Rattle.check_sites.specs.Entries.Entries.{view_node};
ghost use Rattle.check_sites.specs.Sites.View.{view_site};
ghost use Rattle.tree_nodes.specs.View.{token_of, view_grpent, view_operator, view_type2, view_types};
ghost use Rattle.cddl_language.specs.Controls.{computation_in, control_of as known_control};
ghost use Rattle.cddl_language.specs.Faults.{operand_at};
ghost use Rattle.cddl_language.specs.MapFaults.{entry_at};
ghost use Rattle.cddl_language.specs.Reading.{control_name as name_of_control, entry_of};
ghost use Rattle.tree_nodes.specs.Syntax.Syntax.{typed};
ghost use Rattle.check_terms.specs.Texts.Controls.{comparison_view, computation_view, control_view, membership_view};

use crate::parts::part::Question;
use crate::reader::{
    read_entry, read_group, read_operand, read_operation, read_reference, read_type_entry,
};
use check_sites::entries::{Node as EntryNode, TextEntry};
use check_sites::sites::Site;
use check_terms::texts::{Comparison, Computation, Control, Membership, control_of};
use check_terms::{NoRoom, Terms, control_name};
use tree_nodes::{Group, GrpEnt, Leaf, Operator, Ref, Tree, Type2, Types};

/// A node of the tree of which something is asked.
#[derive(Clone, Copy)]
pub(crate) enum Node<'t> {
    Group(&'t Group),
    Reference(&'t Ref),
    Operand(&'t Type2),
    Operation {
        left: &'t Type2,
        operator: Operator,
        right: &'t Type2,
    },
    Entry(EntryNode<'t>),
}

/// A node, and the offset at which a fault of it is reported.
#[derive(Clone, Copy)]
pub(crate) struct NodePart<'t> {
    pub(crate) at: usize,
    pub(crate) question: Question,
    pub(crate) node: Node<'t>,
}

// What is asked of at the site: a group or a reference after `&`, the first end of a range, the left side of a control that
// computes a literal, or the group of a map.
pub(crate) fn first_part<'t>(tree: &Tree<'_>, site: Site<'t>) -> Option<NodePart<'t>>
    ensures { option_map (wanted (token_of tree.now)) result ≡ by.first_part (view_site (token_of tree.now) site.entry) }
{
    match site {
        Site::ChoiceOf { ampersand, group } => Some(NodePart {
            at: tree.token(ampersand).start,
            question: Question::ChoosesFrom,
            node: Node::Group(group),
        }),
        Site::ChoiceOfName { ampersand, name } => Some(NodePart {
            at: tree.token(ampersand).start,
            question: Question::ChoosesByName,
            node: Node::Reference(name),
        }),
        Site::Operation { left, operator, .. } => left_part(tree, left, operator),
        Site::Map { opening, group } => Some(NodePart {
            at: tree.token(opening).start,
            question: Question::MapGroup,
            node: Node::Group(group),
        }),
        _ => None,
    }
}

// The last end of a range, what items are compared with, the controller of `.size`, or a control that computes a literal.
pub(crate) fn last_part<'t>(tree: &Tree<'_>, site: Site<'t>) -> Option<NodePart<'t>>
    ensures { option_map (wanted (token_of tree.now)) result ≡ by.last_part (view_site (token_of tree.now) site.entry) }
{
    match site {
        Site::Operation {
            left,
            operator,
            right,
        } => right_part(tree, left, operator, right),
        _ => None,
    }
}

// What is asked of what stands to the left of an operator.
fn left_part<'t>(tree: &Tree<'_>, left: &'t Type2, operator: Operator) -> Option<NodePart<'t>>
    ensures { option_map (wanted (token_of tree.now)) result ≡ option_map (by.operand_wanted (view_type2 (token_of tree.now) left.now)) (by.question_before (view_operator (token_of tree.now) operator)) }
{
    match question_before(tree, operator) {
        Some(question) => Some(operand(tree, left, question)),
        None => None,
    }
}

fn question_before(tree: &Tree<'_>, operator: Operator) -> Option<Question>
    ensures { result ≡ by.question_before (view_operator (token_of tree.now) operator) }
{
    match operator {
        Operator::Range(_) | Operator::RangeBelow(_) => Some(Question::IsWhole),
        Operator::Control(leaf) => operand_question(control_at(tree, leaf)),
    }
}

// What is asked of the left side of a control.
fn operand_question(control: Option<Control>) -> Option<Question>
    ensures { result ≡ by.question_of_operand (computation_in (option_map control_view control)) }
{
    match control {
        Some(Control::Computed(computation)) => Some(computation_question(computation)),
        _ => None,
    }
}

fn computation_question(computation: Computation) -> Question
    ensures { result ≡ by.operand_question (computation_view computation) }
{
    match computation {
        Computation::Sum => Question::IsAddend,
        Computation::Join(_) => Question::IsString,
    }
}

// The control that the token is, if it is known.
fn control_at(tree: &Tree<'_>, leaf: Leaf) -> Option<Control>
    ensures { option_map control_view result ≡ known_control (name_of_control (token_of tree.now leaf)) }
{
    control_of(control_name(tree.token(leaf).text))
}

// What is asked of what stands to the right of an operator.
fn right_part<'t>(
    tree: &Tree<'_>,
    left: &'t Type2,
    operator: Operator,
    right: &'t Type2,
) -> Option<NodePart<'t>>
    ensures { option_map (wanted (token_of tree.now)) result ≡ by.wanted_after (view_type2 (token_of tree.now) left.now) (view_operator (token_of tree.now) operator) (view_type2 (token_of tree.now) right.now) }
{
    match operator {
        Operator::Range(_) | Operator::RangeBelow(_) => Some(end(tree, right)),
        Operator::Control(leaf) => {
            let control = control_at(tree, leaf);
            controller_part(tree, left, operator, right, control)
        }
    }
}

// What is asked of the right side of this control.
fn controller_part<'t>(
    tree: &Tree<'_>,
    left: &'t Type2,
    operator: Operator,
    right: &'t Type2,
    control: Option<Control>,
) -> Option<NodePart<'t>>
    ensures { option_map (wanted (token_of tree.now)) result ≡ by.controller_wanted (view_type2 (token_of tree.now) left.now) (view_operator (token_of tree.now) operator) (view_type2 (token_of tree.now) right.now) (option_map control_view control) }
{
    match control {
        Some(Control::Compared(comparison)) => {
            Some(operand(tree, right, comparand_question(comparison)))
        }
        Some(Control::Member(membership)) => {
            Some(operand(tree, right, members_question(membership)))
        }
        Some(Control::Computed(_)) => Some(computation(tree, left, operator, right)),
        _ => None,
    }
}

// A control that computes a literal, reported at its right side.
fn computation<'t>(
    tree: &Tree<'_>,
    left: &'t Type2,
    operator: Operator,
    right: &'t Type2,
) -> NodePart<'t>
    ensures { wanted (token_of tree.now) result ≡ by.computation_wanted (view_type2 (token_of tree.now) left.now) (view_operator (token_of tree.now) operator) (view_type2 (token_of tree.now) right.now) }
{
    NodePart {
        at: start_of(tree, right),
        question: Question::Computes,
        node: Node::Operation {
            left,
            operator,
            right,
        },
    }
}

fn members_question(membership: Membership) -> Question
    ensures { result ≡ by.members_question (membership_view membership) }
{
    match membership {
        Membership::Size => Question::HasSizes,
        Membership::Bits => Question::HasBits,
    }
}

fn comparand_question(comparison: Comparison) -> Question
    ensures { result ≡ by.comparand_question (comparison_view comparison) }
{
    match comparison {
        Comparison::Equal | Comparison::Different => Question::IsLiteral,
        Comparison::Less | Comparison::AtMost => Question::IsNumber,
        Comparison::Greater | Comparison::AtLeast => Question::IsNumber,
    }
}

fn end<'t>(tree: &Tree<'_>, end: &'t Type2) -> NodePart<'t>
    ensures { wanted (token_of tree.now) result ≡ by.end_of (view_type2 (token_of tree.now) end.now) }
{
    operand(tree, end, Question::IsWhole)
}

fn operand<'t>(tree: &Tree<'_>, operand: &'t Type2, question: Question) -> NodePart<'t>
    ensures { wanted (token_of tree.now) result ≡ by.operand_wanted (view_type2 (token_of tree.now) operand.now) question }
{
    NodePart {
        at: start_of(tree, operand),
        question,
        node: Node::Operand(operand),
    }
}

// The offset of the first token of an operand.
fn start_of(tree: &Tree<'_>, operand: &Type2) -> usize
    ensures { result ≡ operand_at (view_type2 (token_of tree.now) operand.now) }
{
    operand.start(tree)
}

// What is asked of an entry.
pub(crate) fn entry_part<'t>(tree: &Tree<'_>, entry: TextEntry<'t>) -> NodePart<'t>
    ensures { wanted (token_of tree.now) result ≡ entry_wanted entry.entry.holder (view_node (token_of tree.now) entry.entry.node) }
{
    NodePart {
        at: node_start(tree, entry.node),
        question: Question::Entry(entry.holder),
        node: Node::Entry(entry.node),
    }
}

// The offset of an entry's first token.
fn node_start(tree: &Tree<'_>, node: EntryNode<'_>) -> usize
    ensures { result ≡ entry_at (view_node (token_of tree.now) node.entry) }
{
    match node {
        EntryNode::Entry(entry) => entry_start(tree, entry),
        EntryNode::Type(types) => types_start(tree, types),
    }
}

fn entry_start(tree: &Tree<'_>, entry: &GrpEnt) -> usize
    ensures { result ≡ entry_at (view_grpent (token_of tree.now) entry.now) }
{
    entry.start(tree)
}

fn types_start(tree: &Tree<'_>, types: &Types) -> usize
    ensures { result ≡ entry_at (typed None (view_types (token_of tree.now) types.now)) }
{
    types.start(tree)
}

// The row of the node.
pub(crate) fn read_node<'s>(
    terms: &mut Terms<'s>,
    tree: &Tree<'s>,
    node: Node<'_>,
) -> Result<u32, NoRoom>
    ensures grows { Grows terms.old terms.new }
    ensures stands { IfOk result (λ n. Holds terms.new (Some n) (node_tree (token_of tree.now) node.entry)) }
{
    match node {
        Node::Group(group) => read_group(terms, tree, group),
        Node::Reference(name) => read_reference(terms, tree, name),
        Node::Operand(operand) => read_operand(terms, tree, operand),
        Node::Operation {
            left,
            operator,
            right,
        } => read_operation(terms, tree, left, &operator, right),
        Node::Entry(entry) => read_text_entry(terms, tree, entry),
    }
}

// The row of an entry.
fn read_text_entry<'s>(
    terms: &mut Terms<'s>,
    tree: &Tree<'s>,
    node: EntryNode<'_>,
) -> Result<u32, NoRoom>
    ensures grows { Grows terms.old terms.new }
    ensures entry { IfOk result (λ n. IsEntry terms.new n (entry_of (view_node (token_of tree.now) node.entry))) }
{
    match node {
        EntryNode::Entry(entry) => read_entry(terms, tree, entry),
        EntryNode::Type(types) => read_type_entry(terms, tree, types),
    }
}
