//! Where parts of a text begin and end.

ghost use Rattle.std.specs.Prelude.{◌≡◌, [], ◌∷◌, IfSome};
ghost use Rattle.cddl_language.specs.Reading.{name_token, rule_head, rule_name as name_of_rule};
ghost use Rattle.cddl_token.specs.declared.Kind.TheVariants.{Name};
ghost use Rattle.tree_nodes.specs.Syntax.Syntax as S;
ghost use Rattle.tree_nodes.specs.View.{token_of, view_grpent, view_key, view_name, view_ref, view_rule, view_type1, view_type2, view_types, view_value};
ghost use Rattle.tree_nodes.specs.declared.tree.Tree.{Tree as TreeOf};
ghost use Rattle.source_pieces.specs.Pieces.{bare_type1, bare_type2, bare_types, key_piece, tokens_of_inner, tokens_of_piece};
ghost use Rattle.source_pieces.specs.Spans.{EndsAt, IsNameSpan, IsSpan, body_tokens};
ghost use Rattle.source_pieces.specs.Walk.{view_inner, view_node};

use crate::bare::{bare_types, type1_inside, type2_inside};
use crate::node::{InnerNode, Node};
use check_terms::opened_name;
use tree_nodes::{GrpEnt, Leaf, MemberKey, Ref, Rule, RuleName, Tree, Type1, Type2, Types, Value};

/// A part of a text: from the offset of its first byte to the offset after its last.
#[derive(Clone, Copy, Debug, PartialEq, Eq)]
pub struct Span {
    /// The offset of the first byte.
    pub first: usize,
    /// The offset after the last byte.
    pub end: usize,
}

// Where a type, or a word that is a key, stands.
pub(crate) fn node_span(tree: &Tree<'_>, node: Node<'_>) -> Span
    ensures { IsSpan (tokens_of_piece (view_node (token_of tree.now) node.entry)) result }
{
    match node {
        Node::Choice(types) => bare_span(tree, types),
        Node::Operation(type1) => type1_span(tree, type1),
        Node::Operand(type2) => type2_span(tree, type2),
        Node::Literal(value) => literal_span(tree, value),
        Node::Word(leaf) => word_span(tree, leaf),
        Node::Key(_, key) => key_span(tree, key),
        Node::Value(_, _, types) => bare_span(tree, types),
        Node::Member(_, types) => bare_span(tree, types),
        Node::Entry(node) => inner_span(tree, node.inner),
    }
}

// Where a type of each kind stands, without the parentheses round all of it.

fn bare_span(tree: &Tree<'_>, types: &Types) -> Span
    ensures { IsSpan (S.flat_types (bare_types (view_types (token_of tree.now) types.now))) result }
{
    types_span(tree, bare_types(types))
}

fn type1_span(tree: &Tree<'_>, type1: &Type1) -> Span
    ensures { IsSpan (S.flat_types (bare_type1 (view_type1 (token_of tree.now) type1.now))) result }
{
    match type1_inside(type1) {
        Some(types) => types_span(tree, types),
        None => Span {
            first: type1.start(tree),
            end: type1_end(tree, type1),
        },
    }
}

fn type2_span(tree: &Tree<'_>, type2: &Type2) -> Span
    ensures { IsSpan (S.flat_types (bare_type2 (view_type2 (token_of tree.now) type2.now))) result }
{
    match type2_inside(type2) {
        Some(types) => types_span(tree, types),
        None => Span {
            first: type2.start(tree),
            end: type2_end(tree, type2),
        },
    }
}

// Where the key of an entry stands, without what joins it to the value.
fn key_span(tree: &Tree<'_>, key: &MemberKey) -> Span
    ensures { IsSpan (tokens_of_piece (key_piece (view_key (token_of tree.now) key.now))) result }
{
    match key {
        MemberKey::TypeKey { type1, .. } => type1_span(tree, type1),
        MemberKey::Bareword { name, .. } => word_span(tree, *name),
        MemberKey::ValueKey { value, .. } => literal_span(tree, *value),
    }
}

fn literal_span(tree: &Tree<'_>, value: Value) -> Span
    ensures { IsSpan (S.flat_value (view_value (token_of tree.now) value) ∷ []) result }
{
    Span {
        first: value.start(tree),
        end: value_end(tree, &value),
    }
}

// Where the type of an entry stands, or its group in parentheses.
fn inner_span(tree: &Tree<'_>, inner: InnerNode<'_>) -> Span
    ensures { IsSpan (tokens_of_inner (view_inner (token_of tree.now) inner.entry)) result }
{
    match inner {
        InnerNode::Types(types) => bare_span(tree, types),
        InnerNode::Group(opening, _, closing) => brackets_span(tree, opening, closing),
    }
}

// From one bracket to the other.
pub(crate) fn brackets_span(tree: &Tree<'_>, opening: Leaf, closing: Leaf) -> Span
    ensures first { result.first ≡ (token_of tree.now opening).start }
    ensures end { result.end ≡ (token_of tree.now closing).end }
{
    Span {
        first: tree.token(opening).start,
        end: end_of(tree, closing),
    }
}

fn word_span(tree: &Tree<'_>, leaf: Leaf) -> Span
    ensures { IsSpan ((Name, token_of tree.now leaf) ∷ []) result }
{
    Span {
        first: tree.token(leaf).start,
        end: word_end(tree, leaf),
    }
}

fn word_end(tree: &Tree<'_>, leaf: Leaf) -> usize
    ensures { EndsAt ((Name, token_of tree.now leaf) ∷ []) result }
{
    end_of(tree, leaf)
}

// Where the body of a rule stands, a type without the parentheses round all of it.
pub(crate) fn body_span(tree: &Tree<'_>, rule: &Rule) -> Span
    ensures { IsSpan (body_tokens (view_rule (token_of tree.now) rule.now)) result }
{
    match rule {
        Rule::TypeRule { types, .. } => bare_span(tree, types),
        Rule::GroupRule { grpent, .. } => Span {
            first: grpent.start(tree),
            end: entry_end(tree, grpent),
        },
    }
}

fn types_span(tree: &Tree<'_>, types: &Types) -> Span
    ensures { IsSpan (S.flat_types (view_types (token_of tree.now) types.now)) result }
{
    Span {
        first: types.start(tree),
        end: types_end(tree, types),
    }
}

// Where a rule has its name; nothing where an offset would not fit.
pub(crate) fn name_span(tree: &Tree<'_>, rule: &Rule) -> Option<Span>
    ensures { IfSome result (λ s. IsNameSpan (view_rule (token_of tree.now) rule.now) s) }
{
    let name = head_of(rule);
    let first = name_start(tree, name);
    match first.checked_add(rule_name(tree, name).len()) {
        Some(end) => Some(Span { first, end }),
        None => None,
    }
}

// The name of a rule with its parameters.
pub(crate) fn head_of(rule: &Rule) -> &RuleName
    ensures { (t : TreeOf) → view_name (token_of t) result.now ≡ rule_head (view_rule (token_of t) rule.now) }
{
    match rule {
        Rule::TypeRule { name, .. } => name,
        Rule::GroupRule { name, .. } => name,
    }
}

fn name_start(tree: &Tree<'_>, name: &RuleName) -> usize
    ensures { result ≡ (name_token (view_name (token_of tree.now) name.now)).start }
{
    match name {
        RuleName::Plain(leaf) => tree.token(*leaf).start,
        RuleName::Generic { opening, .. } => tree.token(*opening).start,
    }
}

// The name itself.
pub(crate) fn rule_name<'s>(tree: &Tree<'s>, name: &RuleName) -> &'s str
    ensures { result.now ≡ name_of_rule (view_name (token_of tree.now) name.now) }
{
    match name {
        RuleName::Plain(leaf) => tree.token(*leaf).text,
        RuleName::Generic { opening, .. } => opened_name(tree.token(*opening).text),
    }
}

// The offset after the last token of a node of each kind.

fn end_of(tree: &Tree<'_>, leaf: Leaf) -> usize
    ensures { result ≡ (token_of tree.now leaf).end }
{
    tree.token(leaf).end
}

fn types_end(tree: &Tree<'_>, types: &Types) -> usize
    ensures { EndsAt (S.flat_types (view_types (token_of tree.now) types.now)) result }
{
    let Types { first, others } = types;
    match others.last() {
        Some(further) => type1_end(tree, &further.type1),
        None => type1_end(tree, first),
    }
}

fn type1_end(tree: &Tree<'_>, type1: &Type1) -> usize
    ensures { EndsAt (S.flat_type1 (view_type1 (token_of tree.now) type1.now)) result }
{
    match type1 {
        Type1::One(operand) => type2_end(tree, operand),
        Type1::Operation { right, .. } => type2_end(tree, right),
    }
}

fn type2_end(tree: &Tree<'_>, type2: &Type2) -> usize
    ensures { EndsAt (S.flat_type2 (view_type2 (token_of tree.now) type2.now)) result }
{
    match type2 {
        Type2::Literal(value) => value_end(tree, value),
        Type2::Typename(name) => ref_end(tree, name),
        Type2::Parens { closing, .. } => end_of(tree, *closing),
        Type2::MapOf { closing, .. } => end_of(tree, *closing),
        Type2::ArrayOf { closing, .. } => end_of(tree, *closing),
        Type2::Unwrapped { name, .. } => ref_end(tree, name),
        Type2::ChoiceOf { closing, .. } => end_of(tree, *closing),
        Type2::ChoiceOfName { name, .. } => ref_end(tree, name),
        Type2::Tagged { closing, .. } => end_of(tree, *closing),
        Type2::TaggedBy { closing, .. } => end_of(tree, *closing),
        Type2::SimpleBy { closing, .. } => end_of(tree, *closing),
        Type2::Hash(token) => end_of(tree, *token),
    }
}

fn value_end(tree: &Tree<'_>, value: &Value) -> usize
    ensures { EndsAt (S.flat_value (view_value (token_of tree.now) value.now) ∷ []) result }
{
    match value {
        Value::Number(token) => end_of(tree, *token),
        Value::Text(token) => end_of(tree, *token),
        Value::Bytes(token) => end_of(tree, *token),
    }
}

fn ref_end(tree: &Tree<'_>, name: &Ref) -> usize
    ensures { EndsAt (S.flat_ref (view_ref (token_of tree.now) name.now)) result }
{
    match name {
        Ref::Name(token) => end_of(tree, *token),
        Ref::Applied { closing, .. } => end_of(tree, *closing),
    }
}

fn entry_end(tree: &Tree<'_>, entry: &GrpEnt) -> usize
    ensures { EndsAt (S.flat_entry (view_grpent (token_of tree.now) entry.now)) result }
{
    match entry {
        GrpEnt::Typed { types, .. } => types_end(tree, types),
        GrpEnt::Keyed { types, .. } => types_end(tree, types),
        GrpEnt::Grouped { closing, .. } => end_of(tree, *closing),
    }
}
