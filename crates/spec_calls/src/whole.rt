//! A specification that is checked, and its table, as a program makes them of a text.

ghost use Rattle.std.specs.Prelude.{ℕ, List};
ghost use Rattle.cddl_tree.specs.States.{EndsInEnd};
ghost use Rattle.cddl_check.specs.Text.{AreTokensOf};

use call_lines::{bytes, first, push_no_memory};
use cddl_check::{Refusal, Spec, check, trees_are_of_tokens};
use cddl_table::{Node, Table, TypeId, compile};
use cddl_token::{Token, tokens};
use cddl_tree::{parse, tokens_end};
use std::alloc::{AllocError, Global};

// How many types are gone through, each of which says what another says.
const MOST_NAMES: usize = 64;

// The name of the root, or `-`, and the text: what is reported for its specification, of its table or of the ranks in this, or why it
// is refused.
pub(crate) fn push_whole(
    alloc: Global,
    room: &str,
    words: &str,
    out: &mut String,
) -> Result<(), AllocError> {
    let (root, words) = first(words);
    let root = if root == "-" { None } else { Some(root) };
    let source = bytes(alloc, words)?;
    match told_of(alloc, &source, root, room) {
        Ok(told) => out.push_str(told.as_str()),
        Err(Refusal::At(code, at)) => out.push_str(format!(in alloc; "{code} at {at}")?.as_str()),
        Err(Refusal::Memory) => push_no_memory(out),
    }
}

fn told_of(
    alloc: Global,
    source: &[u8],
    root: Option<&str>,
    room: &str,
) -> Result<String, Refusal> {
    tokens_end();
    let found = tokens(alloc, source)?;
    told_of_tokens(alloc, &found, root, room)
}

fn told_of_tokens(
    alloc: Global,
    found: &[Token<'_>],
    root: Option<&str>,
    room: &str,
) -> Result<String, Refusal>
    requires ends { EndsInEnd found.now }
    requires read { (text : List ℕ) × AreTokensOf found.now text }
{
    trees_are_of_tokens();
    let tree = parse(alloc, found)?;
    let spec = check(alloc, tree, root)?;
    let told = match room {
        "spec" => shown_spec(alloc, &spec)?,
        "ranks" => shown_ranks(alloc, &compile(alloc, &spec)?)?,
        _ => shown_table(alloc, &compile(alloc, &spec)?)?,
    };
    Ok(told)
}

// The root, and how many rules there are.
fn shown_spec(alloc: Global, spec: &Spec<'_>) -> Result<String, AllocError> {
    let root = spec.root();
    let rules = spec.tree().rules.len();
    format!(in alloc; "root {root}, rules {rules}")
}

// The greatest rank.
fn shown_ranks(alloc: Global, table: &Table) -> Result<String, AllocError> {
    let ranks = table.ranks();
    format!(in alloc; "{ranks}")
}

// What the root is, and of how many parts.
fn shown_table(alloc: Global, table: &Table) -> Result<String, AllocError> {
    match root_node(table) {
        Some(Node::Choice(types)) => shown(alloc, "choice", types.len()),
        Some(Node::MapOf(alternatives)) => shown(alloc, "map", alternatives.len()),
        Some(Node::ArrayOf(_)) => shown(alloc, "array", 1),
        Some(Node::Plain(_)) => shown(alloc, "test", 1),
        _ => shown(alloc, "other", 1),
    }
}

fn shown(alloc: Global, word: &str, count: usize) -> Result<String, AllocError> {
    format!(in alloc; "{word} of {count}")
}

// What the root says, where it says what another type does, or has one choice.
fn root_node(table: &Table) -> Option<&Node> {
    let mut id = table.root();
    for _ in 0..MOST_NAMES {
        let node = table.node(id);
        match node.and_then(only_type) {
            Some(only) => id = only,
            None => return node,
        }
    }
    None
}

// The one type that says what this one does.
fn only_type(node: &Node) -> Option<TypeId> {
    match node {
        Node::Ref(id) => Some(*id),
        Node::Choice(types) if types.len() == 1 => types.first().copied(),
        _ => None,
    }
}
