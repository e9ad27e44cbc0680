//! Prints the trees of the specifications on standard input: what `tests/run_grammar.py` reads.
//!
//! A zero byte is after each text; the last needs none. Each text has one line: `tree: ` and the sketch of its
//! tree, which `tests/run_grammar.py` explains, or why it has none. A token is in a sketch as
//! `{Node Kind start end "text"}`, without the node where it is not all of one.
//!
//! Where the input begins with the byte 0xFF, which is in no text, all the rest is one text, and its line says how many tokens
//! and rules it has, or why it has no tree: what `make bench` measures.
#![tactic(auto)]

ghost use Rattle.cddl_tree.specs.States.{EndsInEnd};

mod nodes;
mod sketch;

use crate::sketch::{Piece, Sketch};
use cddl_token::{Refusal, Token, tokens};
use cddl_tree::{parse, tokens_end};
use std::alloc::Global;
use std::io;
use std::io::Read;
use tree_nodes::{Tree, discard};

// A text without the zero byte after it.
fn without_end(text: &[u8]) -> &[u8] {
    match text.split_last() {
        Some((0, front)) => front,
        _ => text,
    }
}

// Prints the line of a text.
fn print_line(rt: &HostRuntime, text: &[u8]) -> io::Result<()> {
    tokens_end();
    match tokens(rt.alloc(), text) {
        Ok(found) => print_answer(rt, found.as_slice()),
        Err(refusal) => print_refusal(rt, refusal),
    }
}

fn print_answer<'s>(rt: &HostRuntime, found: &'s [Token<'s>]) -> io::Result<()>
    requires { EndsInEnd found.now }
{
    match parse(rt.alloc(), found) {
        Ok(tree) => {
            let printed = print_tree(rt, &tree);
            discard(tree);
            printed
        }
        Err(refusal) => print_refusal(rt, refusal),
    }
}

fn print_refusal(rt: &HostRuntime, refusal: Refusal) -> io::Result<()> {
    println!(rt; "{refusal}")
}

fn print_tree(rt: &HostRuntime, tree: &Tree<'_>) -> io::Result<()> {
    let mut sketch = Sketch::of(rt.alloc(), tree);
    print_sketch(rt, tree, &mut sketch)?;
    print_token(rt, "", tree.end)?;
    println!(rt; "")
}

fn print_sketch(rt: &HostRuntime, tree: &Tree<'_>, sketch: &mut Sketch<'_>) -> io::Result<()> {
    for _ in 0..u64::MAX {
        match sketch.next() {
            None => break,
            Some(piece) => print_piece(rt, tree, sketch, piece)?,
        }
    }
    sketch.memory()?;
    Ok(())
}

// Prints a word or a token, or opens a node.
fn print_piece<'t>(
    rt: &HostRuntime,
    tree: &Tree<'_>,
    sketch: &mut Sketch<'t>,
    piece: Piece<'t>,
) -> io::Result<()> {
    match piece {
        Piece::Word(word) => print!(rt; "{word}")?,
        Piece::Leaf(node, leaf) => print_token(rt, node, tree.token(leaf))?,
        Piece::Type2(type2) => sketch.open_type2(type2),
        Piece::Group(group) => sketch.open_group(group),
    }
    Ok(())
}

fn print_token(rt: &HostRuntime, node: &str, token: &Token<'_>) -> io::Result<()> {
    let kind = token.kind;
    let start = token.start;
    let end = token.end;
    let text = token.text;
    print!(rt; "{{{node} {kind:?} {start} {end} {text:?}}}")?;
    Ok(())
}

// How many tokens and rules a text has.
fn counts(alloc: Global, text: &[u8]) -> Result<(usize, usize), Refusal> {
    tokens_end();
    let found = tokens(alloc, text)?;
    let tree = parse(alloc, found.as_slice())?;
    let rules = tree.rules.len();
    discard(tree);
    Ok((found.len(), rules))
}

fn print_counts(rt: &HostRuntime, text: &[u8]) -> io::Result<()> {
    match counts(rt.alloc(), text) {
        Ok((tokens, rules)) => println!(rt; "tokens: {tokens}, rules: {rules}"),
        Err(refusal) => print_refusal(rt, refusal),
    }
}

fn print_lines(rt: &HostRuntime, texts: &[u8]) -> io::Result<()> {
    for text in texts.split_inclusive(|byte| *byte == 0) {
        print_line(rt, without_end(text))?;
    }
    Ok(())
}

fn print_all(rt: &HostRuntime, input: &[u8]) -> io::Result<()> {
    match input.split_first() {
        Some((0xff, text)) => print_counts(rt, text),
        _ => print_lines(rt, input),
    }
}

fn main(rt: HostRuntime) -> anyhow::Result<()> {
    let mut source = Vec::new(rt.alloc());
    rt.stdin().read_to_end(&mut source)?;
    print_all(&rt, source.as_slice())?;
    Ok(())
}
