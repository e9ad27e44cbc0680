//! The list of a text's sites: their rules, kinds, offsets and numbers of arguments.

use check_sites::sites::{Found, Site, argument_count, is_range, name_token, occur, sites};
use std::alloc::{AllocError, Global};
use tree_nodes::Tree;

// A word for the kind of a site, the offset where it begins, and how many arguments its name has.
fn described(tree: &Tree<'_>, site: &Site<'_>) -> (&'static str, usize, usize) {
    match site {
        Site::Name { demanded, name } => {
            let word = if *demanded { "type" } else { "name" };
            (word, name_token(tree, name).start, argument_count(name))
        }
        Site::Unwrapping {
            demanded,
            tilde,
            name,
        } => {
            let word = if *demanded { "~type" } else { "~name" };
            (word, tree.token(*tilde).start, argument_count(name))
        }
        Site::ChoiceOf { ampersand, .. } => ("choice", tree.token(*ampersand).start, 0),
        Site::ChoiceOfName { ampersand, name } => {
            ("&name", tree.token(*ampersand).start, argument_count(name))
        }
        Site::Hash(token) => ("hash", tree.token(*token).start, 0),
        Site::Operation { left, operator, .. } => {
            let word = if is_range(*operator) {
                "range"
            } else {
                "control"
            };
            (word, left.start(tree), 0)
        }
        Site::Entry(entry) => {
            let word = if occur(entry).is_some() {
                "some"
            } else {
                "entry"
            };
            (word, entry.start(tree), 0)
        }
        Site::Map { opening, .. } => ("map", tree.token(*opening).start, 0),
    }
}

// A line for a site: the place of its rule, `*` in an argument, and what describes it.
fn line(alloc: Global, tree: &Tree<'_>, found: &Found<'_>) -> Result<String, AllocError> {
    let rule = found.rule;
    let inside = if found.in_argument { "*" } else { "" };
    let (word, start, arguments) = described(tree, &found.site);
    format!(in alloc; "{rule}{inside} {word} {start} {arguments}; ")
}

fn lines(alloc: Global, tree: &Tree<'_>, sites: &[Found<'_>]) -> Result<String, AllocError> {
    let mut lines = String::new(alloc);
    for found in sites {
        lines.push_str(line(alloc, tree, found)?.as_str())?;
    }
    Ok(lines)
}

// The lines of all sites, if there is memory.
pub(crate) fn listed(alloc: Global, tree: &Tree<'_>) -> Option<String> {
    match &sites(alloc, tree) {
        Ok(found) => lines(alloc, tree, found).ok(),
        Err(_) => None,
    }
}
