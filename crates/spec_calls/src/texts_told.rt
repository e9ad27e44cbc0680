//! What is reported for a text or of what its root leads to, by the name of what is asked.

ghost use Rattle.cddl_tree.specs.States.{EndsInEnd};

use crate::chain;
use crate::live::live_names;
use crate::reader::{are_alike, is_read_again};
use crate::sites::listed;
use crate::survey::kind_of;
use crate::text_faults::fault_in;
use cddl_token::{Token, tokens};
use cddl_tree::{parse, tokens_end};
use check_reading::survey::{Survey, survey_of};
use check_terms::Terms;
use std::alloc::Global;
use tree_nodes::{Tree, discard};

pub(crate) fn text_in(alloc: Global, text: &str) -> Option<String> {
    format!(in alloc; "{text} ").ok()
}

fn surveyed(alloc: Global, terms: &Terms<'_>, survey: &Survey, what: &str) -> Option<String> {
    if what == "live" {
        return live_names(alloc, survey);
    }
    match what.strip_prefix("kind:") {
        Some(name) => kind_of(alloc, terms, survey, name),
        None => fault_in(alloc, terms, survey, what),
    }
}

fn with_survey<'s>(
    alloc: Global,
    terms: &mut Terms<'s>,
    tree: &Tree<'s>,
    room: &str,
    what: &str,
) -> Option<String> {
    match &survey_of(alloc, terms, tree) {
        Ok(survey) => match room {
            "root" => chain::surveyed(alloc, terms, survey, what),
            _ => surveyed(alloc, terms, survey, what),
        },
        Err(_) => None,
    }
}

fn with_terms<'s>(
    alloc: Global,
    terms: &mut Terms<'s>,
    tree: &Tree<'s>,
    room: &str,
    what: &str,
) -> Option<String> {
    match what {
        "alike" => are_alike(alloc, terms, tree),
        "again" => is_read_again(alloc, terms, tree),
        _ => with_survey(alloc, terms, tree, room, what),
    }
}

// A table of terms is wide, so nothing else is done where it is made.
fn in_new_terms<'s>(alloc: Global, tree: &Tree<'s>, room: &str, what: &str) -> Option<String> {
    let mut terms = Terms::new(alloc);
    with_terms(alloc, &mut terms, tree, room, what)
}

fn in_tree(alloc: Global, tree: &Tree<'_>, room: &str, what: &str) -> Option<String> {
    match what {
        "sites" => listed(alloc, tree),
        _ => in_new_terms(alloc, tree, room, what),
    }
}

fn in_tokens(alloc: Global, found: &[Token<'_>], room: &str, what: &str) -> Option<String>
    requires { EndsInEnd found.now }
{
    match parse(alloc, found) {
        Ok(tree) => {
            let told = in_tree(alloc, &tree, room, what);
            discard(tree);
            told
        }
        Err(_) => None,
    }
}

// What is reported for the text, or in the room `root` of what its root leads to, by the name of what is asked, with a space after each
// word, if the text is read.
pub(crate) fn told_of(alloc: Global, source: &str, room: &str, what: &str) -> Option<String> {
    tokens_end();
    match tokens(alloc, source.as_bytes()) {
        Ok(found) => in_tokens(alloc, found.as_slice(), room, what),
        Err(_) => None,
    }
}
