//! The words at sites, in the order of these.

ghost use Rattle.std.specs.Prelude.{◌≡◌, ◌++◌, ◌∷◌, [], ℕ, IfOk, List, OnOk, map, option_map};
ghost use Rattle.cddl_language.specs.Sites.{Site as Sites, ref_name};
ghost use Rattle.check_reading.specs.Words.{AreWords, control_said, hash_said, name_said, occur_said, occurrence_said, operator_said, said_at, spelled_said};
ghost use Rattle.check_sites.specs.Sites.View.{view_found, view_site};
ghost use Rattle.check_terms.specs.Table.{Grows};
ghost use Rattle.tree_nodes.specs.View.{leaf, token_of, view_operator, view_ref};

use crate::words::word::{Role, Word};
use check_sites::sites::{Found, Site, argument_count, name_token, occur};
use check_terms::laws::growing_keeps;
use check_terms::{NoRoom, Terms, control_name, opened_name, push};
use std::alloc::Global;
use tree_nodes::{Leaf, Operator, Ref, Tree};

// The words at these sites, in their order.
pub(crate) fn site_words<'s>(
    alloc: Global,
    terms: &mut Terms<'s>,
    tree: &Tree<'s>,
    sites: &[Found<'_>],
) -> Result<Vec<Word>, NoRoom>
    ensures grows { Grows terms.old terms.new }
    ensures words { IfOk result (λ v. AreWords terms.new v.items (map (view_found (token_of tree.now)) sites.now)) }
{
    growing_keeps();
    let mut words = Vec::new(alloc);
    for site in sites {
        let spelled = spelled_at(tree, site.site);
        add_some(terms, site.rule, spelled, &mut words)?;
    }
    Ok(words)
}

/// A word as the tree has it.
#[derive(Clone, Copy)]
pub(crate) struct Spelled<'s> {
    pub(crate) at: usize,
    pub(crate) role: Role,
    pub(crate) text: &'s str,
    pub(crate) arguments: usize,
}

// The word at a site, if it has one.
fn spelled_at<'s>(tree: &Tree<'s>, site: Site<'_>) -> Option<Spelled<'s>>
    ensures { option_map spelled_said result ≡ said_at (view_site (token_of tree.now) site.entry) }
{
    match site {
        Site::Name { demanded, name } => Some(name_at(tree, name, Role::Name { demanded })),
        Site::Unwrapping {
            demanded,
            tilde,
            name,
        } => {
            let tilde = tree.token(tilde).start;
            Some(name_at(tree, name, Role::Unwrapped { demanded, tilde }))
        }
        Site::ChoiceOfName { name, .. } => Some(name_at(tree, name, Role::ChosenFrom)),
        Site::Hash(leaf) => Some(hash_at(tree, leaf)),
        Site::Operation { operator, .. } => control_at(tree, operator),
        Site::Entry(entry) => occurrence_at(tree, occur(entry)),
        _ => None,
    }
}

// The name of a reference, which is used so.
fn name_at<'s>(tree: &Tree<'s>, name: &Ref, role: Role) -> Spelled<'s>
    ensures { spelled_said result ≡ name_said role (view_ref (token_of tree.now) name.now) }
{
    Spelled {
        at: name_token(tree, name).start,
        role,
        text: name_text(tree, name),
        arguments: argument_count(name),
    }
}

// The text of the name of a reference.
fn name_text<'s>(tree: &Tree<'s>, name: &Ref) -> &'s str
    ensures { result.now ≡ ref_name (view_ref (token_of tree.now) name.now) }
{
    match name {
        Ref::Name(token) => tree.token(*token).text,
        Ref::Applied { opening, .. } => opened_name(tree.token(*opening).text),
    }
}

fn hash_at<'s>(tree: &Tree<'s>, leaf: Leaf) -> Spelled<'s>
    ensures { spelled_said result ≡ hash_said (token_of tree.now leaf) }
{
    let token = tree.token(leaf);
    Spelled {
        at: token.start,
        role: Role::Hash,
        text: token.text,
        arguments: 0,
    }
}

// The name of a control, if the operator is one.
fn control_at<'s>(tree: &Tree<'s>, operator: Operator) -> Option<Spelled<'s>>
    ensures { option_map spelled_said result ≡ operator_said (view_operator (token_of tree.now) operator) }
{
    match operator {
        Operator::Control(leaf) => Some(control_of(tree, leaf)),
        Operator::Range(_) | Operator::RangeBelow(_) => None,
    }
}

fn control_of<'s>(tree: &Tree<'s>, leaf: Leaf) -> Spelled<'s>
    ensures { spelled_said result ≡ control_said (token_of tree.now leaf) }
{
    let token = tree.token(leaf);
    Spelled {
        at: token.start,
        role: Role::Control,
        text: control_name(token.text),
        arguments: 0,
    }
}

fn occurrence_at<'s>(tree: &Tree<'s>, occur: Option<Leaf>) -> Option<Spelled<'s>>
    ensures { option_map spelled_said result ≡ occur_said (leaf (token_of tree.now) occur) }
{
    match occur {
        Some(leaf) => Some(occurrence_of(tree, leaf)),
        None => None,
    }
}

fn occurrence_of<'s>(tree: &Tree<'s>, leaf: Leaf) -> Spelled<'s>
    ensures { spelled_said result ≡ occurrence_said (token_of tree.now leaf) }
{
    let token = tree.token(leaf);
    Spelled {
        at: token.start,
        role: Role::Occurrence,
        text: token.text,
        arguments: 0,
    }
}

// Adds the word, if there is one, in the rule at this index.
fn add_some<'s>(
    terms: &mut Terms<'s>,
    rule: usize,
    spelled: Option<Spelled<'s>>,
    words: &mut Vec<Word>,
) -> Result<(), NoRoom>
    ensures grows { Grows terms.old terms.new }
    ensures added { OnOk result ((ps : List (ℕ × Sites)) (p : Sites) → option_map spelled_said spelled.entry ≡ said_at p → AreWords terms.old words.old.items ps → AreWords terms.new words.new.items (ps ++ (rule, p) ∷ [])) }
{
    growing_keeps();
    let Some(spelled) = spelled else {
        return Ok(());
    };
    let text = terms.add_text(spelled.text)?;
    push(
        words,
        Word {
            rule,
            at: spelled.at,
            role: spelled.role,
            text,
            arguments: spelled.arguments,
        },
    )
}
