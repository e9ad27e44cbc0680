//! The faults of a text, and of a tree.

ghost use Rattle.std.specs.Prelude.{◌≡◌, ℕ, IfOk, List, map, option_map, All};
ghost use Rattle.cddl_check.specs.Outcome.{specification};
ghost use Rattle.cddl_check.specs.Text.{AreTokensOf};
ghost use Rattle.cddl_language.specs.Faults.{IsFaultAt, Specification};
ghost use Rattle.cddl_language.specs.Literals.{AreRight, AreTokens, Values};
ghost use Rattle.cddl_token.specs.Answers.{span, IsReadFrom, IsTokenized};
ghost use Rattle.cddl_tree.specs.States.{EndsInEnd};
ghost use Rattle.check_faults.specs.Listed.{AreListed, AreOfRoot, AreOfSpecification};
ghost use Rattle.check_faults.specs.Text.{AreTextFaults};
ghost use Rattle.check_text.specs.Codes.{text_codes};
ghost use Rattle.tree_nodes.specs.View.{view};

use crate::listing::{Listed, list_of, list_of_reached};
use cddl_check::{root_faults, trees_are_of_tokens};
use cddl_token::{Refusal, Token, tokens};
use cddl_tree::{discard, parse, tokens_end};
use check_reading::survey::survey_of;
use check_terms::Terms;
use std::alloc::{AllocError, Global};
use tree_nodes::Tree;

/// The faults of a text whose tokens have a tree, code by code: those that stand in the whole text, whatever its root reaches
/// (C1 to C9), and then, where none of C1 to C10 stands, those of what its root reaches (C11 to C18). Of each code at most so
/// many are reported, and how many there are besides. The root is the given name, or that of the first rule. Of any other text the
/// list is empty: such a text has one fault alone.
///
/// It takes a time of n log n for a text of n bytes, and for what its root reaches the time and the memory of
/// [`cddl_check::check`].
///
/// # Errors
///
/// `AllocError` where an allocation was refused, or each number of 32 bits was taken.
pub fn text_faults(
    alloc: Global,
    text: &[u8],
    root: Option<&str>,
    most: usize,
) -> Result<Vec<Listed>, AllocError>
    ensures { IfOk result (λ v. AreTextFaults text.now (option_map (λ t. t.now) root.entry) most v.items) }
{
    tokens_end();
    match tokens(alloc, text) {
        Ok(found) => of_tokens(alloc, &found, root, most),
        Err(Refusal::At(_, _)) => Ok(Vec::new(alloc)),
        Err(Refusal::Memory) => Err(AllocError),
    }
}

// The faults of the specification that the tokens are.
fn of_tokens(
    alloc: Global,
    tokens: &[Token<'_>],
    root: Option<&str>,
    most: usize,
) -> Result<Vec<Listed>, AllocError>
    requires ends { EndsInEnd tokens.now }
    // They are the tokens of a text.
    requires of_text { (text : List ℕ) × AreTokensOf tokens.now text }
    ensures { IfOk result (λ v. (text : List ℕ) → AreTokensOf tokens.now text → AreTextFaults text (option_map (λ t. t.now) root.entry) most v.items) }
{
    trees_are_of_tokens();
    match parse(alloc, tokens) {
        Ok(tree) => {
            let found = all_faults(alloc, &tree, root, most);
            discard(tree);
            found
        }
        Err(Refusal::At(_, _)) => Ok(Vec::new(alloc)),
        Err(Refusal::Memory) => Err(AllocError),
    }
}

/// The same of a tree of tokens, as `cddl_tree` makes it.
///
/// # Errors
///
/// `AllocError` where an allocation was refused, or each number of 32 bits was taken.
pub fn all_faults(
    alloc: Global,
    tree: &Tree<'_>,
    root: Option<&str>,
    most: usize,
) -> Result<Vec<Listed>, AllocError>
    requires { AreTokens (view tree.now) }
    ensures { IfOk result (λ v. AreOfSpecification (view tree.now) (option_map (λ t. t.now) root.entry) most v.items) }
{
    let mut all = tree_faults(alloc, tree, root, most)?;
    let mut further = reached_faults(alloc, tree, root, most)?;
    all.append(&mut further)?;
    Ok(all)
}

/// Those of the whole text alone, C1 to C9, of any tree.
///
/// # Errors
///
/// `AllocError` where an allocation was refused, or each number of 32 bits was taken.
pub fn tree_faults(
    alloc: Global,
    tree: &Tree<'_>,
    root: Option<&str>,
    most: usize,
) -> Result<Vec<Listed>, AllocError>
    ensures { IfOk result (λ v. (s : Specification) (worth : Values) → s.tree ≡ view tree.now → s.given ≡ option_map (λ t. t.now) root.entry → AreListed (IsFaultAt s worth) most text_codes v.items) }
{
    let mut terms = Terms::new(alloc);
    let Ok(survey) = survey_of(alloc, &mut terms, tree) else {
        return Err(AllocError);
    };
    list_of(alloc, &terms, &survey, root, most)
}

// Those of what the root reaches.
fn reached_faults(
    alloc: Global,
    tree: &Tree<'_>,
    root: Option<&str>,
    most: usize,
) -> Result<Vec<Listed>, AllocError>
    requires { AreTokens (view tree.now) }
    ensures { IfOk result (λ v. (worth : Values) → AreRight (view tree.now) worth → AreOfRoot (specification (view tree.now) (option_map (λ t. t.now) root.entry)) worth most v.items) }
{
    match root_faults(alloc, tree, root)? {
        Some(found) => list_of_reached(alloc, found, most),
        None => Ok(Vec::new(alloc)),
    }
}
