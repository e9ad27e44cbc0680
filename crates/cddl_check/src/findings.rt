//! What was found of a specification in which nothing is wrong.

ghost use Rattle.std.specs.Prelude.{◌≡◌, IfErr, IfOk, option_map};
ghost use Rattle.cddl_language.specs.Literals.{AreTokens};
ghost use Rattle.cddl_language.specs.Terms.{Text};
ghost use Rattle.tree_nodes.specs.View.{view};
ghost use Rattle.cddl_check.specs.Outcome.{IsChecked, IsFaulty};
ghost use Rattle.cddl_check.specs.Spec.{IsSpec};
ghost use Rattle.cddl_check.specs.Told.{refusal_of};

use crate::closing::Meant;
use crate::faults::ranks_of;
use crate::reading::{Reading, read_tree};
use crate::splicing::Splices;
use crate::stopped::Stopped;
use cddl_language::one_table_of_values;
use check_names::kinds::Kinds;
use check_reading::survey::Survey;
use check_recursion::Ranks;
use check_terms::Terms;
use check_text::laws::root_is_type;
use std::alloc::Global;
use tree_nodes::Tree;

/// What was found of a specification in which nothing is wrong, by the numbers of one table of terms. A table that a matcher
/// runs is made of it.
#[derive(Drop)]
pub struct Findings<'s> {
    /// The terms of the specification, each with its number.
    pub terms: Terms<'s>,
    /// The number of the root's name.
    pub root: u32,
    /// Which names are groups'.
    pub kinds: Kinds,
    /// What the instances mean.
    pub meant: Meant,
    /// What groups in maps stand for.
    pub splices: Splices,
    /// Ranks of what the instances ask, which go down.
    pub ranks: Ranks,
}

// What is found of the specification of this tree, if nothing is wrong with it; or its first fault.
pub(crate) fn findings_of<'s>(
    alloc: Global,
    tree: &Tree<'s>,
    given: Option<&str>,
) -> Result<Findings<'s>, Stopped>
    requires { AreTokens (view tree.now) }
    ensures found { IfOk result (λ x. (root : Text) × IsChecked (view tree.now) (option_map (λ t. t.now) given.entry) root × IsSpec tree.now root x) }
    ensures faulty { IfErr result (λ e. IsFaulty (view tree.now) (option_map (λ t. t.now) given.entry) (refusal_of e)) }
{
    one_table_of_values();
    root_is_type();
    let mut terms = Terms::new(alloc);
    let reading = read_tree(alloc, &mut terms, tree, given)?;
    let ranks = ranks_of(alloc, &terms, &reading)?;
    Ok(kept(terms, reading, ranks))
}

// What is kept of a reading.
fn kept<'s>(terms: Terms<'s>, reading: Reading, ranks: Ranks) -> Findings<'s>
    ensures { result ≡ record { terms = terms.entry; root = reading.instanced.root; kinds = reading.survey.kinds; meant = reading.meant; splices = reading.splices; ranks = ranks } }
{
    let Reading {
        survey,
        instanced,
        meant,
        splices,
        ..
    } = reading;
    let Survey { kinds, .. } = survey;
    Findings {
        terms,
        root: instanced.root,
        kinds,
        meant,
        splices,
        ranks,
    }
}
