//! A specification that was checked.

ghost use Rattle.std.specs.Prelude.{◌≡◌};
ghost use Rattle.cddl_language.specs.Terms.{Text};
ghost use Rattle.cddl_check.specs.Spec.{IsSpec};

use crate::findings::Findings;
use std::marker::Model;
use tree_nodes::Tree;

/// A specification in which nothing is wrong, with its root. Contracts see its tree and the name of its root.
#[derive(Drop)]
pub struct Spec<'s> {
    tree: Tree<'s>,
    root: &'s str,
    findings: Findings<'s>,
}

impl<'s> Model for Spec<'s> {
    ghost use Rattle.cddl_check.specs.Spec.{Checked, IsSpec, coded_checked};

    ghost Value = { Checked };

    ghost coded = { coded_checked };

    ghost view = { λ x. record { tree = x.tree; root = x.root.now } };

    ghost invariant = { λ x. IsSpec x.tree x.root.now x.findings };
}

impl<'s> Spec<'s> {
    // The specification of this tree, of which this was found.
    pub(crate) fn new(tree: Tree<'s>, findings: Findings<'s>) -> Spec<'s>
        requires { (root : Text) × IsSpec tree root findings }
        ensures tree { result.tree ≡ tree.entry }
        ensures root { (root : Text) → IsSpec tree.entry root findings.entry → result.root ≡ root }
    {
        let Some(root) = findings.terms.text(findings.root) else {
            unreachable!()
        };
        Spec {
            tree,
            root,
            findings,
        }
    }

    /// The tree, as it was given.
    pub fn tree(&self) -> &Tree<'s>
        ensures { result.now ≡ self.now.tree }
    {
        &self.tree
    }

    /// The name of the root: the one that was given, or that of the first rule.
    pub fn root(&self) -> &str
        ensures { result.now ≡ self.now.root }
    {
        self.root
    }

    /// What was found of it: for `cddl_table`, which makes a table of it.
    pub fn findings(&self) -> &Findings<'s>
        ensures { IsSpec self.now.tree self.now.root result.now }
    {
        &self.findings
    }
}
