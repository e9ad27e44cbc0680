//! Checks the tree of a specification.

ghost use Rattle.std.specs.Prelude.{◌≡◌, IfErr, IfOk, option_map};
ghost use Rattle.cddl_language.specs.Literals.{AreTokens};
ghost use Rattle.tree_nodes.specs.View.{view};
ghost use Rattle.cddl_check.specs.Outcome.{IsChecked, IsFaulty};

use crate::findings::findings_of;
use crate::spec::Spec;
use crate::stopped::refusal_of;
use cddl_token::Refusal;
use std::alloc::Global;
use tree_nodes::{Tree, discard};

/// The specification of this tree, if nothing is wrong with it (RFC 8610). Its root is the given name, or that of the first
/// rule. A refusal drops the tree.
///
/// The time and the memory are those of the stages together: n log n for a text of n bytes until the instances are known, of
/// which there may be 4,096; then in proportion to the rows of these. Nothing recurses.
///
/// # Errors
///
/// [`Refusal::At`] with the lowest code that stands anywhere, and its least offset in the text. [`Refusal::Memory`] where memory
/// was refused, or each number of 32 bits was taken.
pub fn check<'s>(alloc: Global, tree: Tree<'s>, root: Option<&str>) -> Result<Spec<'s>, Refusal>
    // The tree is of tokens, as `cddl_tree` makes it.
    requires { AreTokens (view tree) }
    ensures kept { IfOk result (λ spec. spec.tree ≡ tree.entry) }
    // Nothing is wrong, from the root that it has.
    ensures accepted { IfOk result (λ spec. IsChecked (view tree.entry) (option_map (λ t. t.now) root.entry) spec.root) }
    // This is wrong, and nothing of a lower code, nor of this one before.
    ensures refused { IfErr result (IsFaulty (view tree.entry) (option_map (λ t. t.now) root.entry)) }
{
    match findings_of(alloc, &tree, root) {
        Ok(findings) => Ok(Spec::new(tree, findings)),
        Err(why) => {
            discard(tree);
            Err(refusal_of(why))
        }
    }
}
