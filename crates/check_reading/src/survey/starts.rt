//! Where rules begin.
ghost use Rattle.std.specs.Prelude.{◌≡◌, IfOk, map};
ghost use Rattle.cddl_language.specs.Reading.{name_at, rules_of};
ghost use Rattle.tree_nodes.specs.View.{token_of, view, view_rule};

use std::alloc::{AllocError, Global};
use tree_nodes::{Rule, Tree};

// The offset of the name that each rule defines, in the order of the text.
pub(crate) fn starts_of(alloc: Global, tree: &Tree<'_>) -> Result<Vec<usize>, AllocError>
    ensures { IfOk result (λ v. v.items ≡ map name_at (rules_of (view tree.now))) }
{
    let mut starts = Vec::new(alloc);
    for rule in &tree.rules {
        starts.push(start_of(tree, rule))?;
    }
    Ok(starts)
}

// The offset of the name that a rule defines.
fn start_of(tree: &Tree<'_>, rule: &Rule) -> usize
    ensures { result ≡ name_at (view_rule (token_of tree.now) rule.now) }
{
    rule.start(tree)
}
