//! Reads the specification that tokens are.

ghost use Rattle.std.specs.Prelude.{◌≡◌, ℕ, IfErr, IfOk, List, option_map};
ghost use Rattle.cddl_tree.specs.States.{EndsInEnd};
ghost use Rattle.cddl_check.specs.Text.{AreTokensOf, IsUnreadText};
ghost use Rattle.cddl_mismatch.specs.Explained.{IsReadAs};

use cddl_check::{Spec, check, trees_are_of_tokens};
use cddl_token::{Refusal, Token};
use cddl_tree::parse;
use std::alloc::Global;

// The specification that the tokens are, which was checked.
pub(crate) fn read_tokens<'s>(
    alloc: Global,
    tokens: &'s [Token<'s>],
    root: Option<&str>,
) -> Result<Spec<'s>, Refusal>
    requires ends { EndsInEnd tokens.now }
    requires read { (text : List ℕ) × AreTokensOf tokens.now text }
    ensures read { IfOk result (λ spec. IsReadAs tokens.now (option_map (λ t. t.now) root.entry) spec) }
    ensures unread { IfErr result (λ e. (text : List ℕ) → AreTokensOf tokens.now text → IsUnreadText text (option_map (λ t. t.now) root.entry) e) }
{
    trees_are_of_tokens();
    let tree = parse(alloc, tokens)?;
    let spec = check(alloc, tree, root)?;
    Ok(spec)
}
