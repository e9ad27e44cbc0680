//! A law: a function that does nothing, whose contract is for proofs.

ghost use Rattle.std.specs.Prelude.{ℕ, List};
ghost use Rattle.cddl_token.specs.declared.Token.{Token};
ghost use Rattle.tree_nodes.specs.Syntax.Syntax.{Cddl};
ghost use Rattle.tree_nodes.specs.Syntax.Answers.{IsTreeOf};
ghost use Rattle.cddl_language.specs.Literals.{AreTokens};
ghost use Rattle.cddl_check.specs.Text.{AreTokensOf};

/// A tree of a text's tokens is one of tokens, as [`crate::check`] asks.
pub fn trees_are_of_tokens()
    ensures { (text : List ℕ) (ts : List Token) (x : Cddl) → AreTokensOf ts text → IsTreeOf x ts → AreTokens x }
{}
