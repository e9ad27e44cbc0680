//! That each text has tokens or a reason why it has none, and that these are one: laws over its bytes. The functions here do
//! nothing: their contracts are the laws.

ghost use Rattle.std.specs.Prelude.{ℕ, List};
ghost use Rattle.cddl_decided.specs.Readings.{AreRead, TellTheSame};
ghost use Rattle.cddl_token.specs.Answers.{IsRefused, IsTokenized};
ghost use Rattle.cddl_token.specs.Tokens.{Spanned};
ghost use Rattle.cddl_token.specs.declared.Code.{Code};
ghost use Rattle.cddl_token.specs.declared.Token.{Token};
ghost use Rattle.tree_nodes.specs.Syntax.Answers as Trees;
ghost use Rattle.tree_nodes.specs.Syntax.Syntax.{Cddl};

use cddl_token::one_answer;
use tree_nodes::syntax::one_tree;

/// No source has neither tokens nor a fault. That it has one list of tokens or one fault, and never both, says
/// [`cddl_token::one_answer`].
pub fn tokens_or_fault()
    ensures { (s : List ℕ) → ((ts : List Spanned) → IsTokenized s ts → ⊥) → ((c : Code) (p : ℕ) → IsRefused s c p → ⊥) → ⊥ }
{}

/// Two lists of tokens of one source differ at most in where in memory their texts stand. That plays no part in what is reported: they
/// are both refused, for the same reason at the same byte, or neither is; and of their trees the same is reported.
pub fn one_reading()
    ensures refused { (s : List ℕ) (ts us : List Token) → AreRead s ts → AreRead s us → (c : Code) (p : ℕ) → Trees.IsRefused ts c p → Trees.IsRefused us c p }
    ensures tree { (s : List ℕ) (ts us : List Token) → AreRead s ts → AreRead s us → (x y : Cddl) → Trees.IsTreeOf x ts → Trees.IsTreeOf y us → TellTheSame x y }
{
    one_answer();
    one_tree();
}
