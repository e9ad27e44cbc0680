//! Where among the tokens a place is.

ghost use Rattle.std.specs.Prelude.{◌≡◌, ◌≤◌, length};
ghost use Rattle.cddl_explain.specs.Spots.{passed};

use cddl_token::Token;

// How many tokens begin before an offset, up to the first that does not.
pub(crate) fn passed(tokens: &[Token<'_>], at: usize) -> usize
    ensures count { result ≡ passed at tokens.now }
    ensures within { result ≤ length tokens.now }
{
    'token: for k in 0..tokens.len() {
        if tokens[k].start >= at {
            return k;
        }
    }
    tokens.len()
}
