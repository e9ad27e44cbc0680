//! White space and comments.

ghost use Rattle.std.specs.Prelude.{◌≡◌, ℕ, ◌+◌, ◌<◌, ◌≤◌, length, MatchResult};
ghost use Rattle.cddl_literal.specs.Bytes.{IsAt};
ghost use Rattle.cddl_token.specs.Tokens.{IsComment, GapFrom, StartsNoGap, FaultAt};

use crate::{Code, Fault};
use cddl_literal::{is_blank, is_cr_lf, is_in_comment};

// Where the comment that begins here ends.
fn comment_end(source: &[u8], at: usize) -> Result<usize, Fault>
    requires begins { IsAt ";" source.now at }
    requires within { at < length source.now }
    ensures { MatchResult result (λ e. IsComment source.now at e × (e ≤ length source.now)) (λ f. FaultAt source.now at f.code f.at) }
{
    let mut i = at + 1;
    while i < source.len() {
        let b = source[i];
        if b == b'\n' {
            return Ok(i);
        }
        if is_cr_lf(source, i) {
            return Ok(i);
        }
        if !is_in_comment(b) {
            return Err(Fault {
                code: Code::BadCharacter,
                at: i,
            });
        }
        i += 1;
    }
    Ok(i)
}

// Where the gap that begins here ends.
pub(crate) fn gap_end(source: &[u8], at: usize) -> Result<usize, Fault>
    requires { at ≤ length source.now }
    ensures { MatchResult result (λ e. GapFrom source.now at e × (at ≤ e) × (e ≤ length source.now) × (e < length source.now → StartsNoGap source.now e × (IsAt ";" source.now e → ⊥))) (λ f. (a : ℕ) × GapFrom source.now at a × (a < length source.now) × FaultAt source.now a f.code f.at) }
{
    let mut i = at;
    while i < source.len() {
        let b = source[i];
        if is_blank(b) {
            i += 1;
        } else if is_cr_lf(source, i) {
            i += 2;
        } else if b == b';' {
            match comment_end(source, i) {
                Ok(end) => i = end,
                Err(fault) => return Err(fault),
            }
        } else {
            break;
        }
    }
    Ok(i)
}
