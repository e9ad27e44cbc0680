//! Why an item does not match the specification that a text is.

ghost use Rattle.std.specs.Prelude.{IfOk, option_map, string_bytes};
ghost use Rattle.cddl_tree.specs.States.{EndsInEnd};
ghost use Rattle.cddl_check.specs.Text.{AreTokensOf};
ghost use Rattle.cddl_mismatch.specs.Explained.{IsExplainedMismatch, IsUntold};

use crate::lines::Source;
use crate::reasons::told_by_spec;
use crate::specification::read_tokens;
use cbor_item::Sound;
use cddl_token::{Refusal, Token, tokens};
use cddl_tree::tokens_end;
use std::alloc::{AllocError, Global};

/// Why the item does not match the specification that the text is (RFC 8610), with this root or that of the first rule: of each
/// reason a line, ten at most, and how many more there are. `file` is the name of the text in these lines. Where the root is a name
/// of the prelude, a reason whose types stand nowhere in the text is reported by this name.
///
/// Nothing is reported where the text is refused, where the item matches, and where so many steps do not tell.
///
/// # Errors
///
/// `AllocError` where memory was refused, or each number of 32 bits was taken.
pub fn explained_mismatch(
    alloc: Global,
    text: &[u8],
    root: Option<&str>,
    file: &str,
    item: &Sound,
    steps: u64,
) -> Result<String, AllocError>
    ensures told { IfOk result (λ told. IsExplainedMismatch text.now (option_map (λ r. r.now) root.entry) file.now item.now steps (string_bytes told)) }
{
    tokens_end();
    match tokens(alloc, text) {
        Ok(found) => {
            let source = Source {
                text,
                tokens: found.as_slice(),
                file,
                root,
            };
            told_by_tokens(alloc, source, item, steps)
        }
        Err(refusal) => untold(alloc, refusal),
    }
}

// The same, by the tokens of the text.
fn told_by_tokens(
    alloc: Global,
    source: Source<'_>,
    item: &Sound,
    steps: u64,
) -> Result<String, AllocError>
    requires ends { EndsInEnd source.tokens.now }
    requires read { AreTokensOf source.tokens.now source.text.now }
    ensures { IfOk result (λ told. IsExplainedMismatch source.entry.text.now (option_map (λ r. r.now) source.entry.root) source.entry.file.now item.now steps (string_bytes told)) }
{
    match read_tokens(alloc, source.tokens, source.root) {
        Ok(spec) => told_by_spec(alloc, source, &spec, item, steps),
        Err(refusal) => untold(alloc, refusal),
    }
}

// Nothing is reported for a text that is refused.
fn untold(alloc: Global, refusal: Refusal) -> Result<String, AllocError>
    ensures { IfOk result (λ told. IsUntold refusal (string_bytes told)) }
{
    match refusal {
        Refusal::At(_, _) => Ok(String::new(alloc)),
        Refusal::Memory => Err(AllocError),
    }
}
