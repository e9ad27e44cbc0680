//! Reads the text of a specification.

ghost use Rattle.std.specs.Prelude.{◌≡◌, ℕ, IfErr, IfOk, List, option_map};
ghost use Rattle.cddl_tree.specs.States.{EndsInEnd};
ghost use Rattle.cddl_check.specs.Text.{AreTokensOf, IsUnreadText};
ghost use Rattle.cddl_table.specs.Ranks.{LeavesNoRankOut};
ghost use Rattle.cddl_table.specs.Text.{IsTabledText};

use crate::compiling::compile;
use cddl_check::{check, trees_are_of_tokens};
use cddl_token::{Refusal, Token, tokens};
use cddl_tree::{parse, tokens_end};
use std::alloc::Global;
use table_nodes::Table;

/// The table of the specification that the text is (RFC 8610). Its root is the given name, or that of the first rule.
///
/// The time and the memory are those of the stages together: n log n for a text of n bytes until the instances are known, of
/// which there may be 4,096; then in proportion to the rows of these and to the forms of the table, whose ranks are sorted. The text has at most
/// 1,048,576 bytes.
///
/// # Errors
///
/// [`Refusal::At`] with what is wrong, and the byte where it shows: of the text's first token that cannot be read, or else of
/// the first that fits no specification, or else of the lowest code that stands anywhere in the tree the least offset.
/// [`Refusal::Memory`] where memory was refused, or each number of 32 bits was taken.
pub fn read_specification(alloc: Global, text: &[u8], root: Option<&str>) -> Result<Table, Refusal>
    ensures tabled { IfOk result (λ table. IsTabledText text.now (option_map (λ t. t.now) root.entry) table) }
    ensures ranks { IfOk result LeavesNoRankOut }
    ensures unread { IfErr result (λ e. IsUnreadText text.now (option_map (λ t. t.now) root.entry) e) }
{
    tokens_end();
    let found = tokens(alloc, text)?;
    let table = read_tokens(alloc, &found, root)?;
    Ok(table)
}

// The table of the specification that the tokens are.
fn read_tokens<'s>(
    alloc: Global,
    tokens: &'s [Token<'s>],
    root: Option<&str>,
) -> Result<Table, Refusal>
    requires ends { EndsInEnd tokens.now }
    requires read { (text : List ℕ) × AreTokensOf tokens.now text }
    ensures tabled { IfOk result (λ table. (text : List ℕ) → AreTokensOf tokens.now text → IsTabledText text (option_map (λ t. t.now) root.entry) table) }
    ensures ranks { IfOk result LeavesNoRankOut }
    ensures unread { IfErr result (λ e. (text : List ℕ) → AreTokensOf tokens.now text → IsUnreadText text (option_map (λ t. t.now) root.entry) e) }
{
    trees_are_of_tokens();
    let tree = parse(alloc, tokens)?;
    let spec = check(alloc, tree, root)?;
    let table = compile(alloc, &spec)?;
    Ok(table)
}
