//! Many lines together.

ghost use Rattle.std.specs.Prelude.{◌≡◌, flat_map, map, nat_eq, IfOk, OnOk, string_bytes};
ghost use Rattle.std.specs.Cmp.Lexicographic.{pointwise};
ghost use Rattle.std.specs.List.{list_any};
ghost use Rattle.mismatch_words.specs.Lines.{told_lines, with_line};

use crate::reasons::more_line;
use std::alloc::{AllocError, Global};

// So many lines are reported, at most.
const MOST_LINES: usize = 10;

/// Puts a line after others, unless it is one of them.
///
/// # Errors
///
/// `AllocError` where an allocation was refused.
pub fn push_line(lines: &mut Vec<String>, line: String) -> Result<(), AllocError>
    ensures { OnOk result (map string_bytes lines.new.items ≡ with_line (map string_bytes lines.old.items) (string_bytes line)) }
{
    if !has_line(lines.as_slice(), line.as_str()) {
        lines.push(line)?;
    }
    Ok(())
}

// Whether this line is one of them.
fn has_line(lines: &[String], line: &str) -> bool
    ensures { result ≡ list_any (λ told. pointwise nat_eq (string_bytes told) line.now) lines.now }
{
    lines.iter().any(|told| *told.as_str() == *line)
}

/// The text of these lines: the first ten, and then how many more there are, with so many others.
///
/// # Errors
///
/// `AllocError` where an allocation was refused.
pub fn told_lines(alloc: Global, lines: &[String], others: u64) -> Result<String, AllocError>
    ensures { IfOk result (λ told. string_bytes told ≡ told_lines (map string_bytes lines.now) others) }
{
    let count = MOST_LINES.min(lines.len());
    let told = joined(alloc, &lines[..count])?;
    let more = (lines.len() - count) as u128 + others as u128;
    let more = more_line(alloc, more)?;
    format!(in alloc; "{told}{more}")
}

fn joined(alloc: Global, lines: &[String]) -> Result<String, AllocError>
    ensures { IfOk result (λ text. string_bytes text ≡ flat_map string_bytes lines.now) }
{
    let mut text = String::new(alloc);
    for line in lines {
        text.push_str(line.as_str())?;
    }
    Ok(text)
}
