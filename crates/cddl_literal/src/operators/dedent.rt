//! Strings without the indent of their lines.

ghost use Rattle.std.specs.Prelude.{◌≡◌, ◌++◌, ◌≤◌, length, OnOk, if◌then◌else◌};
ghost use Rattle.cddl_literal.specs.Operators.Dedent as D;

use std::alloc::{AllocError, Global};

// The least indent of the lines that are not blank, or 0 where all are blank.
pub(crate) fn least_indent(string: &[u8]) -> usize
    ensures { result ≡ D.least_indent string.now }
{
    string
        .split(|b| *b == b'\n')
        .filter_map(|line| indent(line))
        .min()
        .unwrap_or(0)
}

// How many spaces are before the first byte of a line that is none, or None where the line is blank.
fn indent(line: &[u8]) -> Option<usize>
    ensures { result ≡ D.indent line.now }
{
    line.iter().position(|b| *b != b' ')
}

// How many spaces may still go from a line after this byte of it.
fn spaces_left(byte: u8, most: usize) -> usize
    ensures { result ≡ (if D.is_line_feed byte then most else 0) }
{
    if byte == b'\n' { most } else { 0 }
}

// How many bytes a string has with so many spaces less at the beginning of each line.
pub(crate) fn shifted_len(string: &[u8], spaces: usize) -> usize
    ensures value { result ≡ length (D.shifted spaces string.now) }
    ensures less { result ≤ length string.now }
{
    let mut len: usize = 0;
    let mut left = spaces;
    for byte in string {
        if *byte == b' ' && left > 0 {
            left -= 1;
        } else {
            len += 1;
            left = spaces_left(*byte, spaces);
        }
    }
    len
}

// Pushes a string with so many spaces less at the beginning of each line.
pub(crate) fn push_shifted(
    bytes: &mut Vec<u8>,
    string: &[u8],
    spaces: usize,
) -> Result<(), AllocError>
    ensures { OnOk result (bytes.new.items ≡ bytes.old.items ++ D.shifted spaces string.now) }
{
    let mut left = spaces;
    for byte in string {
        if *byte == b' ' && left > 0 {
            left -= 1;
        } else {
            bytes.push(*byte)?;
            left = spaces_left(*byte, spaces);
        }
    }
    Ok(())
}
