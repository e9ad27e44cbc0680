//! Joins.

ghost use Rattle.std.specs.Prelude.{◌≡◌, ◌++◌, ◌≤◌, ◌<◌, length, IfOk, IsOk, SomeIff};
ghost use Rattle.std.specs.Result.{result_map_both};
ghost use Rattle.std.specs.Option.{option_map};
ghost use Rattle.cddl_literal.specs.Literals.{view};
ghost use Rattle.cddl_literal.specs.Operators.Joins as J;
ghost use Rattle.cddl_literal.specs.Operators.Dedent as D;

use super::dedent::{least_indent, push_shifted, shifted_len};
use super::{Fault, Joining};
use crate::Literal;
use std::alloc::{AllocError, Global};

/// How many bytes a join may have.
const MOST_BYTES: usize = 65_536;

/// Two strings in one, which is of the left one's kind (RFC 9165, sections 2.2 and 2.3).
///
/// It takes a time that grows with the operands' length, and no memory but the join's, of 65,536 bytes at most.
///
/// # Errors
///
/// `AllocError` where memory is refused. In the answer, `Fault::LeftKind` or `Fault::RightKind` where an operand is no string,
/// `Fault::OutOfRange` where the join has more than 65,536 bytes, and `Fault::NotUtf8` where it is to be a text and can't be.
pub fn joined(
    alloc: Global,
    joining: Joining,
    left: &Literal,
    right: &Literal,
) -> Result<Result<Literal, Fault>, AllocError>
    ensures value { IfOk result (λ r. result_map_both view (λ f. f) r ≡ J.joined joining (view left.now) (view right.now)) }
    // What is too long asks for no memory.
    ensures counted { J.joined joining (view left.now) (view right.now) ≡ Err Fault.OutOfRange → IsOk result }
{
    let Some(front) = string_of(left) else {
        return Ok(Err(Fault::LeftKind));
    };
    let Some(back) = string_of(right) else {
        return Ok(Err(Fault::RightKind));
    };
    match joined_bytes(alloc, joining, front, back)? {
        Some(bytes) => Ok(string_like(left, bytes)),
        None => Ok(Err(Fault::OutOfRange)),
    }
}

// The bytes of a literal that is a string.
fn string_of(literal: &Literal) -> Option<&[u8]>
    ensures { option_map (λ s. s.now) result ≡ J.string_of (view literal.now) }
{
    match literal {
        Literal::Text(text) => Some(text.as_bytes()),
        Literal::Bytes(bytes) => Some(bytes.as_slice()),
        Literal::Uint(_) | Literal::Nint(_) => None,
    }
}

// These bytes as a string of the same kind as a literal.
fn string_like(literal: &Literal, bytes: Vec<u8>) -> Result<Literal, Fault>
    ensures { result_map_both view (λ f. f) result ≡ J.string_like (view literal.now) bytes.items }
{
    match literal {
        Literal::Text(_) => text_of(bytes),
        _ => Ok(Literal::Bytes(bytes)),
    }
}

// These bytes as a text.
fn text_of(bytes: Vec<u8>) -> Result<Literal, Fault>
    ensures { result_map_both view (λ f. f) result ≡ J.text_of bytes.items }
{
    match String::from_utf8(bytes) {
        Ok(text) => Ok(Literal::Text(text)),
        Err(_) => Err(Fault::NotUtf8),
    }
}

// How many spaces go from the beginning of each line of an operand.
fn spaces_of(joining: Joining, string: &[u8]) -> usize
    ensures { D.shifted result string.now ≡ J.operand joining string.now }
{
    match joining {
        Joining::AsTheyAre => 0,
        Joining::Dedented => least_indent(string),
    }
}

// The join's bytes, where there are not too many. They are counted first.
fn joined_bytes(
    alloc: Global,
    joining: Joining,
    left: &[u8],
    right: &[u8],
) -> Result<Option<Vec<u8>>, AllocError>
    ensures value { IfOk result (λ o. let bytes = J.operand joining left.now ++ J.operand joining right.now in SomeIff (option_map (λ v. v.items) o) (length bytes ≤ J.most_bytes) bytes) }
    ensures counted { J.most_bytes < length (J.operand joining left.now ++ J.operand joining right.now) → IsOk result }
{
    let left_spaces = spaces_of(joining, left);
    let right_spaces = spaces_of(joining, right);
    let left_len = shifted_len(left, left_spaces);
    let right_len = shifted_len(right, right_spaces);
    if left_len > MOST_BYTES || right_len > MOST_BYTES - left_len {
        return Ok(None);
    }
    let mut bytes = Vec::with_capacity(alloc, left_len + right_len)?;
    push_shifted(&mut bytes, left, left_spaces)?;
    push_shifted(&mut bytes, right, right_spaces)?;
    Ok(Some(bytes))
}
