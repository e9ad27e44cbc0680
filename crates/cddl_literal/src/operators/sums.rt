//! Sums.

ghost use Rattle.std.specs.Prelude.{◌≡◌, pos, negsuc, ◌+ℤ◌};
ghost use Rattle.std.specs.Result.{result_map_both};
ghost use Rattle.cddl_literal.specs.Literals.{view};
ghost use Rattle.cddl_literal.specs.Operators.Sums as S;

use super::Fault;
use crate::Literal;

/// The sum of two whole numbers, from -2^64 to 2^64 - 1 (RFC 9165, section 2.1).
///
/// # Errors
///
/// `Fault::LeftKind` or `Fault::RightKind` where an operand is no number, `Fault::OutOfRange` where the sum is no literal.
pub fn plus(left: &Literal, right: &Literal) -> Result<Literal, Fault>
    ensures { result_map_both view (λ f. f) result ≡ S.plus (view left.now) (view right.now) }
{
    match left {
        Literal::Uint(number) => uint_plus(*number, right),
        Literal::Nint(number) => nint_plus(*number, right),
        Literal::Text(_) | Literal::Bytes(_) => Err(Fault::LeftKind),
    }
}

// A number from 0 on, and another.
fn uint_plus(left: u64, right: &Literal) -> Result<Literal, Fault>
    ensures { result_map_both view (λ f. f) result ≡ S.sum_of (Some (pos left)) (S.number_of (view right.now)) }
{
    match right {
        Literal::Uint(right) => match left.checked_add(*right) {
            Some(sum) => Ok(Literal::Uint(sum)),
            None => Err(Fault::OutOfRange),
        },
        Literal::Nint(right) => Ok(difference(left, *right)),
        Literal::Text(_) | Literal::Bytes(_) => Err(Fault::RightKind),
    }
}

// A number below 0, -1 minus the one that is given, and another.
fn nint_plus(left: u64, right: &Literal) -> Result<Literal, Fault>
    ensures { result_map_both view (λ f. f) result ≡ S.sum_of (Some (negsuc left)) (S.number_of (view right.now)) }
{
    match right {
        Literal::Uint(right) => Ok(difference(*right, left)),
        Literal::Nint(right) => both_negative(left, *right),
        Literal::Text(_) | Literal::Bytes(_) => Err(Fault::RightKind),
    }
}

// The sum of two numbers below 0.
fn both_negative(left: u64, right: u64) -> Result<Literal, Fault>
    ensures { result_map_both view (λ f. f) result ≡ S.number_literal (negsuc left +ℤ negsuc right) }
{
    match left.checked_add(right) {
        Some(sum) if sum < u64::MAX => Ok(Literal::Nint(sum + 1)),
        _ => Err(Fault::OutOfRange),
    }
}

// A number from 0 on and one below 0, -1 minus the one that is given.
fn difference(uint: u64, nint: u64) -> Literal
    ensures { S.number_literal (pos uint +ℤ negsuc nint) ≡ Ok (view result) }
{
    if uint > nint {
        Literal::Uint(uint - nint - 1)
    } else {
        Literal::Nint(nint - uint)
    }
}
