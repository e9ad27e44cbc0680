//! Classes of bytes in names.

ghost use Rattle.std.specs.Prelude.{◌≡◌};
ghost use Rattle.cddl_token.specs.Bytes.{is_ealpha, is_id_byte, is_mark};

use cddl_literal::is_digit;

// Whether a byte is EALPHA: a letter, `@`, `_` or `$`.
pub(crate) fn is_ealpha(b: u8) -> bool
    ensures { result ≡ is_ealpha b }
{
    b.is_ascii_alphabetic() || b == b'@' || b == b'_' || b == b'$'
}

// Whether a byte is `-` or `.`.
pub(crate) fn is_mark(b: u8) -> bool
    ensures { result ≡ is_mark b }
{
    b == b'-' || b == b'.'
}

// Whether an id may hold a byte.
pub(crate) fn is_id_byte(b: u8) -> bool
    ensures { result ≡ is_id_byte b }
{
    is_ealpha(b) || is_digit(b) || is_mark(b)
}
