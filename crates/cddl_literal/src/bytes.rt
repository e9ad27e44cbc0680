//! Bytes of a source, and their classes.

ghost use Rattle.std.specs.Prelude.{◌≡◌, ℕ, ◌+◌, ◌<◌, false, length, slice_index, IsTrue};
ghost use Rattle.hex.specs.Hex.{is_hex_digit};
ghost use Rattle.cddl_literal.specs.Bytes.{is_b, is_binary_digit, is_blank, is_decimal_digit, is_h, is_in_comment, is_x};
ghost use Rattle.cddl_literal.specs.Prefixed.{IsCrLf};

/// The byte at an offset, or 0 past the end.
pub fn byte_at(source: &[u8], at: usize) -> u8
    ensures value { result ≡ slice_index source.now at }
    ensures inside { 0 < result → at < length source.now }
{
    source.get(at).copied().unwrap_or(0)
}

/// Whether a byte is `0` to `9`.
pub fn is_digit(b: u8) -> bool
    ensures { result ≡ is_decimal_digit b }
{
    b >= b'0' && b <= b'9'
}

/// Whether a byte is `0` or `1`.
pub fn is_binary_digit(b: u8) -> bool
    ensures { result ≡ is_binary_digit b }
{
    b == b'0' || b == b'1'
}

/// Whether a byte is a hex digit, of either case.
pub fn is_hex_digit(b: u8) -> bool
    ensures { result ≡ is_hex_digit b }
{
    (b >= b'A' && b <= b'F') || (b >= b'a' && b <= b'f') || (b >= b'0' && b <= b'9')
}

/// Whether a byte is `x` or `X`.
pub fn is_x(b: u8) -> bool
    ensures { result ≡ is_x b }
{
    b == b'x' || b == b'X'
}

/// Whether a byte is `b` or `B`.
pub fn is_b(b: u8) -> bool
    ensures { result ≡ is_b b }
{
    b == b'b' || b == b'B'
}

/// Whether a byte is `h` or `H`.
pub fn is_h(b: u8) -> bool
    ensures { result ≡ is_h b }
{
    b == b'h' || b == b'H'
}

/// Whether a byte is a space, a tab or a line feed.
pub fn is_blank(b: u8) -> bool
    ensures { result ≡ is_blank b }
{
    b == b' ' || b == b'\t' || b == b'\n'
}

/// Whether a comment may hold a byte.
pub fn is_in_comment(b: u8) -> bool
    ensures { result ≡ is_in_comment b }
{
    b == b'\t' || (b >= 32 && b != 127)
}

/// Whether a carriage return and a line feed are here.
pub fn is_cr_lf(source: &[u8], at: usize) -> bool
    ensures yes { IsTrue result → IsCrLf source.now at }
    ensures inside { IsTrue result → at + 1 < length source.now }
    ensures no_line { result ≡ false → IsCrLf source.now at → ⊥ }
{
    byte_at(source, at) == b'\r' && byte_at(source, at + 1) == b'\n'
}
