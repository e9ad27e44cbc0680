//! Bytes that are put into room that is there, from a position on. The position goes from call to call as a value.
ghost use Rattle.std.specs.Prelude.{◌≡◌, ◌+◌, ◌<◌, ◌≤◌, ◌++◌, ◌∷◌, [], length, drop, codes, decimal};
ghost use Rattle.item_nodes.specs.Comma.{comma};
ghost use Rattle.tape_notation.specs.Put.{IsPut, four_digits, two_digits};

use itoa::Buffer;

/// Puts the text at `at`, and answers where it ends.
#[inline(always)]
pub fn put(out: &mut [u8], at: usize, text: &[u8]) -> usize
    requires { at + length text.now ≤ length out.old }
    ensures { IsPut out.old out.new at text.now result }
{
    let end = at + text.len();
    out[at..end].copy_from_slice(text);
    end
}

/// Puts one byte.
#[inline(always)]
pub fn put_byte(out: &mut [u8], at: usize, byte: u8) -> usize
    requires { at < length out.old }
    ensures { IsPut out.old out.new at (byte ∷ []) result }
{
    out[at] = byte;
    at + 1
}

/// Puts what parts the member or pair that has so many before it from the one before.
#[inline(always)]
pub(crate) fn put_comma(out: &mut [u8], at: usize, before: usize) -> usize
    requires { at + length (comma before) ≤ length out.old }
    ensures { IsPut out.old out.new at (comma before) result }
{
    if before == 0 {
        return at;
    }
    put(out, at, b", ")
}

/// Puts the number in decimal.
#[inline(always)]
pub fn put_number(out: &mut [u8], at: usize, n: u64) -> usize
    requires { at + length (decimal n) ≤ length out.old }
    ensures { IsPut out.old out.new at (decimal n) result }
{
    if n < 100 {
        return put_short(out, at, n as u32);
    }
    put_digits(out, at, n)
}

// The same, of any length.
#[inline(never)]
fn put_digits(out: &mut [u8], at: usize, n: u64) -> usize
    requires { at + length (decimal n) ≤ length out.old }
    ensures { IsPut out.old out.new at (decimal n) result }
{
    if n < 100_000_000 {
        return put_eight(out, at, n as u32);
    }
    let end = put_digits(out, at, n / 100_000_000);
    let last = (n % 100_000_000) as u32;
    let after = put_four(out, end, last / 10_000);
    put_four(out, after, last % 10_000)
}

// The same of a number of at most eight digits.
#[inline(always)]
fn put_eight(out: &mut [u8], at: usize, n: u32) -> usize
    requires short { n < 100000000 }
    requires room { at + length (decimal n) ≤ length out.old }
    ensures { IsPut out.old out.new at (decimal n) result }
{
    if n < 10_000 {
        return put_at_most_four(out, at, n);
    }
    let end = put_at_most_four(out, at, n / 10_000);
    put_four(out, end, n % 10_000)
}

// At most four.
#[inline(always)]
fn put_at_most_four(out: &mut [u8], at: usize, n: u32) -> usize
    requires short { n < 10000 }
    requires room { at + length (decimal n) ≤ length out.old }
    ensures { IsPut out.old out.new at (decimal n) result }
{
    if n < 100 {
        return put_short(out, at, n);
    }
    let end = put_short(out, at, n / 100);
    put_pair(out, end, n % 100)
}

// At most two.
#[inline(always)]
fn put_short(out: &mut [u8], at: usize, n: u32) -> usize
    requires short { n < 100 }
    requires room { at + length (decimal n) ≤ length out.old }
    ensures { IsPut out.old out.new at (decimal n) result }
{
    if n < 10 {
        return put_byte(out, at, b'0' + n as u8);
    }
    put_pair(out, at, n)
}

// Puts four digits, of which the first ones may be 0.
#[inline(always)]
fn put_four(out: &mut [u8], at: usize, n: u32) -> usize
    requires small { n < 10000 }
    requires room { at + 4 ≤ length out.old }
    ensures { IsPut out.old out.new at (four_digits n) result }
{
    let end = put_pair(out, at, n / 100);
    put_pair(out, end, n % 100)
}

/// Puts two digits, of which the first one may be 0, and leaves what is after them.
#[inline(always)]
pub fn put_pair(out: &mut [u8], at: usize, n: u32) -> usize
    requires small { n < 100 }
    requires room { at + 2 ≤ length out.old }
    ensures put { IsPut out.old out.new at (two_digits n) result }
    ensures after { drop result out.new ≡ drop result out.old }
{
    // A tenth of a number below 100. A division is worked out anew for each of the two digits.
    let tens = n * 205 / 2048;
    out[at] = b'0' + tens as u8;
    out[at + 1] = b'0' + (n - 10 * tens) as u8;
    at + 2
}

/// Puts the number -1 - n in decimal.
#[inline(always)]
pub(crate) fn put_negative(out: &mut [u8], at: usize, n: u64) -> usize
    requires { at + length (codes "-" ++ decimal (n + 1)) ≤ length out.old }
    ensures { IsPut out.old out.new at (codes "-" ++ decimal (n + 1)) result }
{
    let digits = put(out, at, b"-");
    if n < u64::MAX {
        return put_number(out, digits, n + 1);
    }
    put_wide(out, digits, u128::from(n) + 1)
}

// Puts a number that may be 2^64.
#[cold]
#[inline(never)]
fn put_wide(out: &mut [u8], at: usize, n: u128) -> usize
    requires { at + length (decimal n) ≤ length out.old }
    ensures { IsPut out.old out.new at (decimal n) result }
{
    let mut buffer = Buffer::new();
    put(out, at, buffer.format(n).as_bytes())
}
