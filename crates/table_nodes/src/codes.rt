//! Numbers for the values of literals: equal values have the same one, and others seldom do.

ghost use Rattle.std.specs.Prelude.{◌≡◌, ◌≤◌};
ghost use Rattle.item_nodes.specs.View.{view};
ghost use Rattle.table_nodes.specs.Codes.{bucket_by, bucket_of, code_of, mixed, string_code, tail_code};

use item_nodes::Item;

/// 2^64 by the golden ratio. It is odd, and its digits look like random ones.
const MIXER: u64 = 0x9e37_79b9_7f4a_7c15;

/// So many of the last bytes of a string are looked at, so that long strings take no longer. Names differ at their ends.
const LAST_BYTES: usize = 64;

// Digits that depend on all those of a number, so that numbers with a common factor are not alike.
#[inline(always)]
fn mixed(number: u64) -> u64
    ensures { result ≡ mixed number }
{
    number.wrapping_mul(MIXER) >> 32
}

// The code of bytes that come after some with this one.
fn string_code(bytes: &[u8], before: u64) -> u64
    ensures { result ≡ string_code before bytes.now }
{
    let mut code = before;
    for byte in bytes {
        code = code.wrapping_mul(31).wrapping_add(u64::from(*byte));
    }
    code
}

// The code of the last bytes of a string.
fn tail_code(bytes: &[u8], before: u64) -> u64
    ensures { result ≡ tail_code before bytes.now }
{
    let (_, last) = bytes.split_at(bytes.len().saturating_sub(LAST_BYTES));
    string_code(last, before)
}

// The code of a whole number or of a string.
#[inline]
fn code_of(item: &Item) -> Option<u64>
    ensures { result ≡ code_of (view item.now) }
{
    match item {
        Item::Uint(number) => Some(mixed(*number)),
        Item::Nint(number) => Some(mixed(u64::MAX - *number)),
        Item::Bytes(bytes) => Some(mixed(tail_code(bytes, 0))),
        Item::Text(text) => Some(mixed(tail_code(text.as_bytes(), 1))),
        _ => None,
    }
}

// The bucket, of so many, of a code.
#[inline(always)]
fn bucket_by(code: u64, buckets: usize) -> usize
    ensures is { result ≡ bucket_by buckets code }
    ensures within { result ≤ buckets }
{
    if buckets == 0 {
        return 0;
    }
    code as usize % buckets
}

// The bucket, of so many, of an item. All that are neither whole numbers nor strings are in one more.
#[inline]
pub(crate) fn bucket_of(item: &Item, buckets: usize) -> usize
    ensures is { result ≡ bucket_of buckets (view item.now) }
    ensures within { result ≤ buckets }
{
    match code_of(item) {
        Some(code) => bucket_by(code, buckets),
        None => buckets,
    }
}
