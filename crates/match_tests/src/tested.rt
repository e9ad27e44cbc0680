//! Tests of an item by itself.

ghost use Rattle.std.specs.Prelude.{◌≡◌};
ghost use Rattle.cbor_data.specs.Same.{same_list, same_value};
ghost use Rattle.cbor_data.specs.Value.{bytes as bytes_value};
ghost use Rattle.item_nodes.specs.View.{view};
ghost use Rattle.cddl_meaning.specs.Forms.{has_size, is_below, is_float, is_simple, is_up_to, major_of, passes};
ghost use Rattle.match_tests.specs.Views.{subject_view};
ghost use Rattle.table_nodes.specs.Nodes.{test_view, whole_view};
ghost use Rattle.table_nodes.specs.SizeSets.{set_view};

use crate::bits::are_bits_among;
use crate::subject::Subject;
use cbor_data::Width;
use item_nodes::Item;
use table_nodes::{NumberSet, Test, Whole};

// The major type of an item (RFC 8949 section 3.1).
fn major_of(item: &Item) -> u8
    ensures { result ≡ major_of (view item.now) }
{
    match item {
        Item::Uint(_) => 0,
        Item::Nint(_) => 1,
        Item::Bytes(_) => 2,
        Item::Text(_) => 3,
        Item::Array(_) => 4,
        Item::Map(_) => 5,
        Item::Tag(_, _) => 6,
        Item::Simple(_) | Item::Float(_, _) => 7,
    }
}

// Whether an item is the simple value of this number.
fn is_simple(number: u8, item: &Item) -> bool
    ensures { result ≡ is_simple number (view item.now) }
{
    match item {
        Item::Simple(n) => *n == number,
        _ => false,
    }
}

// Whether an item is a float of this width.
#[inline(never)]
fn is_float(width: Width, item: &Item) -> bool
    ensures { result ≡ is_float width (view item.now) }
{
    match item {
        Item::Float(w, _) => width == *w,
        _ => false,
    }
}

// Whether an item is a whole number from this one on.
#[inline(never)]
fn is_from(least: Whole, item: &Item) -> bool
    ensures { result ≡ is_up_to (whole_view least) (view item.now) }
{
    match (least, item) {
        (Whole::Uint(m), Item::Uint(n)) => m <= *n,
        (Whole::Nint(_), Item::Uint(_)) => true,
        (Whole::Nint(m), Item::Nint(n)) => *n <= m,
        _ => false,
    }
}

// Whether an item is a whole number up to this one.
#[inline(never)]
fn is_up_to(item: &Item, last: Whole) -> bool
    ensures { result ≡ is_up_to (view item.now) (whole_view last) }
{
    match (item, last) {
        (Item::Uint(m), Whole::Uint(n)) => *m <= n,
        (Item::Nint(_), Whole::Uint(_)) => true,
        (Item::Nint(m), Whole::Nint(n)) => n <= *m,
        _ => false,
    }
}

// Whether an item is a whole number below this one.
#[inline(never)]
fn is_below(item: &Item, last: Whole) -> bool
    ensures { result ≡ is_below (view item.now) (whole_view last) }
{
    match (item, last) {
        (Item::Uint(m), Whole::Uint(n)) => *m < n,
        (Item::Nint(_), Whole::Uint(_)) => true,
        (Item::Nint(m), Whole::Nint(n)) => n < *m,
        _ => false,
    }
}

// Whether an item is a whole number above this one.
#[inline(never)]
fn is_above(least: Whole, item: &Item) -> bool
    ensures { result ≡ is_below (whole_view least) (view item.now) }
{
    match (least, item) {
        (Whole::Uint(m), Item::Uint(n)) => m < *n,
        (Whole::Nint(_), Item::Uint(_)) => true,
        (Whole::Nint(m), Item::Nint(n)) => *n < m,
        _ => false,
    }
}

// Whether an item has such a size. That of a text is the number of its bytes.
#[inline(never)]
fn has_size(sizes: &NumberSet, item: &Item) -> bool
    ensures { result ≡ has_size (set_view sizes.now) (view item.now) }
{
    match item {
        Item::Uint(number) => sizes.can_hold(*number),
        Item::Bytes(bytes) => sizes.has(bytes.len() as u128),
        Item::Text(text) => sizes.has(text.len() as u128),
        _ => false,
    }
}

// Whether an item is equal to this one. Most literals, and most items that are compared with one, are small numbers.
#[inline(always)]
pub(crate) fn is_equal(item: &Item, literal: &Item) -> bool
    ensures { result ≡ same_value (view item.now) (view literal.now) }
{
    match (item, literal) {
        (Item::Uint(m), Item::Uint(n)) => m == n,
        _ => item == literal,
    }
}

// Whether these are the same bytes.
fn are_same(some: &[u8], others: &[u8]) -> bool
    ensures { result ≡ same_list some.now others.now }
{
    some == others
}

// Whether a literal is the byte string of these bytes.
fn is_string(literal: &Item, bytes: &[u8]) -> bool
    ensures { result ≡ same_value (bytes_value bytes.now) (view literal.now) }
{
    match literal {
        Item::Bytes(string) => are_same(bytes, string.as_slice()),
        _ => false,
    }
}

/// Whether an item passes a test. The common ones are asked where this is called.
#[inline(always)]
pub fn passes(test: &Test, item: &Item) -> bool
    ensures { result ≡ passes (test_view test.now) (view item.now) }
{
    match test {
        Test::Anything => true,
        Test::Major(major) => major_of(item) == *major,
        Test::Simple(number) => is_simple(*number, item),
        Test::Float(width) => is_float(*width, item),
        Test::Equals(literal) => is_equal(item, literal),
        Test::Between {
            least,
            last,
            closed: true,
        } => is_from(*least, item) && is_up_to(item, *last),
        Test::Between {
            least,
            last,
            closed: false,
        } => is_from(*least, item) && is_below(item, *last),
        Test::Differs(literal) => item != literal,
        Test::Less(number) => is_below(item, *number),
        Test::AtMost(number) => is_up_to(item, *number),
        Test::Greater(number) => is_above(*number, item),
        Test::AtLeast(number) => is_from(*number, item),
        Test::Sized(sizes) => has_size(sizes, item),
        Test::Bits(members) => are_bits_among(members, Subject::Item(item)),
    }
}

// Whether a byte string of these bytes passes a test.
#[inline(never)]
fn string_passes(test: &Test, bytes: &[u8]) -> bool
    ensures { result ≡ passes (test_view test.now) (bytes_value bytes.now) }
{
    match test {
        Test::Anything => true,
        Test::Major(major) => *major == 2,
        Test::Equals(literal) => is_string(literal, bytes),
        Test::Differs(literal) => !is_string(literal, bytes),
        Test::Sized(sizes) => sizes.has(bytes.len() as u128),
        Test::Bits(members) => are_bits_among(members, Subject::Bytes(bytes)),
        Test::Simple(_)
        | Test::Float(_)
        | Test::Between { .. }
        | Test::Less(_)
        | Test::AtMost(_)
        | Test::Greater(_)
        | Test::AtLeast(_) => false,
    }
}

/// Whether an item, a number as an unsigned item, or a byte string of these bytes passes a test.
#[inline]
pub fn passes_test(test: &Test, subject: Subject<'_>) -> bool
    ensures { result ≡ passes (test_view test.now) (subject_view subject.entry) }
{
    match subject {
        Subject::Item(item) => passes(test, item),
        Subject::Number(number) => passes(test, &Item::Uint(number)),
        Subject::Bytes(bytes) => string_passes(test, bytes),
    }
}
