//! The bits of an item that are set, each with its number (RFC 8610 section 3.8.2).

ghost use Rattle.std.specs.Prelude.{◌≡◌, ◌+◌, ◌*◌, ◌<◌, ◌≤◌, ◌^◌, ◌||◌, MatchOption, count_ones, length, not};
ghost use Rattle.item_nodes.specs.View.{view};
ghost use Rattle.cddl_meaning.specs.Forms.{are_bits_among, are_members, bit_count, bits_asked, bits_set, has_bit, is_member};
ghost use Rattle.match_tests.specs.Bits.{bits_in, bits_in_first, bits_of};
ghost use Rattle.match_tests.specs.Views.{subject_view};
ghost use Rattle.table_nodes.specs.Nodes.{test_view};
ghost use Rattle.table_nodes.specs.SizeSets.{set_view};

use crate::subject::Subject;
use item_nodes::Item;
use table_nodes::{NumberSet, Test};

// Whether the bit of value 2^bit is set.
fn is_set(word: u64, bit: u32) -> bool
    requires { bit < 64 }
    ensures { result ≡ has_bit word bit }
{
    word & (1 << bit) != 0
}

// Whether a bit of a word is a member, if it is set, where the lowest bit has this number.
fn is_bit_among(members: &NumberSet, word: u64, bit: u32, first: u128) -> bool
    requires bit { bit < 64 }
    requires fits { first + 64 < 2 ^ 128 }
    ensures { result ≡ (not (has_bit word bit) || is_member (first + bit) (set_view members.now)) }
{
    !is_set(word, bit) || members.has(first + u128::from(bit))
}

// Whether each bit that is set in a word of this width is a member.
fn are_word_bits_among(members: &NumberSet, word: u64, width: u32, first: u128) -> bool
    requires width { width ≤ 64 }
    requires fits { first + 64 < 2 ^ 128 }
    ensures { result ≡ are_members (bits_of first word width) (set_view members.now) }
{
    for bit in 0..width {
        if !is_bit_among(members, word, bit, first) {
            return false;
        }
    }
    true
}

// Whether each bit that is set in the byte at this index is a member. Long strings often have many bytes 0.
#[tactic(auto, using(crate::proofs::OfBits::none_set))]
fn are_byte_bits_among(members: &NumberSet, byte: u8, index: usize) -> bool
    ensures { result ≡ are_members (bits_of (8 * index) byte 8) (set_view members.now) }
{
    if byte == 0 {
        return true;
    }
    are_word_bits_among(members, u64::from(byte), 8, 8 * index as u128)
}

// Whether each bit that is set in these bytes is a member.
fn are_string_bits_among(members: &NumberSet, bytes: &[u8]) -> bool
    ensures { result ≡ are_members (bits_in_first bytes.now (length bytes.now)) (set_view members.now) }
{
    for (index, byte) in bytes.iter().enumerate() {
        if !are_byte_bits_among(members, *byte, index) {
            return false;
        }
    }
    true
}

// Whether an item has bits, and each that is set is a member.
fn are_item_bits_among(members: &NumberSet, item: &Item) -> bool
    ensures { result ≡ are_bits_among (set_view members.now) (bits_in (view item.now)) }
{
    match item {
        Item::Uint(number) => are_word_bits_among(members, *number, 64, 0),
        Item::Bytes(bytes) => are_string_bits_among(members, bytes.as_slice()),
        _ => false,
    }
}

// Whether an item, a number as an unsigned item, or a byte string of these bytes has bits, and each that is set is a member.
#[inline(never)]
pub(crate) fn are_bits_among(members: &NumberSet, subject: Subject<'_>) -> bool
    ensures { result ≡ are_bits_among (set_view members.now) (bits_set (subject_view subject.entry)) }
{
    match subject {
        Subject::Item(item) => are_item_bits_among(members, item),
        Subject::Number(number) => are_word_bits_among(members, number, 64, 0),
        Subject::Bytes(bytes) => are_string_bits_among(members, bytes),
    }
}

// What is left of so many steps when a word has taken one for each bit that is set.
fn left_of_word(word: u64, steps: u64) -> Option<u64>
    ensures { MatchOption result (steps < count_ones word) (λ left. count_ones word + left ≡ steps) }
{
    steps.checked_sub(u64::from(word.count_ones()))
}

// What is left of so many steps when a number has taken one for each bit that is set.
fn left_of_number(number: u64, steps: u64) -> Option<u64>
    ensures { MatchOption result (steps < length (bits_of 0 number 64)) (λ left. length (bits_of 0 number 64) + left ≡ steps) }
{
    left_of_word(number, steps)
}

// What is left of so many steps when bytes have taken one for each bit that is set.
fn left_of_string(bytes: &[u8], steps: u64) -> Option<u64>
    ensures { MatchOption result (steps < length (bits_in_first bytes.now (length bytes.now))) (λ left. length (bits_in_first bytes.now (length bytes.now)) + left ≡ steps) }
{
    let mut left = steps;
    for byte in bytes {
        let Some(fewer) = left_of_word(u64::from(*byte), left) else {
            return None;
        };
        left = fewer;
    }
    Some(left)
}

// What is left of so many steps when an item has taken one for each bit that is set.
fn left_of_item(item: &Item, steps: u64) -> Option<u64>
    ensures { MatchOption result (steps < bit_count (bits_in (view item.now))) (λ left. bit_count (bits_in (view item.now)) + left ≡ steps) }
{
    match item {
        Item::Uint(number) => left_of_number(*number, steps),
        Item::Bytes(bytes) => left_of_string(bytes.as_slice(), steps),
        _ => Some(steps),
    }
}

// The same of an item, of a number as an unsigned item, and of a byte string of these bytes.
fn left_of_bits(subject: Subject<'_>, steps: u64) -> Option<u64>
    ensures { MatchOption result (steps < bit_count (bits_in (subject_view subject.entry))) (λ left. bit_count (bits_in (subject_view subject.entry)) + left ≡ steps) }
{
    match subject {
        Subject::Item(item) => left_of_item(item, steps),
        Subject::Number(number) => left_of_number(number, steps),
        Subject::Bytes(bytes) => left_of_string(bytes, steps),
    }
}

// What is left when a test of bits has taken one step for each that is set.
fn left_of_test(subject: Subject<'_>, steps: u64) -> Option<u64>
    ensures { MatchOption result (steps < bit_count (bits_set (subject_view subject.entry))) (λ left. bit_count (bits_set (subject_view subject.entry)) + left ≡ steps) }
{
    left_of_bits(subject, steps)
}

/// What is left of so many steps, if there are enough of them, when a test has taken one for each bit that it asks about. Only
/// tests of bits take any.
#[inline]
pub fn left_after_bits(test: &Test, subject: Subject<'_>, steps: u64) -> Option<u64>
    ensures { MatchOption result (steps < bits_asked (test_view test.now) (subject_view subject.entry)) (λ left. bits_asked (test_view test.now) (subject_view subject.entry) + left ≡ steps) }
{
    match test {
        Test::Bits(_) => left_of_test(subject, steps),
        _ => Some(steps),
    }
}
