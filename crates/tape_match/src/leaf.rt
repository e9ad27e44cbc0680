//! Tests of items on a tape.
ghost use Rattle.std.specs.Prelude.{◌≡◌, ◌+◌, ◌≤◌, IfSome, IsTrue, not};
ghost use Rattle.cbor_data.specs.Same.{same_list, same_value};
ghost use Rattle.cbor_data.specs.Value.{Value, text as text_value};
ghost use Rattle.cbor_tape.specs.Places.{IsSeen};
ghost use Rattle.cbor_tape.specs.declared.places.Taped.{Taped};
ghost use Rattle.cddl_meaning.specs.Forms.{bits_asked, passes};
ghost use Rattle.item_nodes.specs.View.{view};
ghost use Rattle.table_nodes.specs.Nodes.{test_view};

use crate::told::Tested;
use cbor_tape::Seen;
use item_nodes::Item;
use match_tests::{Subject, left_after_bits, passes as item_passes, passes_test};
use table_nodes::Test;

/// Strings of so many bytes are not compared: that may take longer than a judgement.
const LONG: usize = 1_024;

// Whether a test of a string of so many bytes takes no longer than a judgement.
#[inline(always)]
fn is_quick(test: &Test, length: usize) -> bool {
    length < LONG || !matches!(test, Test::Equals(_) | Test::Differs(_))
}

// Whether an item passes a test, if it has no parts.
#[inline(always)]
pub(crate) fn seen_passes(test: &Test, seen: Seen<'_>) -> Option<bool>
    ensures { IfSome result (λ says. (t : Taped) (x : Value) → IsSeen t x seen.entry → passes (test_view test.now) x ≡ says) }
{
    match seen {
        Seen::Uint(number) => Some(passes_test(test, Subject::Number(number))),
        Seen::Bytes(bytes) if is_quick(test, bytes.len()) => {
            Some(passes_test(test, Subject::Bytes(bytes)))
        }
        Seen::Text(text) if is_quick(test, text.len()) => Some(text_passes(test, text)),
        Seen::Nint(number) => Some(item_passes(test, &Item::Nint(number))),
        Seen::Simple(number) => Some(item_passes(test, &Item::Simple(number))),
        Seen::Float(width, bits) => Some(item_passes(test, &Item::Float(width, bits))),
        Seen::Bytes(_) | Seen::Text(_) => None,
        Seen::Array { .. } | Seen::Map { .. } | Seen::Tag { .. } => None,
    }
}

// Whether these are the same bytes.
fn are_same(some: &[u8], others: &[u8]) -> bool
    ensures { result ≡ same_list some.now others.now }
{
    some == others
}

// Whether a literal is the text of these bytes.
fn is_text(literal: &Item, bytes: &[u8]) -> bool
    ensures { result ≡ same_value (text_value bytes.now) (view literal.now) }
{
    match literal {
        Item::Text(text) => are_same(bytes, text.as_bytes()),
        _ => false,
    }
}

// Whether a text of these bytes passes a test.
#[inline(never)]
fn text_passes(test: &Test, bytes: &[u8]) -> bool
    ensures { result ≡ passes (test_view test.now) (text_value bytes.now) }
{
    match test {
        Test::Anything => true,
        Test::Major(major) => *major == 3,
        Test::Equals(literal) => is_text(literal, bytes),
        Test::Differs(literal) => !is_text(literal, bytes),
        Test::Sized(sizes) => sizes.has(bytes.len() as u128),
        Test::Simple(_)
        | Test::Float(_)
        | Test::Between { .. }
        | Test::Less(_)
        | Test::AtMost(_)
        | Test::Greater(_)
        | Test::AtLeast(_) => false,
        Test::Bits(_) => false,
    }
}

// Whether a test asks about no bits.
#[inline(always)]
fn asks_no_bits(test: &Test) -> bool
    ensures { IsTrue result → (x : Value) → bits_asked (test_view test.now) x ≡ 0 }
{
    match test {
        Test::Bits(_) => false,
        Test::Anything
        | Test::Major(_)
        | Test::Simple(_)
        | Test::Float(_)
        | Test::Equals(_)
        | Test::Between { .. }
        | Test::Differs(_)
        | Test::Less(_)
        | Test::AtMost(_)
        | Test::Greater(_)
        | Test::AtLeast(_)
        | Test::Sized(_) => true,
    }
}

// What is left of so many judgements when a test has taken one for each bit of an item that it asks about.
#[inline(always)]
fn left_after(test: &Test, seen: Seen<'_>, most: u64) -> Option<u64>
    ensures { IfSome result (λ left. (t : Taped) (x : Value) → IsSeen t x seen.entry → bits_asked (test_view test.now) x + left ≡ most) }
{
    if asks_no_bits(test) {
        return Some(most);
    }
    match seen {
        Seen::Uint(number) => left_after_bits(test, Subject::Number(number), most),
        Seen::Bytes(bytes) if bytes.len() < LONG => {
            left_after_bits(test, Subject::Bytes(bytes), most)
        }
        _ => None,
    }
}

// What a test of an item says, if it asks about no more bits than so many.
#[inline(always)]
pub(crate) fn tested(test: &Test, seen: Seen<'_>, most: u64) -> Option<Tested>
    ensures told { IfSome result (λ r. (t : Taped) (x : Value) → IsSeen t x seen.entry → (passes (test_view test.now) x ≡ r.says) × (bits_asked (test_view test.now) x ≡ r.bits)) }
    ensures within { IfSome result (λ r. r.bits ≤ most) }
{
    let Some(left) = left_after(test, seen, most) else {
        return None;
    };
    let Some(says) = seen_passes(test, seen) else {
        return None;
    };
    Some(Tested {
        says,
        bits: most.saturating_sub(left),
    })
}

// Whether an item is surely another than this literal: it has another major type, or is a number or a string of one part that differs.
#[inline(always)]
pub(crate) fn is_other(seen: Seen<'_>, literal: &Item) -> Option<bool>
    ensures { IfSome result (λ other. (t : Taped) (x : Value) → IsSeen t x seen.entry → not (same_value x (view literal.now)) ≡ other) }
{
    match (seen, literal) {
        (Seen::Uint(m), Item::Uint(n)) | (Seen::Nint(m), Item::Nint(n)) => Some(m != *n),
        (Seen::Bytes(some), Item::Bytes(others)) if some.len() < LONG => {
            Some(!are_same(some, others.as_slice()))
        }
        (Seen::Text(some), Item::Text(others)) if some.len() < LONG => {
            Some(!are_same(some, others.as_bytes()))
        }
        (Seen::Uint(_), Item::Text(_) | Item::Nint(_) | Item::Bytes(_)) => Some(true),
        (Seen::Nint(_), Item::Text(_) | Item::Uint(_) | Item::Bytes(_)) => Some(true),
        (Seen::Bytes(_), Item::Text(_) | Item::Uint(_) | Item::Nint(_)) => Some(true),
        (Seen::Text(_), Item::Bytes(_) | Item::Uint(_) | Item::Nint(_)) => Some(true),
        (
            Seen::Array { .. }
            | Seen::Map { .. }
            | Seen::Tag { .. }
            | Seen::Simple(_)
            | Seen::Float(_, _),
            Item::Uint(_) | Item::Nint(_) | Item::Bytes(_) | Item::Text(_),
        ) => Some(true),
        _ => None,
    }
}
