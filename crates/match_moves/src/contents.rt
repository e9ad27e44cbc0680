//! What is in an item.

ghost use Rattle.std.specs.Prelude.{◌≡◌, Some, None, MatchOption};
ghost use Rattle.item_nodes.specs.View.{pairs_view, view};
ghost use Rattle.cddl_meaning.specs.Forms.{bytes_in, members_in, pairs_in, simple_in};
ghost use Rattle.match_moves.specs.Views.{values};

use item_nodes::Item;

/// The members of an array.
#[tactic(auto, using(crate::proofs::Lists::members_of_values, crate::proofs::Lists::members_of_array))]
#[inline]
pub fn items_of(item: &Item) -> Option<&[Item]>
    ensures { MatchOption result (members_in (view item.now) ≡ None) (λ items. members_in (view item.now) ≡ Some (values items.now)) }
{
    match item {
        Item::Array(items) => Some(items.as_slice()),
        _ => None,
    }
}

/// The pairs of a map.
#[tactic(auto, using(crate::proofs::Lists::pairs_of_map))]
#[inline]
pub fn pairs_of(item: &Item) -> Option<&[(Item, Item)]>
    ensures { MatchOption result (pairs_in (view item.now) ≡ None) (λ pairs. pairs_in (view item.now) ≡ Some (pairs_view pairs.now)) }
{
    match item {
        Item::Map(pairs) => Some(pairs.as_slice()),
        _ => None,
    }
}

/// The bytes of a byte string.
#[inline]
pub fn bytes_of(item: &Item) -> Option<&[u8]>
    ensures { MatchOption result (bytes_in (view item.now) ≡ None) (λ bytes. bytes_in (view item.now) ≡ Some bytes.now) }
{
    match item {
        Item::Bytes(bytes) => Some(bytes.as_slice()),
        _ => None,
    }
}

/// The number of a simple value.
#[inline]
pub fn simple_of(item: &Item) -> Option<u64>
    ensures { MatchOption result (simple_in (view item.now) ≡ None) (λ number. simple_in (view item.now) ≡ Some number) }
{
    match item {
        Item::Simple(number) => Some(u64::from(*number)),
        _ => None,
    }
}
