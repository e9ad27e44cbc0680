//! Which entries of a map a pair passes over.

ghost use Rattle.std.specs.Prelude.{◌≡◌, IsTrue, true, false};
ghost use Rattle.cbor_data.specs.Same.{same_list, same_value};
ghost use Rattle.item_nodes.specs.View.{view};
ghost use Rattle.cddl_meaning.specs.Forms as F;
ghost use Rattle.table_nodes.specs.Language.{language_of};

use crate::tested::is_equal;
use item_nodes::Item;
use table_nodes::{MapEntry, Node, Table, Test, major_of};

/// Whether an entry is passed over by a pair with this key: its key type is known to be one value, and the key is another.
pub fn is_passed_over(table: &Table, entry: &MapEntry, key: &Item) -> bool
    ensures { result ≡ F.is_passed_over (language_of table.now).counting entry.now.key_type (view key.now) }
{
    match table.literal_of(entry.key_type) {
        Some(literal) => !is_equal(key, literal),
        None => false,
    }
}

// Whether strings of these bytes differ in their lengths.
#[inline(always)]
fn differ_in_length(some: &[u8], others: &[u8]) -> bool
    ensures { IsTrue result → same_list some.now others.now ≡ false }
{
    some.len() != others.len()
}

// Whether two items differ in their major types, their numbers or their lengths.
#[inline(always)]
fn differ_at_once(item: &Item, literal: &Item) -> bool
    ensures { IsTrue result → same_value (view item.now) (view literal.now) ≡ false }
{
    match (item, literal) {
        (Item::Uint(m), Item::Uint(n)) | (Item::Nint(m), Item::Nint(n)) => m != n,
        (Item::Bytes(some), Item::Bytes(others)) => differ_in_length(some, others),
        (Item::Text(some), Item::Text(others)) => {
            differ_in_length(some.as_bytes(), others.as_bytes())
        }
        _ => major_of(item) != major_of(literal),
    }
}

/// Whether it is seen at once that an entry is passed over by a pair with this key: its key type is a literal, which differs from the
/// key in its major type, its number or its length.
#[inline(always)]
pub fn is_passed_at_once(table: &Table, entry: &MapEntry, key: &Item) -> bool
    ensures { IsTrue result → F.is_passed_over (language_of table.now).counting entry.now.key_type (view key.now) ≡ true }
{
    match table.node(entry.key_type) {
        Some(Node::Plain(Test::Equals(literal))) => differ_at_once(key, literal),
        _ => false,
    }
}
