//! The forms of an item, and when two items are equal.

ghost use Rattle.std.specs.Prelude.{◌≡◌, ◌↔◌, IsTrue};
ghost use Rattle.cbor_data.specs.Same.{same_list, same_value, same_values, same_pairs};
ghost use Rattle.item_nodes.specs.View.{view, values_view, pairs_view};

use cbor_data::Width;

/// An item of CBOR (RFC 8949 section 2). Two items are equal when they have the same form and equal parts; two floats,
/// when they have the same width and the same bits.
#[derive(Debug, Drop)]
pub enum Item {
    /// An unsigned integer, major type 0.
    Uint(u64),
    /// The negative integer -1 - n, major type 1.
    Nint(u64),
    /// A byte string, major type 2.
    Bytes(Vec<u8>),
    /// A text string, major type 3.
    Text(String),
    /// An array, major type 4.
    Array(Vec<Item>),
    /// A map, major type 5: its pairs in order.
    Map(Vec<(Item, Item)>),
    /// A tag, major type 6: its number and its content.
    Tag(u64, Box<Item>),
    /// A simple value, major type 7 (20 false, 21 true, 22 null, 23 undefined).
    Simple(u8),
    /// A float's width and bits, major type 7.
    Float(Width, u64),
}

impl PartialEq for Item {
    ghost use Rattle.item_nodes.specs.View.{view as item_view};
    ghost use Rattle.cbor_data.specs.Same.{same_value};
    ghost use Rattle.cbor_data.proofs.Lemmas.{same_value-laws};
    ghost use Rattle.std.proofs.Common.{◌∙◌};

    ghost eq = { λ a b. same_value (item_view a) (item_view b) };

    ghost laws = { let l = same_value-laws item_view in record { symm = l.symm; trans = λ a b c d e. l.congr a b c d ∙ e } };

    fn eq(&self, other: &Item) -> bool {
        is_same(self, other)
    }
}

impl Eq for Item {
    ghost use Rattle.item_nodes.specs.View.{view as item_view};
    ghost use Rattle.cbor_data.proofs.Lemmas.{same_value-laws};

    ghost laws = { same_value-laws item_view };
}

/// Whether two items stand for the same value.
#[cycle(same)]
pub fn is_same(a: &Item, b: &Item) -> bool
    ensures { result ≡ same_value (view a.now) (view b.now) }
{
    match a {
        Item::Uint(m) => matches!(b, Item::Uint(n) if m == n),
        Item::Nint(m) => matches!(b, Item::Nint(n) if m == n),
        Item::Bytes(s) => matches!(b, Item::Bytes(t) if are_bytes_same(s.as_slice(), t.as_slice())),
        Item::Text(s) => {
            matches!(b, Item::Text(t) if are_bytes_same(s.as_str().as_bytes(), t.as_str().as_bytes()))
        }
        Item::Array(xs) => matches!(b, Item::Array(ys) if are_members_same(xs, ys)),
        Item::Map(ps) => matches!(b, Item::Map(qs) if are_pairs_same(ps, qs)),
        Item::Tag(m, x) => matches!(b, Item::Tag(n, y) if m == n && is_same(x, y)),
        Item::Simple(m) => matches!(b, Item::Simple(n) if m == n),
        Item::Float(v, m) => matches!(b, Item::Float(w, n) if v == w && m == n),
    }
}

fn are_bytes_same(s: &[u8], t: &[u8]) -> bool
    ensures { result ≡ same_list s.now t.now }
{
    s == t
}

#[cycle(same)]
fn are_members_same(xs: &Vec<Item>, ys: &Vec<Item>) -> bool
    ensures { result ≡ same_values (values_view xs.now.items) (values_view ys.now.items) }
{
    if xs.len() != ys.len() {
        return false;
    }
    for (i, x) in xs.iter().enumerate() {
        if !is_same(x, &ys[i]) {
            return false;
        }
    }
    true
}

#[cycle(same)]
fn are_pairs_same(ps: &Vec<(Item, Item)>, qs: &Vec<(Item, Item)>) -> bool
    ensures { result ≡ same_pairs (pairs_view ps.now.items) (pairs_view qs.now.items) }
{
    if ps.len() != qs.len() {
        return false;
    }
    for (i, p) in ps.iter().enumerate() {
        let q = &qs[i];
        if !is_same(&p.0, &q.0) || !is_same(&p.1, &q.1) {
            return false;
        }
    }
    true
}
