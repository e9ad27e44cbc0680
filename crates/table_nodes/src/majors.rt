//! What types say by the major type alone (RFC 8949 section 3.1): of every item of that major type.

ghost use Rattle.std.specs.Prelude.{◌≡◌, ℕ, IfOk, Some, nat_lt};
ghost use Rattle.cddl_meaning.specs.Forms.{major_of};
ghost use Rattle.item_nodes.specs.View.{view};
ghost use Rattle.table_nodes.specs.Majors.{at_once, form_shows, kept, members_show, most_shown, next_shows, no_but, no_more, one_more, row_tells, kept_where, shows, test_shows, told_in, told_view, types_in};
ghost use Rattle.table_nodes.specs.Nodes.{test_view, type_view};
ghost use Rattle.table_nodes.specs.declared.nodes.TypeId.{TypeId};

use crate::nodes::{Node, Test, TypeId};
use item_nodes::Item;
use std::alloc::{AllocError, Global};

/// What a type says of every item of a major type, at each place.
#[derive(Clone, Copy, Debug, PartialEq, Eq)]
pub enum Told {
    /// That is not known by the major type alone, or not kept.
    Nothing,
    /// Yes, in so many judgements.
    Yes(u16),
    /// No, which shows at the item, in so many judgements.
    No(u16),
}

/// What takes more judgements than this is not kept.
const MOST_KEPT: u32 = 65_535;

/// So many forms are gone through.
const MOST_SHOWN: u8 = 16;

/// The major type of an item (RFC 8949 section 3.1).
#[inline]
pub fn major_of(item: &Item) -> u8
    ensures { result ≡ major_of (view item.now) }
{
    match item {
        Item::Uint(_) => 0,
        Item::Nint(_) => 1,
        Item::Bytes(_) => 2,
        Item::Text(_) => 3,
        Item::Array(_) => 4,
        Item::Map(_) => 5,
        Item::Tag(_, _) => 6,
        Item::Simple(_) | Item::Float(_, _) => 7,
    }
}

// What is known of a type, of the items of a major type.
#[inline(always)]
pub(crate) fn known_of(known: &[[Told; 8]], id: TypeId, major: u8) -> Told
    ensures { told_view result ≡ told_in known.now id major }
{
    match known.get(id.number) {
        Some(row) => told_of_row(row, major),
        None => Told::Nothing,
    }
}

// What a row keeps of a major type.
#[inline(always)]
fn told_of_row(row: &[Told; 8], major: u8) -> Told
    ensures { told_view result ≡ row_tells (Some row.now) major }
{
    match row.get(usize::from(major)) {
        Some(told) => *told,
        None => Told::Nothing,
    }
}

// What is kept of a yes or a no in so many judgements.
fn kept(says: bool, cost: u32) -> Told
    ensures { told_view result ≡ kept (Some (says, cost)) }
{
    if cost > MOST_KEPT {
        return Told::Nothing;
    }
    let cost = cost as u16;
    if says {
        Told::Yes(cost)
    } else {
        Told::No(cost)
    }
}

// No, but of items of a certain major type.
fn no_but(own: bool) -> Told
    ensures { told_view result ≡ kept (at_once (no_but own)) }
{
    if own { Told::Nothing } else { Told::No(1) }
}

// What a test says of the items of a major type.
fn test_tells(test: &Test, major: u8) -> Told
    ensures { told_view result ≡ kept (at_once (test_shows (test_view test.now) major)) }
{
    match test {
        Test::Anything => Told::Yes(1),
        Test::Major(wanted) => kept(major == *wanted, 1),
        Test::Simple(_) | Test::Float(_) => no_but(major == 7),
        Test::Equals(literal) => no_but(major == major_of(literal)),
        Test::Between { .. } => no_but(major <= 1),
        Test::Differs(_)
        | Test::Less(_)
        | Test::AtMost(_)
        | Test::Greater(_)
        | Test::AtLeast(_)
        | Test::Sized(_)
        | Test::Bits(_) => Told::Nothing,
    }
}

// What a type says of which this is asked first, in one judgement more.
fn one_more(told: Told) -> Told
    ensures { told_view result ≡ kept (one_more (told_view told)) }
{
    match told {
        Told::Nothing => Told::Nothing,
        Told::Yes(cost) => kept(true, u32::from(cost) + 1),
        Told::No(cost) => kept(false, u32::from(cost) + 1),
    }
}

// What a type says that asks more where this one says yes, in one judgement more.
fn no_more(told: Told) -> Told
    ensures { told_view result ≡ kept (no_more (told_view told)) }
{
    match told {
        Told::No(cost) => kept(false, u32::from(cost) + 1),
        _ => Told::Nothing,
    }
}

// What a choice of these members says, asked in order.
fn members_tell(members: &[TypeId], known: &[[Told; 8]], major: u8) -> Told
    ensures { told_view result ≡ kept (one_more (members_show (λ n. told_in known.now n major) members.now)) }
{
    let mut asked: u32 = 0;
    for member in members {
        match known_of(known, *member, major) {
            Told::Nothing => return Told::Nothing,
            Told::Yes(cost) => return kept(true, asked + u32::from(cost) + 1),
            Told::No(cost) => asked += u32::from(cost),
        }
        if asked > MOST_KEPT {
            return Told::Nothing;
        }
    }
    kept(false, asked + 1)
}

// What a type of this form says of the items of a major type, by what is known of other types.
fn form_tells(form: &Node, known: &[[Told; 8]], major: u8) -> Told
    ensures { told_view result ≡ kept (form_shows (λ n. told_in known.now n major) (type_view form.now) major) }
{
    match form {
        Node::Plain(test) => test_tells(test, major),
        Node::Ref(to) => one_more(known_of(known, *to, major)),
        Node::Choice(members) => members_tell(members, known, major),
        Node::ArrayOf(_) => no_but(major == 4),
        Node::MapOf(_) => no_but(major == 5),
        Node::TagOf(_, _) => no_but(major == 6),
        Node::SimpleBy(_) => no_but(major == 7),
        Node::Both(left, _) | Node::Such(left, _) | Node::Holding(left, _, _) => {
            no_more(known_of(known, *left, major))
        }
    }
}

// What a type of this form says of the items of each major type.
fn row_of(form: &Node, known: &[[Told; 8]]) -> [Told; 8]
    ensures { (m : ℕ) → row_tells (Some result) m ≡ kept_where (nat_lt m 8) (kept (form_shows (λ n. told_in known.now n m) (type_view form.now) m)) }
{
    [
        form_tells(form, known, 0),
        form_tells(form, known, 1),
        form_tells(form, known, 2),
        form_tells(form, known, 3),
        form_tells(form, known, 4),
        form_tells(form, known, 5),
        form_tells(form, known, 6),
        form_tells(form, known, 7),
    ]
}

// What is known of these types through one form more.
fn further(alloc: Global, types: &[Node], known: &[[Told; 8]]) -> Result<Vec<[Told; 8]>, AllocError>
    ensures { IfOk result (λ rows. (n : TypeId) (m : ℕ) → told_in rows.items n m ≡ next_shows (types_in types.now) (told_in known.now) n m) }
{
    let mut rows = Vec::with_capacity(alloc, types.len())?;
    for form in types {
        rows.push(row_of(form, known))?;
    }
    Ok(rows)
}

// What these types say by the major type alone, as their forms show through so many of them. It takes time in proportion to
// the types and their parts.
pub(crate) fn told_of(alloc: Global, types: &[Node]) -> Result<Vec<[Told; 8]>, AllocError>
    ensures { IfOk result (λ rows. (n : TypeId) (m : ℕ) → told_in rows.items n m ≡ shows (types_in types.now) most_shown n m) }
{
    let mut rows = Vec::new(alloc);
    for round in 0..MOST_SHOWN {
        rows = further(alloc, types, &rows)?;
    }
    Ok(rows)
}
