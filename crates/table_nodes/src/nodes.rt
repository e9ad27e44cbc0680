//! Types and groups, each known by its number.

use crate::sizes::NumberSet;
use cbor_data::Width;
use item_nodes::Item;

/// The number of a type in a table.
#[derive(Clone, Copy, Debug, PartialEq, Eq)]
pub struct TypeId {
    pub number: usize,
}

/// The number of a group in a table.
#[derive(Clone, Copy, Debug, PartialEq, Eq)]
pub struct GroupId {
    pub number: usize,
}

/// A whole number from -2^64 to 2^64 - 1.
#[derive(Clone, Copy, Debug, PartialEq, Eq)]
pub enum Whole {
    /// A number from 0 on.
    Uint(u64),
    /// -1 minus the number.
    Nint(u64),
}

/// What is asked of an item by itself.
#[derive(Drop)]
pub enum Test {
    /// Every item passes.
    Anything,
    /// Items of this major type, 0 to 7 (RFC 8949 section 3.1).
    Major(u8),
    /// This simple value.
    Simple(u8),
    /// Floats of this width.
    Float(Width),
    /// The items that are equal to this one.
    Equals(Item),
    /// Whole numbers from the first to the last, with the last one where the range is closed.
    Between {
        least: Whole,
        last: Whole,
        closed: bool,
    },
    /// The items that are not equal to this one (RFC 8610 section 3.8.6).
    Differs(Item),
    /// Whole numbers below this one (RFC 8610 section 3.8.6).
    Less(Whole),
    /// Whole numbers up to this one.
    AtMost(Whole),
    /// Whole numbers above this one.
    Greater(Whole),
    /// Whole numbers from this one on.
    AtLeast(Whole),
    /// Strings of such a number of bytes, and unsigned numbers that so many bytes can hold (RFC 8610 section 3.8.1).
    Sized(NumberSet),
    /// Byte strings and unsigned numbers of which each bit that is set has such a number (RFC 8610 section 3.8.2).
    Bits(NumberSet),
}

/// Which tag numbers are meant.
#[derive(Clone, Copy, Debug, PartialEq, Eq)]
pub enum TagNumber {
    /// Every number.
    Any,
    /// This one.
    Exactly(u64),
    /// The numbers to which this type says yes, as unsigned items.
    SuchAs(TypeId),
}

/// How often at most.
#[derive(Clone, Copy, Debug, PartialEq, Eq)]
pub enum Most {
    /// So often.
    AtMost(u64),
    /// As often as may be.
    Any,
}

/// An entry of a map: the pairs that belong to it.
#[derive(Clone, Copy, Debug, PartialEq, Eq)]
pub struct MapEntry {
    /// So many pairs at least.
    pub least: u64,
    /// So many pairs at most.
    pub most: Most,
    /// The type of their keys.
    pub key_type: TypeId,
    /// Whether a pair of such a key belongs to no later entry, whatever its value.
    pub cuts: bool,
    /// The type of their values.
    pub value_type: TypeId,
}

/// What is read in a byte string (RFC 8610 section 3.8.4).
#[derive(Clone, Copy, Debug, PartialEq, Eq)]
pub enum Content {
    /// One item.
    OneItem,
    /// A CBOR sequence, as the array of its items (RFC 8742).
    Sequence,
}

/// A type, asked of an item.
#[derive(Drop)]
pub enum Node {
    /// A test of the item by itself.
    Plain(Test),
    /// What another type says.
    Ref(TypeId),
    /// The first yes of these types, asked in order.
    Choice(Vec<TypeId>),
    /// An array whose items the group takes, all of them.
    ArrayOf(GroupId),
    /// A tag with such a number and a content of this type.
    TagOf(TagNumber, TypeId),
    /// Simple values to whose number, as an unsigned item, this type says yes.
    SimpleBy(TypeId),
    /// A map to which one of these alternatives says yes, each the list of its entries.
    MapOf(Vec<Vec<MapEntry>>),
    /// What both types say yes to, of which the left one is asked first.
    Both(TypeId, TypeId),
    /// What this type says yes to, if it passes the test.
    Such(TypeId, Test),
    /// The byte strings to which the first type says yes, and the second one to what they hold.
    Holding(TypeId, Content, TypeId),
}

/// A group, asked of a list of items.
#[derive(Drop)]
pub enum Group {
    /// One item of this type.
    Entry(TypeId),
    /// What another group does.
    Ref(GroupId),
    /// These groups, each with what the one before left.
    Sequence(Vec<GroupId>),
    /// The first of these groups that does not fail.
    Alternatives(Vec<GroupId>),
    /// The group again and again, at least and at most so often.
    Repeat {
        least: u64,
        most: Most,
        group: GroupId,
    },
}
