//! What is reported for an item that does not match.

use table_nodes::{Content, TypeId};
use type_links::Link;

/// Why a question has failed that asks nothing else that fails there.
#[derive(Clone, Copy)]
pub enum Cause {
    /// The item at the place, or the number of the tag or simple value there, is not of the last type.
    Value,
    /// In the array at the place no item is left for a member of this type, which has to be there. The last type is the array's.
    Missing {
        member: TypeId,
    },
    /// The member of an array that stands at the place is too much. The last type is the array's.
    TooMuch,
    /// The key at the place belongs to no entry of an alternative. The last type is the map's.
    Stray,
    /// So many pairs of the map at the place belong to the entry with this key type, and more are wanted.
    Few {
        key: TypeId,
        count: u64,
        least: u64,
    },
    /// The same, and fewer are wanted. `later` says whether an entry after that one has the same key type.
    Many {
        key: TypeId,
        count: u64,
        most: u64,
        later: bool,
    },
    /// The byte string at the place holds no item, or no sequence. The last type is the control's.
    NothingHeld {
        content: Content,
    },
}

/// A byte string that holds what a type asks about.
#[derive(Clone, Copy)]
pub struct Holder {
    /// Where it is.
    pub place: usize,
    /// Whether it was read as one item or as a sequence, which is the array of its items.
    pub content: Content,
}

/// A question that has failed.
#[derive(Drop)]
pub struct Reason {
    /// What led there: the types that are open, the root type first, and the alternatives of groups and their entries before the
    /// types that these ask. Right before the type of a map entry's value stands the type of its key.
    pub links: Vec<Link>,
    /// The byte strings in whose content that is, the outermost first. The place of each counts in what the one before it holds.
    pub strings: Vec<Holder>,
    /// Where it has failed: in the item, or in what the last of these strings holds.
    pub place: usize,
    pub cause: Cause,
    /// Whether the last open question that was asked of any items is a sequence of which a part before the one that is asked now has
    /// taken the last item, and need not have: an occurrence, which gives nothing back (RFC 8610 appendix A). That is reported where the
    /// number of items leaves nothing else, whatever each part has taken; and only where each of them that matters has rounds of one
    /// item. Of a further round that need not be it is not reported.
    pub greedy: bool,
}

/// Why an item does not match.
#[derive(Drop)]
pub struct Reasons {
    /// Where that shows.
    pub place: usize,
    /// The first reasons, in the order in which the questions have failed. A further round of an occurrence that has had enough is
    /// none where no item is left for it.
    pub list: Vec<Reason>,
    /// How many more there are.
    pub more: u64,
}
