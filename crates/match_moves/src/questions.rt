//! Questions, the replies to them, and what waits for a reply.

use crate::counts::Counts;
use item_nodes::Item;
use match_tests::Subject;
use table_nodes::{Content, GroupId, MapEntry, Most, Test, TypeId};

/// A type asked of an item, a group asked of items, or an alternative of a map asked of pairs.
#[derive(Clone, Copy)]
pub enum Question<'t, 'i> {
    OfType {
        node: TypeId,
        place: usize,
        subject: Subject<'i>,
    },
    OfGroup {
        group: GroupId,
        /// The place of the array.
        base: usize,
        /// The place of the first of the items.
        place: usize,
        items: &'i [Item],
    },
    OfAlternative {
        entries: &'t [MapEntry],
        /// The place of the map.
        base: usize,
        pairs: &'i [(Item, Item)],
    },
}

/// What a group does: it takes items, or fails. A type that says yes leaves nothing.
#[derive(Clone, Copy)]
pub enum Reply<'i> {
    Takes {
        left: &'i [Item],
        /// The place after what was taken: that of the first item that is left.
        next: usize,
        /// The greatest place of the trials that failed.
        far: usize,
    },
    Fails {
        /// The greatest place of the trials that failed.
        far: usize,
    },
}

impl<'t, 'i> Question<'t, 'i> {
    ghost use Rattle.std.specs.Prelude.{◌≡◌};

    /// The same, read field by field: the whole is slow to copy where it was written just before.
    #[inline(always)]
    pub fn again(&self) -> Question<'t, 'i>
        ensures { result ≡ self.now }
    {
        match self {
            Question::OfType {
                node,
                place,
                subject,
            } => Question::OfType {
                node: *node,
                place: *place,
                subject: *subject,
            },
            Question::OfGroup {
                group,
                base,
                place,
                items,
            } => Question::OfGroup {
                group: *group,
                base: *base,
                place: *place,
                items: *items,
            },
            Question::OfAlternative {
                entries,
                base,
                pairs,
            } => Question::OfAlternative {
                entries: *entries,
                base: *base,
                pairs: *pairs,
            },
        }
    }
}

impl<'i> Reply<'i> {
    ghost use Rattle.std.specs.Prelude.{◌≡◌};

    /// The same, read field by field: the whole is slow to copy where it was written just before.
    #[inline(always)]
    pub fn again(&self) -> Reply<'i>
        ensures { result ≡ self.now }
    {
        match self {
            Reply::Takes { left, next, far } => Reply::Takes {
                left: *left,
                next: *next,
                far: *far,
            },
            Reply::Fails { far } => Reply::Fails { far: *far },
        }
    }
}

/// What an alternative's pairs have come to so far.
#[derive(Drop)]
pub struct Tally {
    /// How many pairs belong to each entry.
    pub counts: Counts,
    /// The place of the first key that belongs to no entry.
    pub stray: Option<usize>,
    /// Where the first value shows that is not as its entry says.
    pub failing: Option<usize>,
}

/// What becomes of a pair. An entry is named by how many entries come after it.
#[derive(Clone, Copy)]
pub enum Fate {
    /// It belongs to this entry, and its value is as the entry says.
    Matches {
        after: usize,
    },
    /// It belongs to this entry, and its value is not as the entry says.
    Fails {
        after: usize,
        /// Where that shows.
        far: usize,
    },
    /// Its key, at this place, belongs to no entry.
    Stray {
        place: usize,
    },
}

/// A pair that is sorted to the entries of an alternative.
#[derive(Drop)]
pub struct Sorting<'t, 'i> {
    /// All entries of the alternative.
    pub entries: &'t [MapEntry],
    /// The place of the map.
    pub base: usize,
    /// The place of the pair's key.
    pub place: usize,
    pub pair: &'i (Item, Item),
    /// The pairs after this one.
    pub rest: &'i [(Item, Item)],
    /// What the pairs before this one have come to.
    pub tally: Box<Tally>,
}

/// A pair that comes to an entry of its alternative.
#[derive(Drop)]
pub struct Entering<'t, 'i> {
    /// The entry, which is passed over or asked.
    pub entry: &'t MapEntry,
    /// Those after it.
    pub others: &'t [MapEntry],
    pub sorting: Sorting<'t, 'i>,
}

/// What waits for the reply to the question that it asked.
#[derive(Drop)]
pub enum Pending<'t, 'i> {
    /// The reply is this one's, too.
    Ref,
    Type(PendingType<'t, 'i>),
    Group(PendingGroup<'t, 'i>),
    Map(PendingMap<'t, 'i>),
}

/// A type that waits. `far` is the greatest place that failed so far.
#[derive(Clone, Copy)]
pub enum PendingType<'t, 'i> {
    /// A choice, and its members that are left.
    Choice {
        members: &'t [TypeId],
        place: usize,
        subject: Subject<'i>,
        far: usize,
    },
    /// An array, whose group has to take all items.
    Array,
    /// A tag whose number was asked about, and its content.
    Head {
        node: TypeId,
        place: usize,
        content: &'i Item,
    },
    /// A simple value whose number was asked about.
    Simple {
        place: usize,
    },
    /// The left one of two types, and the right one, which is asked if the left says yes.
    Left {
        node: TypeId,
        place: usize,
        subject: Subject<'i>,
    },
    /// A type, and the test that an item has to pass if the type says yes.
    Such {
        test: &'t Test,
        place: usize,
        subject: Subject<'i>,
    },
    /// A byte string's own type, and the one that is asked of what the string holds, if the first says yes.
    Holder {
        content: Content,
        node: TypeId,
        place: usize,
        subject: Subject<'i>,
    },
    /// A byte string whose content was asked about, and the place after it.
    Held {
        place: usize,
        next: usize,
    },
}

/// A group of an array that waits. `far` is the greatest place that failed so far.
#[derive(Clone, Copy)]
pub enum PendingGroup<'t, 'i> {
    /// An entry in the array at a base, and the items after the one that it may take.
    Entry {
        base: usize,
        rest: &'i [Item],
    },
    /// A sequence, and its parts that are left.
    Sequence {
        parts: &'t [GroupId],
        base: usize,
        far: usize,
    },
    /// A choice of groups, its parts that are left, and the items that each of them is asked of.
    Alternatives {
        parts: &'t [GroupId],
        base: usize,
        place: usize,
        items: &'i [Item],
        far: usize,
    },
    /// A repetition, and the rounds that are left, with the one that was asked about.
    Repeat(Rounds<'i>),
}

/// A map that waits, or an alternative of one.
#[derive(Drop)]
pub enum PendingMap<'t, 'i> {
    /// A map, its alternatives that are left, and what those before replied.
    Ways {
        alternatives: &'t [Vec<MapEntry>],
        base: usize,
        pairs: &'i [(Item, Item)],
        sofar: Reply<'i>,
    },
    /// An entry of an alternative whose key type was asked, and those after it.
    Key {
        entry: &'t MapEntry,
        others: &'t [MapEntry],
        sorting: Sorting<'t, 'i>,
    },
    /// An entry of an alternative whose value type was asked, and those after it.
    Value {
        entry: &'t MapEntry,
        others: &'t [MapEntry],
        sorting: Sorting<'t, 'i>,
    },
}

/// A byte string that is to be read.
#[derive(Clone, Copy)]
pub struct Reading<'i> {
    pub content: Content,
    pub bytes: &'i [u8],
    /// What is asked of what the string holds.
    pub node: TypeId,
    /// The place of the string.
    pub place: usize,
    /// The place after it.
    pub next: usize,
}

/// A test of bits, and the item whose bits are weighed.
#[derive(Clone, Copy)]
pub struct Weighing<'t, 'i> {
    pub test: &'t Test,
    pub subject: Subject<'i>,
    /// The place of the item.
    pub place: usize,
    /// The place after it.
    pub next: usize,
}

/// How many more rounds of a group a repetition takes, and of what.
#[derive(Clone, Copy)]
pub struct Rounds<'i> {
    pub least: u64,
    pub most: Most,
    pub group: GroupId,
    /// The place of the array.
    pub base: usize,
    /// The place of the first of the items.
    pub place: usize,
    pub items: &'i [Item],
    /// The greatest place that failed so far.
    pub far: usize,
}

/// What becomes of a repetition after a round.
#[derive(Clone, Copy)]
pub enum Round<'i> {
    /// There may be another one.
    Another(Rounds<'i>),
    /// The repetition has ended with this reply.
    Over(Reply<'i>),
}

/// The groups of a sequence that are left, and the items that are left for them.
#[derive(Clone, Copy)]
pub struct Parts<'t, 'i> {
    pub parts: &'t [GroupId],
    /// The place of the array.
    pub base: usize,
    /// The place of the first of the items.
    pub place: usize,
    pub items: &'i [Item],
    /// The greatest place that failed so far.
    pub far: usize,
}

impl<'t, 'i> Parts<'t, 'i> {
    ghost use Rattle.std.specs.Prelude.{◌≡◌};
    ghost use Rattle.cddl_meaning.specs.Moves.{next_part};
    ghost use Rattle.match_moves.specs.Views.{parts_move, values};

    /// All groups of a sequence in the array at `base`, before any is asked.
    #[inline]
    pub fn new(parts: &'t [GroupId], base: usize, place: usize, items: &'i [Item]) -> Parts<'t, 'i>
        ensures { parts_move result ≡ next_part parts.now base place (values items.now) base }
    {
        Parts {
            parts,
            base,
            place,
            items,
            far: base,
        }
    }
}

impl<'i> Rounds<'i> {
    ghost use Rattle.std.specs.Prelude.{◌≡◌};
    ghost use Rattle.cddl_meaning.specs.Moves.{repetition};
    ghost use Rattle.match_moves.specs.Views.{rounds_move, values};
    ghost use Rattle.table_nodes.specs.Nodes.{most_view};

    /// All rounds of a repetition in the array at `base`, before any is asked.
    #[inline]
    pub fn new(
        least: u64,
        most: Most,
        group: GroupId,
        base: usize,
        place: usize,
        items: &'i [Item],
    ) -> Rounds<'i>
        ensures { rounds_move result ≡ repetition least (most_view most) group base place (values items.now) base }
    {
        Rounds {
            least,
            most,
            group,
            base,
            place,
            items,
            far: base,
        }
    }
}

/// What a question comes to: its reply, or what is next before that.
#[derive(Drop)]
pub enum Move<'t, 'i> {
    Answered(Reply<'i>),
    /// What is asked. What waits for its reply stands where the question that asks it waits.
    Asks(Question<'t, 'i>),
    /// A pair is tried with the entries of its alternative.
    Tries(Sorting<'t, 'i>),
    /// A pair is tried with one of them, before those after it.
    Enters(Entering<'t, 'i>),
    /// A type is asked of what a byte string holds.
    Reads(Reading<'i>),
    /// The bits of an item that are set are steps, and are tested then.
    Weighs(Weighing<'t, 'i>),
}
