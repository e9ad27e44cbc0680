//! Indexes of what stands in a table, by the literals that it is: the members of choices, and the entries of maps by their keys.

ghost use Rattle.std.specs.Prelude.{◌≡◌, ◌+◌, IfOk, IfSome, length};
ghost use Rattle.std.specs.List.{Contains};
ghost use Rattle.cddl_meaning.specs.Forms.{Choice, MapOf};
ghost use Rattle.next_same.specs.Chains.{AreBelow};
ghost use Rattle.table_nodes.specs.Choices.{type_in};
ghost use Rattle.table_nodes.specs.Indexes.{AreIndexed, IsOneMore};
ghost use Rattle.table_nodes.specs.Nodes.{alternatives_view, type_view};

use crate::choices::member_buckets;
use crate::codes::bucket_of;
use crate::entries::{are_led, entry_buckets};
use crate::fronts::front_in;
use crate::nodes::{MapEntry, Node, TypeId};
use item_nodes::Item;
use next_same::Chains;
use std::alloc::{AllocError, Global};

/// The members of a choice, or the entries of an alternative of a map, by the literals that they or their keys are. What may be
/// for an item is looked for among few of them.
#[derive(Drop)]
pub struct LiteralIndex {
    /// The choice or the map.
    of: TypeId,
    /// The number of the alternative, if it is a map's.
    way: usize,
    /// All in as many buckets as there are members or entries: those of whole numbers and of strings by their values. All others
    /// are in a bucket of their own, which comes last.
    chains: Chains,
}

/// The next ones that may be for an item, each by its position: of those that are in the item's bucket, and of those that are in
/// the last one.
#[derive(Clone, Copy, Debug)]
pub struct Candidates {
    literal: usize,
    other: usize,
}

impl Candidates {
    ghost use Rattle.std.specs.Prelude.{◌≡◌};
    ghost use Rattle.table_nodes.specs.Indexes.{first_of};

    /// The first of them, or the number of members or entries where there is none.
    #[inline(always)]
    pub fn first(self) -> usize
        ensures { result ≡ first_of self }
    {
        self.literal.min(self.other)
    }
}

impl LiteralIndex {
    ghost use Rattle.std.specs.Prelude.{◌≡◌, ◌<◌, List, Some, length, slice_get, suc, ℕ};
    ghost use Rattle.cbor_data.specs.Value.{Value};
    ghost use Rattle.item_nodes.specs.View.{view};
    ghost use Rattle.next_same.specs.Chains.{IsNext};
    ghost use Rattle.next_same.specs.Linked.{AreChains};
    ghost use Rattle.table_nodes.specs.Indexes.{AreNextIn, first_of};

    /// The first ones that may be for an item.
    #[inline]
    pub fn first(&self, item: &Item) -> Candidates
        ensures { (bs : List ℕ) (k : ℕ) → AreChains bs self.now.chains → length bs ≡ k → AreNextIn bs k (view item.now) 0 result }
    {
        let buckets = self.chains.len();
        Candidates {
            literal: self.chains.first(bucket_of(item, buckets)),
            other: self.chains.first(buckets),
        }
    }

    /// Those after the first one of these that may be for the same item.
    #[inline]
    pub fn after(&self, asked: Candidates) -> Candidates
        ensures { (bs : List ℕ) (k : ℕ) (x : Value) (from : ℕ) → AreChains bs self.now.chains → AreNextIn bs k x from asked → first_of asked < length bs → AreNextIn bs k x (suc (first_of asked)) result }
    {
        let first = asked.first();
        Candidates {
            literal: self.past(first, asked.literal),
            other: self.past(first, asked.other),
        }
    }

    // The position after this one that is in the same bucket, if it is the one that was asked.
    #[inline(always)]
    fn past(&self, asked: usize, position: usize) -> usize
        ensures same { asked ≡ position → (ns : List ℕ) (n : ℕ) → AreChains ns self.now.chains → slice_get ns position ≡ Some n → IsNext ns n (suc position) result }
        ensures other { (asked ≡ position → ⊥) → result ≡ position }
    {
        if position == asked {
            self.chains.after(position)
        } else {
            position
        }
    }

    // Whether it comes before that of an alternative of a type.
    #[inline]
    fn is_before(&self, of: TypeId, way: usize) -> bool {
        self.of.number < of.number || (self.of.number == of.number && self.way < way)
    }
}

// Puts an index after the others, whose members or entries are in these buckets.
fn push_index(
    alloc: Global,
    indexes: &mut Vec<LiteralIndex>,
    of: TypeId,
    way: usize,
    buckets: &[usize],
) -> Result<(), AllocError>
    requires { AreBelow (length buckets.now + 1) buckets.now }
    ensures { IfOk result (λ _. IsOneMore indexes.old.items of way buckets.now indexes.new.items) }
{
    let chains = Chains::new(alloc, buckets, buckets.len() + 1)?;
    indexes.push(LiteralIndex { of, way, chains })?;
    Ok(())
}

// Puts indexes of the alternatives of a map after the others.
fn push_indexes_of_map(
    alloc: Global,
    types: &[Node],
    of: TypeId,
    alternatives: &[Vec<MapEntry>],
    indexes: &mut Vec<LiteralIndex>,
) -> Result<(), AllocError>
    requires map { type_in types.now of ≡ MapOf (alternatives_view alternatives.now) }
    requires before { AreIndexed types.now indexes.old.items }
    ensures { IfOk result (λ _. AreIndexed types.now indexes.new.items) }
{
    let mut led = 0;
    for (way, entries) in alternatives.iter().enumerate() {
        led = front_in(alternatives, way).min(led);
        if are_led(led, entries) {
            continue;
        }
        led = 0;
        if let Some(buckets) = entry_buckets(alloc, types, entries)? {
            push_index(alloc, indexes, of, way, &buckets)?;
            led = entries.len();
        }
    }
    Ok(())
}

// Puts an index of the members of a choice after the others, if enough of them are literals.
fn push_index_of_choice(
    alloc: Global,
    types: &[Node],
    of: TypeId,
    members: &[TypeId],
    indexes: &mut Vec<LiteralIndex>,
) -> Result<(), AllocError>
    requires choice { type_in types.now of ≡ Choice members.now }
    requires before { AreIndexed types.now indexes.old.items }
    ensures { IfOk result (λ _. AreIndexed types.now indexes.new.items) }
{
    match member_buckets(alloc, types, members)? {
        Some(buckets) => push_index(alloc, indexes, of, 0, &buckets),
        None => Ok(()),
    }
}

// Puts the indexes of a type of this form after the others.
fn push_indexes_of(
    alloc: Global,
    types: &[Node],
    of: TypeId,
    form: &Node,
    indexes: &mut Vec<LiteralIndex>,
) -> Result<(), AllocError>
    requires form { type_in types.now of ≡ type_view form.now }
    requires before { AreIndexed types.now indexes.old.items }
    ensures { IfOk result (λ _. AreIndexed types.now indexes.new.items) }
{
    match form {
        Node::Choice(members) => push_index_of_choice(alloc, types, of, members, indexes),
        Node::MapOf(alternatives) => push_indexes_of_map(alloc, types, of, alternatives, indexes),
        _ => Ok(()),
    }
}

// The indexes of the choices of many literals and of the maps of many entries among these types.
pub(crate) fn indexes_of(alloc: Global, types: &[Node]) -> Result<Vec<LiteralIndex>, AllocError>
    ensures { IfOk result (λ v. AreIndexed types.now v.items) }
{
    let mut indexes = Vec::new(alloc);
    for (number, form) in types.iter().enumerate() {
        push_indexes_of(alloc, types, TypeId { number }, form, &mut indexes)?;
    }
    Ok(indexes)
}

// The index of this choice, or of an alternative of this map, if it has one. They are in the order of their types.
#[inline]
pub(crate) fn index_at(indexes: &[LiteralIndex], of: TypeId, way: usize) -> Option<&LiteralIndex>
    ensures { IfSome result (λ index. (index.now.of ≡ of) × (index.now.way ≡ way) × Contains indexes.now index.now) }
{
    let at = indexes.partition_point(|index| index.is_before(of, way));
    match indexes.get(at) {
        Some(index) if index.of.number == of.number && index.way == way => Some(index),
        _ => None,
    }
}
