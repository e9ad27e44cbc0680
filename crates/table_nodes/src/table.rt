//! A table: what is kept of a specification.

ghost use Rattle.std.specs.Prelude.{◌≡◌, max};
ghost use Rattle.cddl_meaning.specs.Ranks.Ranked.{IsRanked};
ghost use Rattle.table_nodes.specs.Fronts.{AreFronts, are_fronts_once};
ghost use Rattle.table_nodes.specs.Indexes.{AreIndexed, are_indexed_once};
ghost use Rattle.table_nodes.specs.Keys.{AreLiterals, are_literals_once};
ghost use Rattle.table_nodes.specs.Majors.{AreShown, are_shown_once};
ghost use Rattle.table_nodes.specs.Nodes.{language_in};
ghost use Rattle.table_nodes.specs.Ranks.{greatest, rank_in};

use crate::fronts::{Front, front_at, front_near, fronts_from, fronts_of};
use crate::indexes::{LiteralIndex, index_at, indexes_of};
use crate::keys::{literal_at, literals_of};
use crate::majors::{Told, known_of, told_of};
use crate::nodes::{Group, GroupId, MapEntry, Node, TypeId};
use crate::ranks::{NotRanked, Ranks, are_ranked, greatest};
use crate::{choices, entries};
use item_nodes::Item;
use std::alloc::{AllocError, Global};

/// Types and groups by their numbers, each with a rank, and the number of the root type. A number that is not there is a
/// type that says no to every item, or a group that fails.
#[derive(Drop)]
pub struct Table {
    types: Vec<Node>,
    groups: Vec<Group>,
    root: TypeId,
    type_ranks: Vec<usize>,
    group_ranks: Vec<usize>,
    ranks: usize,
    told: Vec<[Told; 8]>,
    literals: Vec<TypeId>,
    indexes: Vec<LiteralIndex>,
    fronts: Vec<Front>,
    pub ghost bound: { ranks ≡ max (greatest type_ranks.items) (greatest group_ranks.items) },
    pub ghost ranked: { IsRanked (language_in types.items groups.items) (rank_in type_ranks.items group_ranks.items) ranks },
    pub ghost shown: { AreShown types.items told.items } by { are_shown_once types.items told.items },
    pub ghost valued: { AreLiterals types.items literals.items } by { are_literals_once types.items literals.items },
    pub ghost indexed: { AreIndexed types.items indexes.items } by { are_indexed_once types.items indexes.items },
    pub ghost begun: { AreFronts types.items fronts.items } by { are_fronts_once types.items fronts.items },
}

impl Table {
    ghost use Rattle.std.specs.Prelude.{◌≡◌, ◌-◌, [], ℕ, Bool, List, None, Some, IfErr, IfOk, IfSome, IfNone, MatchOption, slice_get};
    ghost use Rattle.cddl_meaning.specs.Forms.{Alternatives, Choice, MapEntry as Entry, MapOf, key_in, most_forms};
    ghost use Rattle.item_nodes.specs.View.{view};
    ghost use Rattle.cddl_meaning.specs.Ranks.Flags.{AreFlags};
    ghost use Rattle.cddl_meaning.specs.Ranks.Ranked.{IsRanked};
    ghost use Rattle.table_nodes.specs.Nodes.{entries_view, group_view, language_in, type_view};
    ghost use Rattle.table_nodes.specs.Ranks.{flag_in, rank_in};
    ghost use Rattle.table_nodes.specs.Language.{language_of, rank_of, ranks_of, root_of, shown_of, told_of};
    ghost use Rattle.table_nodes.specs.Fronts.{BeginAlike};
    ghost use Rattle.table_nodes.specs.Indexes.{IsEntryIndexOf, IsIndexOf};
    ghost use Rattle.table_nodes.specs.Majors.{TellsOf, told_view};
    ghost use Rattle.table_nodes.specs.declared.nodes.TypeId.{TypeId};

    /// The table of these types and groups, each with its number in the list, and of this root type. Takes no memory, and
    /// looks at each part at most twice.
    ///
    /// # Errors
    ///
    /// [`NotRanked`] where what is free in a type or group has no lower rank, or where not just the groups that may take no
    /// item are flagged.
    pub fn new(
        types: Vec<Node>,
        groups: Vec<Group>,
        root: TypeId,
        ranks: Ranks,
    ) -> Result<Table, NotRanked>
        ensures language { IfOk result (λ table. language_of table ≡ language_in types.items groups.items) }
        ensures root { IfOk result (λ table. root_of table ≡ root) }
        ensures ranks { IfOk result (λ table. rank_of table ≡ rank_in ranks.types.items ranks.groups.items) }
        ensures refused { IfErr result (λ _. AreFlags (language_in types.items groups.items) (flag_in ranks.may_be_empty.items) → (bound : ℕ) → IsRanked (language_in types.items groups.items) (rank_in ranks.types.items ranks.groups.items) bound → ⊥) }
    {
        if !are_ranked(&types, &groups, &ranks) {
            return Err(NotRanked);
        }
        let Ranks {
            types: type_ranks,
            groups: group_ranks,
            ..
        } = ranks;
        let most = greatest(&type_ranks).max(greatest(&group_ranks));
        let told = Vec::new(*types.allocator());
        let literals = Vec::new(*types.allocator());
        let indexes = Vec::new(*types.allocator());
        let fronts = Vec::new(*types.allocator());
        Ok(Table {
            types,
            groups,
            root,
            type_ranks,
            group_ranks,
            ranks: most,
            told,
            literals,
            indexes,
            fronts,
        })
    }

    /// The same table, which keeps what each type says by the major type alone, as far as forms show it, and the one value that it is
    /// known to be. It takes 40 bytes and the same time for each type, and time for each of its parts.
    pub fn with_told(self, alloc: Global) -> Result<Table, AllocError>
        ensures language { IfOk result (λ table. language_of table ≡ language_of self) }
        ensures root { IfOk result (λ table. root_of table ≡ root_of self) }
        ensures rank { IfOk result (λ table. rank_of table ≡ rank_of self) }
        ensures ranks { IfOk result (λ table. ranks_of table ≡ ranks_of self) }
        ensures told { IfOk result (λ table. (n : TypeId) (m : ℕ) → told_of table n m ≡ shown_of table n m) }
    {
        let Table {
            types,
            groups,
            root,
            type_ranks,
            group_ranks,
            ranks,
            indexes,
            fronts,
            ..
        } = self;
        let told = told_of(alloc, &types)?;
        let literals = literals_of(alloc, &types)?;
        Ok(Table {
            types,
            groups,
            root,
            type_ranks,
            group_ranks,
            ranks,
            told,
            literals,
            indexes,
            fronts,
        })
    }

    /// The same table, in which the members of choices of many literals are looked up, and the entries of maps by their keys. It
    /// takes at most 24 bytes for each member of such a choice and each such entry, and time for each part of the types.
    pub fn with_indexes(self, alloc: Global) -> Result<Table, AllocError>
        ensures language { IfOk result (λ table. language_of table ≡ language_of self) }
        ensures root { IfOk result (λ table. root_of table ≡ root_of self) }
        ensures rank { IfOk result (λ table. rank_of table ≡ rank_of self) }
        ensures ranks { IfOk result (λ table. ranks_of table ≡ ranks_of self) }
        ensures told { IfOk result (λ table. (n : TypeId) (m : ℕ) → told_of table n m ≡ told_of self n m) }
    {
        let Table {
            types,
            groups,
            root,
            type_ranks,
            group_ranks,
            ranks,
            told,
            literals,
            ..
        } = self;
        let indexes = indexes_of(alloc, &types)?;
        let fronts = fronts_of(alloc, &types)?;
        Ok(Table {
            types,
            groups,
            root,
            type_ranks,
            group_ranks,
            ranks,
            told,
            literals,
            indexes,
            fronts,
        })
    }

    /// The number of the root type.
    pub fn root(&self) -> TypeId
        ensures { result ≡ root_of self.now }
    {
        self.root
    }

    /// The greatest rank of a type or a group.
    pub fn ranks(&self) -> usize
        ensures greatest { result ≡ ranks_of self.now }
        ensures ranked { IsRanked (language_of self.now) (rank_of self.now) result }
    {
        self.ranks
    }

    /// The type of this number, if it is there.
    pub fn node(&self, id: TypeId) -> Option<&Node>
        ensures found { IfSome result (λ node. (language_of self.now).type_at id ≡ type_view node.now) }
        ensures none { IfNone result ((language_of self.now).type_at id ≡ Choice []) }
    {
        self.types.get(id.number)
    }

    /// What the type of this number says of each item of this major type, at each place, if that is kept.
    #[inline(always)]
    pub fn told(&self, id: TypeId, major: u8) -> Told
        ensures told { told_view result ≡ told_of self.now id major }
        ensures shown { (t : Bool × ℕ) → told_view result ≡ Some t → shown_of self.now id major ≡ Some t }
        ensures says { (t : Bool × ℕ) → told_view result ≡ Some t → TellsOf (language_of self.now) id major t.0 t.1 }
    {
        known_of(&self.told, id, major)
    }

    /// The index of the members of a choice, if one is kept: where 16 of them or more are whole numbers or strings.
    #[inline]
    pub fn index_of(&self, choice: TypeId, members: &[TypeId]) -> Option<&LiteralIndex>
        ensures { (language_of self.now).type_at choice ≡ Choice members.now → IfSome result (λ index. IsIndexOf (language_of self.now).type_at members.now index.now) }
    {
        if !choices::may_have_index(members) {
            return None;
        }
        index_at(&self.indexes, choice, 0)
    }

    /// The index of the entries of an alternative of a map, by its number, if one is kept: where there are 10 of them or more,
    /// no key is a string of 1,024 bytes or more, and no more than 32 have keys that the index puts together.
    #[inline]
    pub fn entry_index_of(
        &self,
        map: TypeId,
        way: usize,
        entries: &[MapEntry],
    ) -> Option<&LiteralIndex>
        ensures { (ways : List (List (Entry TypeId))) → (language_of self.now).type_at map ≡ MapOf ways → slice_get ways way ≡ Some (entries_view entries.now) → IfSome result (λ index. IsEntryIndexOf (language_of self.now).type_at (entries_view entries.now) index.now) }
    {
        if !entries::may_have_index(entries) {
            return None;
        }
        index_at(&self.indexes, map, way)
    }

    /// With how many of its entries an alternative of a map, by its number, begins as the one before it does, as far as that is
    /// kept, else 0: it is kept of each alternative of fewer than 10 entries; and of the others where these are 10 or more, so that
    /// an index of the one before serves it.
    #[inline]
    pub fn front_of(&self, map: TypeId, way: usize) -> usize
        ensures { (ways : List (List (Entry TypeId))) (some others : List (Entry TypeId)) → (language_of self.now).type_at map ≡ MapOf ways → slice_get ways (way - 1) ≡ Some some → slice_get ways way ≡ Some others → BeginAlike result some others }
    {
        front_at(&self.fronts, map, way)
    }

    /// Where [`Table::front_near`] finds the first of the numbers that are kept of the alternatives of a map. The others follow, in
    /// the order of these.
    #[inline]
    pub fn fronts_from(&self, map: TypeId) -> usize {
        fronts_from(&self.fronts, map)
    }

    /// The same as [`Table::front_of`] without a search, where the number is kept at this position, else 0.
    #[inline(always)]
    pub fn front_near(&self, at: usize, map: TypeId, way: usize) -> usize
        ensures { (ways : List (List (Entry TypeId))) (some others : List (Entry TypeId)) → (language_of self.now).type_at map ≡ MapOf ways → slice_get ways (way - 1) ≡ Some some → slice_get ways way ≡ Some others → BeginAlike result some others }
    {
        front_near(&self.fronts, at, map, way)
    }

    /// The one value that a type is known to be by its form: a value, or what a name or a choice of one stands for, through 16 of
    /// these at most.
    #[inline(always)]
    pub fn literal_of(&self, id: TypeId) -> Option<&Item>
        ensures { MatchOption result (key_in (language_of self.now).type_at most_forms id ≡ None) (λ literal. key_in (language_of self.now).type_at most_forms id ≡ Some (view literal.now)) }
    {
        literal_at(&self.types, &self.literals, id)
    }

    /// The group of this number, if it is there.
    pub fn group(&self, id: GroupId) -> Option<&Group>
        ensures found { IfSome result (λ group. (language_of self.now).group_at id ≡ group_view group.now) }
        ensures none { IfNone result ((language_of self.now).group_at id ≡ Alternatives []) }
    {
        self.groups.get(id.number)
    }
}
