//! A table made of the closed terms of a specification.

ghost use Rattle.std.specs.Prelude.{◌≡◌, ℕ, IfErr, IfOk, List, Some, false, map, slice_get};
ghost use Rattle.cddl_language.specs.Kinds.{is_group};
ghost use Rattle.cddl_language.specs.StandsFor.{StandsFor};
ghost use Rattle.cddl_table.specs.Origins.{AreOrigins};
ghost use Rattle.cddl_table.specs.Ranks.{ArePlaces, LeavesNoRankOut, group_rank, type_rank};
ghost use Rattle.table_making.specs.Basis.{IsSource, Sense};
ghost use Rattle.check_recursion.specs.Order.{AreRanked};
ghost use Rattle.cddl_meaning.specs.Ranks.Flags.{AreFlags};
ghost use Rattle.cddl_meaning.specs.Ranks.Ranked.{IsRanked};
ghost use Rattle.table_nodes.specs.Nodes.{language_in};
ghost use Rattle.table_nodes.specs.Ranks.{flag_in, rank_in};
ghost use Rattle.table_nodes.specs.declared.nodes.Node.{Node};
ghost use Rattle.table_nodes.specs.Language.{language_of, rank_of, ranks_of, root_of};
ghost use Rattle.cddl_table.specs.declared.table.Unmade.{Unmade as Unmades};
ghost use Rattle.cddl_table.specs.declared.table.Unmade.TheVariants as Why;

use crate::order::{places, used_ranks};
use crate::ranks::{group_ranks, type_ranks};
use crate::root::root_place;
use cddl_decided::empty_by_form;
use check_instances::closed::laws::{meaning_at, meanings_are_reached};
use check_instances::openings::laws::part_is_reached;
use check_recursion::Ranks;
use check_terms::laws::equal_numbers;
use check_terms::{NoRoom, Terms};
use std::alloc::{AllocError, Global};
use table_making::{Nodes, Source, TypeOrigin, nodes_of};
use table_nodes::flags::flags_of;
use table_nodes::{Group, Node as TableNode, Ranks as NodeRanks, Table, TypeId};

// Why there is no table.
#[derive(Clone, Copy, Debug, PartialEq, Eq)]
pub(crate) enum Unmade {
    /// Memory was refused, or a number does not fit.
    NoRoom,
    /// The ranks do not go down, or the root has no place: this never comes of a specification's own instances and ranks.
    NotRanked,
}

impl From<NoRoom> for Unmade {
    ghost from_gives = { λ _ e. e ≡ Why.NoRoom };

    fn from(_: NoRoom) -> Self {
        Unmade::NoRoom
    }
}

impl From<AllocError> for Unmade {
    ghost from_gives = { λ _ e. e ≡ Why.NoRoom };

    fn from(_: AllocError) -> Self {
        Unmade::NoRoom
    }
}

/// A table, and what each of its types is of.
#[derive(Drop)]
pub struct Traced {
    /// The table.
    pub table: Table,
    /// What each type is of, by its number.
    pub origins: Vec<TypeOrigin>,
}

// The table of a specification (RFC 8610 sections 2 and 3): a type or a group for each of its instances and for what their
// parts ask for, each with a rank that is above those of what it asks of the same item. Each type comes with what it is of.
//
// It is given the table of terms, what is known of the instances and of the rows, ranks of what they ask, and the number of the
// root's name. NoRoom is reported where memory is refused or a number does not fit. NotRanked never comes where what is given is of
// one specification, and the root is a name of a type.
pub(crate) fn traced_of(
    alloc: Global,
    terms: &Terms<'_>,
    source: &Source<'_>,
    ranks: &Ranks,
    root: u32,
) -> Result<Traced, Unmade>
    ensures stands { IfOk result (λ x. (s : Sense) → IsSource s terms.now source.now → slice_get terms.now.texts root ≡ Some s.root → is_group s.definitions s.root ≡ false → AreRanked s.definitions s.root s.refs terms.now ranks.now → StandsFor s.worth s.definitions s.root (language_of x.table) (root_of x.table) (rank_of x.table) (ranks_of x.table)) }
    ensures ranks { IfOk result (λ x. LeavesNoRankOut x.table) }
    ensures traced { IfOk result (λ x. (s : Sense) → IsSource s terms.now source.now → slice_get terms.now.texts root ≡ Some s.root → is_group s.definitions s.root ≡ false → AreOrigins s terms.now x) }
    ensures ranked { IfErr result (λ why. why ≡ Why.NotRanked → (s : Sense) → IsSource s terms.now source.now → slice_get terms.now.texts root ≡ Some s.root → is_group s.definitions s.root ≡ false → AreRanked s.definitions s.root s.refs terms.now ranks.now → ⊥) }
{
    equal_numbers(terms);
    meaning_at();
    meanings_are_reached();
    part_is_reached();
    empty_by_form();
    let Some(place) = root_place(terms, source.closed, root) else {
        return Err(Unmade::NotRanked);
    };
    let nodes = nodes_of(alloc, terms, source, place)?;
    let ranks = ranks_of(alloc, ranks, &nodes)?;
    let Nodes {
        types,
        groups,
        root,
        type_origins,
        ..
    } = nodes;
    let table = ranked_table(alloc, types, groups, root, ranks)?;
    Ok(Traced {
        table,
        origins: type_origins,
    })
}

// Ranks of the types and groups, numbered by the order of those that are used, and which groups may take no item.
fn ranks_of(alloc: Global, ranks: &Ranks, nodes: &Nodes) -> Result<NodeRanks, Unmade>
    ensures ranks { IfOk result (λ v. ArePlaces (map (type_rank ranks.now) nodes.now.type_origins.items) (map (group_rank ranks.now) nodes.now.group_origins.items) v.types.items v.groups.items) }
    ensures flags { IfOk result (λ v. (types : List Node) → AreFlags (language_in types nodes.now.groups.items) (flag_in v.may_be_empty.items)) }
    ensures none { IfErr result (λ why. why ≡ Why.NoRoom) }
{
    let types = type_ranks(alloc, ranks, &nodes.type_origins)?;
    let groups = group_ranks(alloc, ranks, &nodes.group_origins)?;
    let used = used_ranks(alloc, &types, &groups)?;
    Ok(NodeRanks {
        types: places(alloc, &used, &types)?,
        groups: places(alloc, &used, &groups)?,
        may_be_empty: flags_of(alloc, &nodes.groups)?,
    })
}

// The table of these types and groups, with their ranks and what is known of them.
fn ranked_table(
    alloc: Global,
    types: Vec<TableNode>,
    groups: Vec<Group>,
    root: TypeId,
    ranks: NodeRanks,
) -> Result<Table, Unmade>
    ensures language { IfOk result (λ table. language_of table ≡ language_in types.items groups.items) }
    ensures root { IfOk result (λ table. root_of table ≡ root) }
    ensures ranks { IfOk result (λ table. rank_of table ≡ rank_in ranks.types.items ranks.groups.items) }
    ensures ranked { IfOk result (λ table. IsRanked (language_of table) (rank_of table) (ranks_of table)) }
    ensures refused { IfErr result (λ why. why ≡ Why.NotRanked → AreFlags (language_in types.items groups.items) (flag_in ranks.may_be_empty.items) → (bound : ℕ) → IsRanked (language_in types.items groups.items) (rank_in ranks.types.items ranks.groups.items) bound → ⊥) }
{
    match Table::new(types, groups, root, ranks) {
        Ok(table) => {
            let told = table.with_told(alloc)?;
            let table = told.with_indexes(alloc)?;
            table.ranks();
            Ok(table)
        }
        Err(_) => Err(Unmade::NotRanked),
    }
}
