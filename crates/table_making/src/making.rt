//! All types and groups of a specification for its table, each with what it is of.

ghost use Rattle.std.specs.Prelude.{◌≡◌, IfOk, Some, false, slice_get};
ghost use Rattle.cddl_language.specs.Kinds.{is_group};
ghost use Rattle.cddl_language.specs.Terms.{call, no_terms};
ghost use Rattle.table_making.specs.Basis.{IsSource, Sense};
ghost use Rattle.table_making.specs.Nodes.{AreNodes};

use crate::instances::number_instances;
use crate::numbers::Numbers;
use crate::origin::{GroupOrigin, TypeOrigin};
use crate::search::Search;
use crate::source::Source;
use check_terms::laws::equal_numbers;
use check_terms::{NoRoom, Terms};
use rooms::Room;
use std::alloc::Global;
use table_nodes::{Group, Node, TypeId};

/// How many parts forms may have beside those that the rows give room for.
const PARTS: u64 = 262_144;

/// For how many parts of forms each row of the terms gives room.
const PARTS_OF_A_ROW: u64 = 8;

/// How many parts of groups may be gone through for the alternatives of maps, beside those that the rows give room for.
const STEPS: u64 = 4_194_304;

/// For how many of these each row of the terms gives room.
const STEPS_OF_A_ROW: u64 = 64;

/// Types and groups for a table, each with what it is of.
#[derive(Drop)]
pub struct Nodes {
    /// The types, by their numbers.
    pub types: Vec<Node>,
    /// The groups, by their numbers.
    pub groups: Vec<Group>,
    /// The root type.
    pub root: TypeId,
    /// What each type is of.
    pub type_origins: Vec<TypeOrigin>,
    /// What each group is of.
    pub group_origins: Vec<GroupOrigin>,
}

/// The types and groups of a specification (RFC 8610 sections 2 and 3), for all its instances and for what their parts ask for.
///
/// It is given the table of terms, what is known of the instances and of the rows, and the place of the root among the instances.
///
/// Each type and group is made once. It takes time and memory in proportion to the forms that are made, with a hash for each
/// part of them. Each literal is copied once for each type that tests for it, and for each control by `.size` the members of its
/// controller are, 16 bytes for each range. Nothing recurses.
///
/// # Errors
///
/// [`NoRoom`] where memory is refused, and where the forms have more parts than 262,144 and eight for each row: a part is a choice,
/// an alternative of a map or of a group, an entry, or 64 bytes of a string in a test. It may come, too, where a row or a place is
/// not there, where a text has a number that no token has, and where the group of a map, or a part that it needs, has more
/// alternatives or entries than `alternatives` makes.
pub fn nodes_of(
    alloc: Global,
    terms: &Terms<'_>,
    source: &Source<'_>,
    root: u32,
) -> Result<Nodes, NoRoom>
    ensures { IfOk result (λ v. (s : Sense) → IsSource s terms.now source.now → slice_get s.refs root ≡ Some (call s.root no_terms) → is_group s.definitions s.root ≡ false → AreNodes s terms.now v) }
{
    equal_numbers(terms);
    let mut numbers = Numbers::new(alloc);
    let top = numbers.number_type(TypeOrigin::Instance(root))?;
    number_instances(&mut numbers, terms, source)?;
    let mut search = Search {
        numbers,
        types: Vec::new(alloc),
        groups: Vec::new(alloc),
        room: Room::new(PARTS, PARTS_OF_A_ROW, terms.len()),
        walks: Room::new(STEPS, STEPS_OF_A_ROW, terms.len()),
    };
    search.run(alloc, terms, source)?;
    let nodes = finish(alloc, search, top)?;
    Ok(nodes)
}

// What the search made.
fn finish(alloc: Global, search: Search, root: TypeId) -> Result<Nodes, NoRoom>
    ensures root { IfOk result (λ v. v.root ≡ root) }
    ensures types { IfOk result (λ v. v.types.items ≡ search.types.items) }
    ensures groups { IfOk result (λ v. v.groups.items ≡ search.groups.items) }
    ensures type_origins { IfOk result (λ v. v.type_origins.items ≡ search.numbers.types.keys) }
    ensures group_origins { IfOk result (λ v. v.group_origins.items ≡ search.numbers.groups.keys) }
{
    let Ok(type_origins) = search.numbers.type_origins(alloc) else {
        return Err(NoRoom);
    };
    let Ok(group_origins) = search.numbers.group_origins(alloc) else {
        return Err(NoRoom);
    };
    let Search { types, groups, .. } = search;
    Ok(Nodes {
        types,
        groups,
        root,
        type_origins,
        group_origins,
    })
}
