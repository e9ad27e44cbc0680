//! With how many entries the alternatives of maps begin as the alternative before each does.

ghost use Rattle.std.specs.Prelude.{◌≡◌, ◌-◌, IfOk, IfSome, List, Some, slice_get};
ghost use Rattle.std.specs.List.{Contains};
ghost use Rattle.cddl_meaning.specs.Forms.{MapEntry as Entry, MapOf};
ghost use Rattle.table_nodes.specs.Choices.{type_in};
ghost use Rattle.table_nodes.specs.Fronts.{AreFronts, BeginAlike};
ghost use Rattle.table_nodes.specs.Nodes.{alternatives_view, type_view};
ghost use Rattle.table_nodes.specs.declared.nodes.Node.{Node};
ghost use Rattle.table_nodes.specs.declared.nodes.TypeId.{TypeId};

use crate::entries::LEAST_INDEXED;
use crate::nodes::{MapEntry, Node, TypeId};
use std::alloc::{AllocError, Global};

/// That an alternative of a map and the one before it begin with the same entries.
#[derive(Clone, Copy)]
pub(crate) struct Front {
    /// The map.
    of: TypeId,
    /// The number of the alternative.
    way: usize,
    /// With how many.
    entries: usize,
}

impl Front {
    // Whether it is for another type, or an alternative, before this one.
    #[inline]
    fn is_before(&self, of: TypeId, way: usize) -> bool {
        self.of.number < of.number || (self.of.number == of.number && self.way < way)
    }
}

// How many of the first entries are the same.
fn front_length(some: &[MapEntry], others: &[MapEntry]) -> usize
    ensures { BeginAlike result some.now others.now }
{
    let count = some.len().min(others.len());
    let mut same = 0;
    while same < count {
        match (some.get(same), others.get(same)) {
            (Some(entry), Some(other)) if entry == other => same += 1,
            _ => return same,
        }
    }
    same
}

// With how many of its entries an alternative begins as the one before does. The first one has none before it.
pub(crate) fn front_in(alternatives: &[Vec<MapEntry>], way: usize) -> usize
    ensures { (some others : List (Entry TypeId)) → slice_get (alternatives_view alternatives.now) (way - 1) ≡ Some some → slice_get (alternatives_view alternatives.now) way ≡ Some others → BeginAlike result some others }
{
    if way == 0 {
        return 0;
    }
    match (alternatives.get(way - 1), alternatives.get(way)) {
        (Some(before), Some(entries)) => front_length(before, entries),
        _ => 0,
    }
}

// Whether it is kept that an alternative of so many entries begins with so many as the one before does: where there are many
// entries, but few of them are the same, it has an index of its own.
fn is_kept(same: usize, entries: usize) -> bool {
    same >= LEAST_INDEXED || (same > 0 && entries < LEAST_INDEXED)
}

// Puts the fronts of the alternatives of a map after the others.
fn push_fronts_of_map(
    types: &[Node],
    of: TypeId,
    alternatives: &[Vec<MapEntry>],
    fronts: &mut Vec<Front>,
) -> Result<(), AllocError>
    requires map { type_in types.now of ≡ MapOf (alternatives_view alternatives.now) }
    requires before { AreFronts types.now fronts.old.items }
    ensures { IfOk result (λ _. AreFronts types.now fronts.new.items) }
{
    for (way, others) in alternatives.iter().enumerate() {
        let entries = front_in(alternatives, way);
        if is_kept(entries, others.len()) {
            fronts.push(Front { of, way, entries })?;
        }
    }
    Ok(())
}

// Puts the fronts of a type of this form after the others.
fn push_fronts_of(
    types: &[Node],
    of: TypeId,
    form: &Node,
    fronts: &mut Vec<Front>,
) -> Result<(), AllocError>
    requires form { type_in types.now of ≡ type_view form.now }
    requires before { AreFronts types.now fronts.old.items }
    ensures { IfOk result (λ _. AreFronts types.now fronts.new.items) }
{
    match form {
        Node::MapOf(alternatives) => push_fronts_of_map(types, of, alternatives, fronts),
        _ => Ok(()),
    }
}

// The fronts of the alternatives of the maps among these types.
pub(crate) fn fronts_of(alloc: Global, types: &[Node]) -> Result<Vec<Front>, AllocError>
    ensures { IfOk result (λ v. AreFronts types.now v.items) }
{
    let mut fronts = Vec::new(alloc);
    for (number, form) in types.iter().enumerate() {
        push_fronts_of(types, TypeId { number }, form, &mut fronts)?;
    }
    Ok(fronts)
}

// Where the fronts of a map begin, or of those after it: they are in the order of their types.
#[inline]
pub(crate) fn fronts_from(fronts: &[Front], map: TypeId) -> usize {
    fronts.partition_point(|front| front.of.number < map.number)
}

// The front of an alternative of a map, if it is kept at this position.
#[inline(always)]
fn find(fronts: &[Front], at: usize, of: TypeId, way: usize) -> Option<&Front>
    ensures { IfSome result (λ front. (front.now.of ≡ of) × (front.now.way ≡ way) × Contains fronts.now front.now) }
{
    match fronts.get(at) {
        Some(front) if front.of.number == of.number && front.way == way => Some(front),
        _ => None,
    }
}

// With how many of its entries an alternative of a map begins as the one before does, if that is kept at this position.
#[inline(always)]
pub(crate) fn front_near(fronts: &[Front], at: usize, of: TypeId, way: usize) -> usize
    ensures { (types : List Node) (ways : List (List (Entry TypeId))) (some others : List (Entry TypeId)) → AreFronts types fronts.now → type_in types of ≡ MapOf ways → slice_get ways (way - 1) ≡ Some some → slice_get ways way ≡ Some others → BeginAlike result some others }
{
    match find(fronts, at, of, way) {
        Some(front) => front.entries,
        None => 0,
    }
}

// The same, as far as that is kept.
#[inline]
pub(crate) fn front_at(fronts: &[Front], of: TypeId, way: usize) -> usize
    ensures { (types : List Node) (ways : List (List (Entry TypeId))) (some others : List (Entry TypeId)) → AreFronts types fronts.now → type_in types of ≡ MapOf ways → slice_get ways (way - 1) ≡ Some some → slice_get ways way ≡ Some others → BeginAlike result some others }
{
    let at = fronts.partition_point(|front| front.is_before(of, way));
    front_near(fronts, at, of, way)
}
