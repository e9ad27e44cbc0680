//! The edges of the graph: to the parts of a row, to the group to which an entry leads, from an owner to the entries in its
//! group, and from these to their rows.

ghost use Rattle.std.specs.Prelude.{◌≡◌, ◌++◌, IfOk, slice_get};
ghost use Rattle.check_maps.specs.MapCycles.Edges as by;

use crate::map_cycles::layout::Layout;
use crate::spliced::{Owner, Spliced};
use alternatives::Part;
use graphs::cycles::Edge;
use std::alloc::{AllocError, Global};

// The edges between all nodes.
pub(crate) fn edges_of(
    alloc: Global,
    layout: Layout,
    parts: &[Part],
    targets: &[Option<Owner>],
    spliced: &[Spliced],
) -> Result<Vec<Edge>, AllocError>
    ensures { IfOk result (λ v. v.items ≡ by.all_edges layout parts.now targets.now spliced.now) }
{
    let mut edges = Vec::new(alloc);
    push_rows(&mut edges, layout, parts, targets)?;
    push_entries(&mut edges, layout, spliced)?;
    Ok(edges)
}

fn push_rows(
    edges: &mut Vec<Edge>,
    layout: Layout,
    parts: &[Part],
    targets: &[Option<Owner>],
) -> Result<(), AllocError>
    ensures { IfOk result (λ _. edges.new.items ≡ edges.old.items ++ by.rows_edges layout parts.now targets.now layout.parts) }
{
    for row in 0..layout.parts {
        push_row(edges, layout, parts, targets, row)?;
    }
    Ok(())
}

fn push_row(
    edges: &mut Vec<Edge>,
    layout: Layout,
    parts: &[Part],
    targets: &[Option<Owner>],
    row: u32,
) -> Result<(), AllocError>
    ensures { IfOk result (λ _. edges.new.items ≡ edges.old.items ++ by.part_edges layout targets.now row (slice_get parts.now row)) }
{
    let Some(part) = part_at(parts, row) else {
        return Ok(());
    };
    push_part(edges, layout, targets, row, part)
}

fn part_at(parts: &[Part], row: u32) -> Option<Part>
    ensures { result ≡ slice_get parts.now row }
{
    parts.get(row as usize).copied()
}

// The edges from a row with this part.
fn push_part(
    edges: &mut Vec<Edge>,
    layout: Layout,
    targets: &[Option<Owner>],
    row: u32,
    part: Part,
) -> Result<(), AllocError>
    ensures { IfOk result (λ _. edges.new.items ≡ edges.old.items ++ by.edges_by layout targets.now row part) }
{
    match part {
        Part::Same(other) => push(edges, row as usize, Some(other)),
        Part::Both(first, second) | Part::Either(first, second) => {
            push(edges, row as usize, Some(first))?;
            push(edges, row as usize, Some(second))
        }
        Part::Occurs(_, group) => {
            push(edges, row as usize, Some(group))?;
            push(edges, row as usize, target_node(layout, targets, row))
        }
        Part::Refused | Part::Entry(_) | Part::Empty | Part::Nothing => Ok(()),
    }
}

// The node of the owner to which the entry of a row leads, if it does.
fn target_node(layout: Layout, targets: &[Option<Owner>], row: u32) -> Option<usize>
    ensures { result ≡ by.target_node layout targets.now row }
{
    match targets.get(row as usize) {
        Some(Some(owner)) => layout.owner(*owner),
        _ => None,
    }
}

fn push_entries(
    edges: &mut Vec<Edge>,
    layout: Layout,
    spliced: &[Spliced],
) -> Result<(), AllocError>
    ensures { IfOk result (λ _. edges.new.items ≡ edges.old.items ++ by.entries_edges layout spliced.now layout.entries) }
{
    for place in 0..layout.entries {
        push_entry(edges, layout, spliced, place)?;
    }
    Ok(())
}

fn push_entry(
    edges: &mut Vec<Edge>,
    layout: Layout,
    spliced: &[Spliced],
    place: u32,
) -> Result<(), AllocError>
    ensures { IfOk result (λ _. edges.new.items ≡ edges.old.items ++ by.entry_edges layout place (slice_get spliced.now place)) }
{
    let Some(entry) = entry_at(spliced, place) else {
        return Ok(());
    };
    push_owned(edges, layout, layout.entry(place), entry)
}

fn entry_at(spliced: &[Spliced], place: u32) -> Option<Spliced>
    ensures { result ≡ slice_get spliced.now place }
{
    spliced.get(place as usize).copied()
}

// The edges to and from the node of an entry, if it does not stand in a map's own group.
fn push_owned(
    edges: &mut Vec<Edge>,
    layout: Layout,
    node: usize,
    entry: Spliced,
) -> Result<(), AllocError>
    ensures { IfOk result (λ _. edges.new.items ≡ edges.old.items ++ by.owned_edges node entry.row (by.owner_node layout entry.owner)) }
{
    let Some(owner) = layout.owner(entry.owner) else {
        return Ok(());
    };
    push(edges, owner, Some(node))?;
    push(edges, node, Some(entry.row as usize))
}

// Adds an edge, if it leads anywhere.
fn push(edges: &mut Vec<Edge>, from: usize, to: Option<usize>) -> Result<(), AllocError>
    ensures { IfOk result (λ _. edges.new.items ≡ edges.old.items ++ by.edge_to from to) }
{
    if let Some(to) = to {
        edges.push(Edge { from, to })?;
    }
    Ok(())
}
