//! How many names the members of each row take.

ghost use Rattle.std.specs.Prelude.{◌≡◌, ◌++◌, IfOk, length, set};
ghost use Rattle.graphs.specs.Cycles.Graph.{IsBottomUp};
ghost use Rattle.check_literals.specs.Sizes.Depths.{AreDepths, deepest, depth_at, depth_by, edges_before, edges_to, greater, step, through_name};
ghost use Rattle.check_literals.specs.Sizes.Sources.{view_at};

use crate::sizes::sources::{Source, parts};
use check_instances::MOST_INSTANCES;
use graphs::cycles::{Edge, bottom_up};
use std::alloc::{AllocError, Global};

// For each row the number of names that its members take, if it has members as it has to have them.
pub(crate) fn depths_of(alloc: Global, sources: &[Source]) -> Result<Vec<Option<usize>>, AllocError>
    ensures { IfOk result (λ v. AreDepths sources.now v.items) }
{
    let edges = edges_of(alloc, sources)?;
    let order = bottom_up(alloc, sources.len(), &edges)?;
    in_order(alloc, sources, &edges, &order)
}

// The edges from each row to its parts.
fn edges_of(alloc: Global, sources: &[Source]) -> Result<Vec<Edge>, AllocError>
    ensures { IfOk result (λ v. v.items ≡ edges_before sources.now (length sources.now)) }
{
    let mut edges = Vec::new(alloc);
    for (row, source) in sources.iter().enumerate() {
        add_edges(&mut edges, row, parts(source))?;
    }
    Ok(edges)
}

fn add_edges(edges: &mut Vec<Edge>, from: usize, parts: &[u32]) -> Result<(), AllocError>
    ensures { IfOk result (λ _. edges.new.items ≡ edges.old.items ++ edges_to from parts.now) }
{
    for part in parts {
        edges.push(Edge {
            from,
            to: *part as usize,
        })?;
    }
    Ok(())
}

// The depths, where this is an order of the rows: what is not in it has none.
fn in_order(
    alloc: Global,
    sources: &[Source],
    edges: &[Edge],
    order: &[usize],
) -> Result<Vec<Option<usize>>, AllocError>
    requires edges { edges.now ≡ edges_before sources.now (length sources.now) }
    requires order { IsBottomUp (length sources.now) edges.now order.now }
    ensures { IfOk result (λ v. AreDepths sources.now v.items) }
{
    let mut depths = vec![in alloc; None; sources.len()]?;
    for row in order {
        let depth = depth_of(sources, &depths, *row);
        put(&mut depths, *row, depth);
    }
    Ok(depths)
}

fn put(depths: &mut Vec<Option<usize>>, row: usize, depth: Option<usize>)
    ensures { depths.new.items ≡ set depths.old.items row depth }
{
    if row < depths.len() {
        depths[row] = depth;
    }
}

// The depth of the row by those of its parts.
fn depth_of(sources: &[Source], depths: &[Option<usize>], row: usize) -> Option<usize>
    ensures { result ≡ depth_by depths.now (view_at sources.now row) }
{
    match sources.get(row)? {
        Source::Nothing => None,
        Source::Numbers(_) => Some(0),
        Source::Rows(rows) => deepest(depths, rows, false),
        Source::Choices(rows) => deepest(depths, rows, true),
    }
}

// The depth of what has the members of all these rows, which are the choices of a name or not.
fn deepest(depths: &[Option<usize>], rows: &[u32], named: bool) -> Option<usize>
    ensures { result ≡ deepest named depths.now rows.now }
{
    let mut depth = 0;
    for row in rows {
        depth = greater(depth, step(named, depth_at(depths, *row))?);
    }
    Some(depth)
}

fn depth_at(depths: &[Option<usize>], row: u32) -> Option<usize>
    ensures { result ≡ depth_at depths.now row }
{
    *depths.get(row as usize)?
}

fn step(named: bool, depth: Option<usize>) -> Option<usize>
    ensures { result ≡ step named depth }
{
    if named { through_name(depth) } else { depth }
}

// The depth through one more name, where that is not too many.
fn through_name(depth: Option<usize>) -> Option<usize>
    ensures { result ≡ through_name depth }
{
    let depth = depth?;
    if depth < MOST_INSTANCES {
        Some(depth + 1)
    } else {
        None
    }
}

fn greater(first: usize, second: usize) -> usize
    ensures { result ≡ greater first second }
{
    if first < second { second } else { first }
}
