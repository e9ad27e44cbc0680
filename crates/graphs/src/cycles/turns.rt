//! The nodes of a graph in an order in which each comes after those to which its edges lead.
ghost use Rattle.std.specs.Prelude.{◌≡◌, ℕ, ◌<◌, IfOk, Some, length, slice_get};
ghost use Rattle.graphs.specs.Cycles.Graph.{IsBottomUp};
ghost use Rattle.graphs.specs.Cycles.Search.{IsGraph};
ghost use Rattle.graphs.specs.Cycles.Turns.{AreSorted, AreTaken, IsNext};

use crate::cycles::Edge;
use crate::cycles::graph::{Graph, graph_of};
use crate::cycles::search::numbers_of;
use std::alloc::{AllocError, Global};

/// A node with the number of its component.
#[derive(Clone, Copy)]
pub struct Numbered {
    pub number: usize,
    pub node: usize,
}

/// Nodes in an order in which each comes after those to which its edges lead. It has all that can be ordered so: each other
/// node leads to one that is not in it, as a node on a cycle does. Nodes are the numbers below `nodes`, and an edge of a
/// number that is no node's counts for nothing.
///
/// The time is linear in edges and n log n in nodes, and the memory is a few numbers for each of them, whatever the graph.
/// An error comes only where memory is refused.
pub fn bottom_up(alloc: Global, nodes: usize, edges: &[Edge]) -> Result<Vec<usize>, AllocError>
    ensures { IfOk result (λ v. IsBottomUp nodes edges.now v.items) }
{
    let graph = graph_of(alloc, nodes, edges)?;
    let numbers = numbers_of(alloc, &graph)?;
    let sorted = by_number(alloc, &numbers)?;
    taken_in_turn(alloc, &graph, &sorted)
}

// The nodes with their numbers, low numbers first.
fn by_number(alloc: Global, numbers: &[usize]) -> Result<Vec<Numbered>, AllocError>
    ensures { IfOk result (λ v. AreSorted numbers.now v.items) }
{
    let mut sorted = Vec::with_capacity(alloc, numbers.len())?;
    for (node, number) in numbers.iter().enumerate() {
        sorted.push(Numbered {
            number: *number,
            node,
        })?;
    }
    sorted.sort_by_key(|numbered| numbered.number)?;
    Ok(sorted)
}

// The nodes, taken in turn, but for those with an edge to a node that was not taken before.
fn taken_in_turn(
    alloc: Global,
    graph: &Graph<'_>,
    sorted: &[Numbered],
) -> Result<Vec<usize>, AllocError>
    requires graph { IsGraph graph.now }
    requires within { (i : ℕ) (n : Numbered) → slice_get sorted.now i ≡ Some n → n.node < graph.now.nodes }
    ensures { IfOk result (λ v. AreTaken graph.now.nodes graph.now.edges.now sorted.now (length sorted.now) v.items) }
{
    let mut placed = vec![in alloc; false; graph.nodes]?;
    let mut order = Vec::new(alloc);
    for numbered in sorted {
        if is_next(graph, &placed, numbered.node) {
            placed[numbered.node] = true;
            order.push(numbered.node)?;
        }
    }
    Ok(order)
}

// Whether the node is not placed, and each of its edges leads to one that is.
fn is_next(graph: &Graph<'_>, placed: &[bool], node: usize) -> bool
    requires graph { IsGraph graph.now }
    requires placed { length placed.now ≡ graph.now.nodes }
    requires node { node < graph.now.nodes }
    ensures { IsNext graph.now.nodes graph.now.edges.now placed.now node result }
{
    if placed[node] {
        return false;
    }
    let mut next = graph.heads[node];
    while let Some(edge) = next {
        if !placed[graph.edges[edge].to] {
            return false;
        }
        next = graph.links[edge];
    }
    true
}
