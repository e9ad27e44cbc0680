//! Ranks that go down along the edges of a graph, or where there are none, the nodes on its cycles; and nodes in an order in
//! which each comes after those to which its edges lead.
mod graph;
pub mod laws;
mod search;
mod turns;

ghost use Rattle.std.specs.Prelude.{◌≡◌, IfOk};
ghost use Rattle.graphs.specs.Cycles.Graph.{IsOrder};
ghost use Rattle.graphs.specs.Cycles.Links.{AreNumbers, inside, flags_of};

use crate::cycles::graph::graph_of;
use crate::cycles::search::numbers_of;
pub use crate::cycles::turns::bottom_up;
use std::alloc::{AllocError, Global};

/// An edge from one node to another.
#[derive(Clone, Copy)]
pub struct Edge {
    /// The number of the node that it leaves.
    pub from: usize,
    /// The number of the node that it leads to.
    pub to: usize,
}

/// What there is of the nodes of a graph.
#[derive(Drop)]
pub enum Order {
    /// For each node a rank below the number of nodes, which goes down along each edge: no node is on a cycle.
    Ranks(Vec<usize>),
    /// For each node whether it is on a cycle, as one of them is: whether it leads back to itself over one or more edges.
    Cycles(Vec<bool>),
}

/// Ranks of the nodes, whose numbers are those below `nodes`, or the nodes on cycles, where there are any. An edge of a
/// number that is no node's counts for nothing.
///
/// The time is linear in nodes and edges, whatever the graph. An error comes only where memory is refused.
pub fn order_of(alloc: Global, nodes: usize, edges: &[Edge]) -> Result<Order, AllocError>
    ensures { IfOk result (IsOrder nodes edges.now) }
{
    let ranks = component_numbers(alloc, nodes, edges)?;
    let flags = flags_within(alloc, &ranks, edges)?;
    if flags.as_slice().contains(&true) {
        return Ok(Order::Cycles(flags));
    }
    Ok(Order::Ranks(ranks))
}

// For each node the number of its component.
fn component_numbers(alloc: Global, nodes: usize, edges: &[Edge]) -> Result<Vec<usize>, AllocError>
    ensures { IfOk result (λ v. AreNumbers nodes edges.now v.items) }
{
    let graph = graph_of(alloc, nodes, edges)?;
    numbers_of(alloc, &graph)
}

// For each node whether one of its edges stays within its component.
fn flags_within(alloc: Global, numbers: &[usize], edges: &[Edge]) -> Result<Vec<bool>, AllocError>
    ensures { IfOk result (λ v. v.items ≡ flags_of numbers.now edges.now) }
{
    let mut flags = vec![in alloc; false; numbers.len()]?;
    for edge in edges {
        if is_inside(numbers, *edge) {
            flags[edge.from] = true;
        }
    }
    Ok(flags)
}

// Whether the edge is between nodes of one component.
fn is_inside(numbers: &[usize], edge: Edge) -> bool
    ensures { result ≡ inside numbers.now edge }
{
    if edge.from >= numbers.len() || edge.to >= numbers.len() {
        return false;
    }
    numbers[edge.from] == numbers[edge.to]
}
