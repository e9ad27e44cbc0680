//! A graph, whose edges are linked by the nodes that they leave.
ghost use Rattle.std.specs.Prelude.{◌≡◌, IfOk};
ghost use Rattle.graphs.specs.Cycles.Links.{IsLinked};

use crate::cycles::Edge;
use std::alloc::{AllocError, Global};

/// Edges between so many nodes, linked by the nodes that they leave.
#[derive(Drop)]
pub struct Graph<'a> {
    pub nodes: usize,
    pub edges: &'a [Edge],
    /// For each node the last of its edges.
    pub heads: Vec<Option<usize>>,
    /// For each edge the last one before it that leaves the same node.
    pub links: Vec<Option<usize>>,
}

/// The edges, linked. An edge whose end is no node is passed over.
pub fn graph_of(alloc: Global, nodes: usize, edges: &[Edge]) -> Result<Graph<'_>, AllocError>
    ensures nodes { IfOk result (λ g. g.nodes ≡ nodes) }
    ensures edges { IfOk result (λ g. g.edges.now ≡ edges.now) }
    ensures linked { IfOk result (λ g. IsLinked nodes edges.now g.heads.items g.links.items) }
{
    let mut heads = vec![in alloc; None; nodes]?;
    let mut links = Vec::new(alloc);
    for (number, edge) in edges.iter().enumerate() {
        let mut link = None;
        if edge.from < nodes && edge.to < nodes {
            link = heads[edge.from];
            heads[edge.from] = Some(number);
        }
        links.push(link)?;
    }
    Ok(Graph {
        nodes,
        edges,
        heads,
        links,
    })
}
