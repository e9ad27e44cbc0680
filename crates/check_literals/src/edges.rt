//! The graph of which rows need which.

ghost use Rattle.std.specs.Prelude.{◌≡◌, ◌++◌, ◌∷◌, [], IfOk, map};
ghost use Rattle.check_literals.specs.Edges.{edge_to, edges_at, edges_from};
ghost use Rattle.check_literals.specs.Needs.{need_view};

use crate::needs::Need;
use graphs::cycles::Edge;
use std::alloc::{AllocError, Global};

// An edge from each row to each whose literal it needs.
pub(crate) fn edges_of(alloc: Global, needs: &[Need]) -> Result<Vec<Edge>, AllocError>
    ensures { IfOk result (λ v. v.items ≡ edges_from 0 (map need_view needs.now)) }
{
    let mut edges = Vec::new(alloc);
    for (row, need) in needs.iter().enumerate() {
        push_parts(&mut edges, row, *need)?;
    }
    Ok(edges)
}

fn push_parts(edges: &mut Vec<Edge>, row: usize, need: Need) -> Result<(), AllocError>
    ensures { IfOk result (λ _. edges.new.items ≡ edges.old.items ++ edges_at row (need_view need)) }
{
    match need {
        Need::Inside(part) | Need::Choice(part) => push(edges, row, part),
        Need::Both(_, left, right) => {
            push(edges, row, left)?;
            push(edges, row, right)
        }
        Need::Nothing | Need::Written(_) => Ok(()),
    }
}

fn push(edges: &mut Vec<Edge>, row: usize, part: u32) -> Result<(), AllocError>
    ensures { IfOk result (λ _. edges.new.items ≡ edges.old.items ++ edge_to row part ∷ []) }
{
    edges.push(Edge {
        from: row,
        to: part as usize,
    })?;
    Ok(())
}
