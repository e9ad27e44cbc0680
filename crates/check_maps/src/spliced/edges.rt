//! Owners as facts: one is spliced into a map as soon as another is, to whose group it leads.

ghost use Rattle.std.specs.Prelude.{◌≡◌, IfOk};
ghost use Rattle.check_maps.specs.Spliced.Steps as by;

use crate::spliced::owners::{Owner, Way};
use graphs::implications::Implication;
use std::alloc::{AllocError, Global};

// The number of an owner as a fact. A map's own group needs none.
pub(crate) fn fact_of(owner: Owner) -> Option<usize>
    ensures { result ≡ by.fact_of owner }
{
    match owner {
        Owner::Map => None,
        Owner::Named(place) => Some(2 * place as usize),
        Owner::Opened(place) => Some(2 * place as usize + 1),
    }
}

// That the target is spliced into a map where the owner is.
fn edge(owner: Option<Owner>, target: Option<Owner>) -> Option<Implication>
    ensures { result ≡ by.edge owner target }
{
    match (owner, target) {
        (Some(owner), Some(target)) => implied(fact_of(target), owner),
        _ => None,
    }
}

fn implied(then: Option<usize>, owner: Owner) -> Option<Implication>
    ensures { result ≡ by.implied then owner }
{
    match then {
        Some(then) => Some(Implication {
            then,
            first: fact_of(owner),
            second: None,
        }),
        None => None,
    }
}

pub(crate) fn edges_of(alloc: Global, ways: &[Way]) -> Result<Vec<Implication>, AllocError>
    ensures { IfOk result (λ v. v.items ≡ by.edges_of ways.now) }
{
    let mut edges = Vec::new(alloc);
    for way in ways {
        if let Some(edge) = edge(way.owner, way.target) {
            edges.push(edge)?;
        }
    }
    Ok(edges)
}
