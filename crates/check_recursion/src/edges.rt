//! The edges of the graph of what asks what.

ghost use Rattle.std.specs.Prelude.{◌≡◌, ◌++◌, IfOk, option_map, slice_get};
ghost use Rattle.check_recursion.specs.Edges as by;
ghost use Rattle.check_recursion.specs.Views.{known};

use crate::node::{Layout, Node};
use crate::steps::{
    Steps, View, chosen_node, chosen_steps, flagged, is_group_call, opened_group, opened_row,
    opening_at, row_node, row_steps,
};
use check_instances::closed::Meaning;
use check_terms::Terms;
use graphs::cycles::Edge;
use std::alloc::{AllocError, Global};

// The edges between all nodes.
pub(crate) fn edges_of(
    alloc: Global,
    layout: Layout,
    terms: &Terms<'_>,
    view: &View<'_>,
) -> Result<Vec<Edge>, AllocError>
    ensures { IfOk result (λ v. v.items ≡ by.all_edges layout.rows layout.places (known terms.now view.now)) }
{
    let mut edges = Vec::new(alloc);
    push_rows(&mut edges, layout, terms, view)?;
    push_places(&mut edges, layout, terms, view)?;
    Ok(edges)
}

fn push_rows(
    edges: &mut Vec<Edge>,
    layout: Layout,
    terms: &Terms<'_>,
    view: &View<'_>,
) -> Result<(), AllocError>
    ensures { IfOk result (λ _. edges.new.items ≡ edges.old.items ++ by.rows_edges layout.rows layout.places (known terms.now view.now) layout.rows) }
{
    terms.len();
    for row in 0..layout.rows {
        push_row(edges, layout, terms, view, row)?;
    }
    Ok(())
}

fn push_row(
    edges: &mut Vec<Edge>,
    layout: Layout,
    terms: &Terms<'_>,
    view: &View<'_>,
    number: u32,
) -> Result<(), AllocError>
    ensures { IfOk result (λ _. edges.new.items ≡ edges.old.items ++ by.row_edges layout.rows layout.places (known terms.now view.now) number (slice_get terms.now.rows number)) }
{
    let Some(row) = terms.row(number) else {
        return Ok(());
    };
    let steps = row_steps(terms, view, row);
    push_steps(edges, layout, Node::Row(number), steps)?;
    let chosen = chosen_steps(terms, view, row);
    push_steps(edges, layout, Node::Chosen(number), chosen)
}

fn push_places(
    edges: &mut Vec<Edge>,
    layout: Layout,
    terms: &Terms<'_>,
    view: &View<'_>,
) -> Result<(), AllocError>
    ensures { IfOk result (λ _. edges.new.items ≡ edges.old.items ++ by.places_edges layout.rows layout.places (known terms.now view.now) layout.places) }
{
    terms.len();
    for place in 0..layout.places {
        push_place(edges, layout, terms, view, place)?;
    }
    Ok(())
}

fn push_place(
    edges: &mut Vec<Edge>,
    layout: Layout,
    terms: &Terms<'_>,
    view: &View<'_>,
    place: u32,
) -> Result<(), AllocError>
    ensures { IfOk result (λ _. edges.new.items ≡ edges.old.items ++ by.place_edges layout.rows layout.places (known terms.now view.now) place (slice_get view.now.closed.now.meanings.items place)) }
{
    terms.len();
    let meaning = view.closed.meanings.get(place as usize);
    push_meaning(edges, layout, terms, view, place, meaning)
}

// The edges from an instance with this meaning, if it has one.
fn push_meaning(
    edges: &mut Vec<Edge>,
    layout: Layout,
    terms: &Terms<'_>,
    view: &View<'_>,
    place: u32,
    meaning: Option<&Meaning>,
) -> Result<(), AllocError>
    ensures { IfOk result (λ _. edges.new.items ≡ edges.old.items ++ by.place_edges layout.rows layout.places (known terms.now view.now) place (option_map (λ m. m.now) meaning.entry)) }
{
    terms.len();
    let Some(meaning) = meaning else {
        return Ok(());
    };
    let is_group = is_group_call(terms, view, meaning.call);
    push_name(edges, layout, place, meaning, is_group)?;
    let opening = opening_at(view.openings, place);
    let opened = row_node(opened_row(opening));
    push(edges, layout, Node::Unwrapping(place), opened)?;
    push(
        edges,
        layout,
        Node::Choice(place),
        Some(Node::ChosenName(place)),
    )?;
    let chosen = chosen_node(flagged(view.choosable, meaning.group));
    push(edges, layout, Node::ChosenName(place), chosen)?;
    let chosen = chosen_node(flagged(view.choosable, opened_group(opening)));
    push(edges, layout, Node::OpenedChoice(place), chosen)
}

// The edges from what an instance means, as a group or as a type.
fn push_name(
    edges: &mut Vec<Edge>,
    layout: Layout,
    place: u32,
    meaning: &Meaning,
    is_group: bool,
) -> Result<(), AllocError>
    ensures { IfOk result (λ _. edges.new.items ≡ edges.old.items ++ by.name_edges layout.rows layout.places place meaning.now is_group) }
{
    if is_group {
        return push(edges, layout, Node::Name(place), row_node(meaning.group));
    }
    push_types(edges, layout, place, &meaning.types)
}

fn push_types(
    edges: &mut Vec<Edge>,
    layout: Layout,
    place: u32,
    types: &[u32],
) -> Result<(), AllocError>
    ensures { IfOk result (λ _. edges.new.items ≡ edges.old.items ++ by.types_edges layout.rows layout.places place types.now) }
{
    for row in types {
        push(edges, layout, Node::Name(place), Some(Node::Row(*row)))?;
    }
    Ok(())
}

fn push_steps(
    edges: &mut Vec<Edge>,
    layout: Layout,
    from: Node,
    steps: Steps,
) -> Result<(), AllocError>
    ensures { IfOk result (λ _. edges.new.items ≡ edges.old.items ++ by.steps_edges layout.rows layout.places from steps) }
{
    push(edges, layout, from, steps.first)?;
    push(edges, layout, from, steps.second)
}

// Adds an edge, where both nodes are there.
fn push(
    edges: &mut Vec<Edge>,
    layout: Layout,
    from: Node,
    to: Option<Node>,
) -> Result<(), AllocError>
    ensures { IfOk result (λ _. edges.new.items ≡ edges.old.items ++ by.edge_to layout.rows layout.places from to) }
{
    if let Some(edge) = edge_between(layout, from, to) {
        edges.push(edge)?;
    }
    Ok(())
}

fn edge_between(layout: Layout, from: Node, to: Option<Node>) -> Option<Edge>
    ensures { result ≡ by.edge_between layout.rows layout.places from to }
{
    let from = layout.number(from)?;
    let to = layout.number(to?)?;
    Some(Edge { from, to })
}
