//! A path-based search for the strongly connected components of a graph, which numbers them.
ghost use Rattle.std.specs.Prelude.{◌≡◌, ◌-◌, ◌<◌, IfOk, Some, None, map, take, slice_get, length};
ghost use Rattle.graphs.specs.Cycles.Links.{AreNumbers};
ghost use Rattle.graphs.specs.Cycles.Search.{ArePlaces, IsAtEnd, IsGraph, IsSound, Keeps, cut, entered, first_state, is_last, left, met, number, shut, state, stepped};

use crate::cycles::graph::Graph;
use std::alloc::{AllocError, Global};

/// How far a node has come.
#[derive(Clone, Copy)]
pub enum Mark {
    /// It was not yet reached.
    Unseen,
    /// It is open, at this position.
    Open(usize),
    /// Its component is done, and has this number.
    Done(usize),
}

/// The search for components along a path. The open nodes lie in segments, each of which is a part of one component and leads
/// to those after it.
#[derive(Drop)]
pub struct Search {
    /// For each node the last of its edges that is not yet followed.
    pub heads: Vec<Option<usize>>,
    /// For each node how far it has come.
    pub marks: Vec<Mark>,
    /// The open nodes, as they were reached.
    pub opened: Vec<usize>,
    /// The positions at which the segments begin.
    pub roots: Vec<usize>,
    /// The positions of the nodes on the way to the one whose edges are followed next.
    pub path: Vec<usize>,
    /// How many components are done.
    pub done: usize,
}

/// For each node the number of its component.
pub fn numbers_of(alloc: Global, graph: &Graph<'_>) -> Result<Vec<usize>, AllocError>
    requires { IsGraph graph.now }
    ensures { IfOk result (λ v. AreNumbers graph.now.nodes graph.now.edges.now v.items) }
{
    let mut search = first_search(alloc, graph)?;
    for node in 0..graph.nodes {
        search.visit(graph, node)?;
    }
    mark_numbers(alloc, &search.marks)
}

// The search before its first node.
fn first_search(alloc: Global, graph: &Graph<'_>) -> Result<Search, AllocError>
    ensures { IfOk result (λ s. state s ≡ first_state graph.now.nodes graph.now.heads.items) }
{
    let heads = Vec::from_slice(alloc, &graph.heads)?;
    let marks = vec![in alloc; Mark::Unseen; graph.nodes]?;
    Ok(Search {
        heads,
        marks,
        opened: Vec::new(alloc),
        roots: Vec::new(alloc),
        path: Vec::new(alloc),
        done: 0,
    })
}

impl Search {
    // Searches from the node, if it was not yet reached, until each node that was opened is done.
    fn visit(&mut self, graph: &Graph<'_>, node: usize) -> Result<(), AllocError>
        requires graph { IsGraph graph.now }
        requires node { node < graph.now.nodes }
        requires start { IsAtEnd graph.now.nodes graph.now.edges.now (state self.old) }
        ensures end { IfOk result (λ _. IsAtEnd graph.now.nodes graph.now.edges.now (state self.new)) }
        ensures keeps { IfOk result (λ _. Keeps (state self.old) (state self.new)) }
        ensures seen { IfOk result (λ _. slice_get self.new.marks.items node ≡ Some Mark.Unseen → ⊥) }
    {
        if let Mark::Unseen = self.marks[node] {
            self.enter(node)?;
            self.run(graph)?;
        }
        Ok(())
    }

    // Goes on to the end of the path.
    fn run(&mut self, graph: &Graph<'_>) -> Result<(), AllocError>
        requires graph { IsGraph graph.now }
        requires sound { IsSound graph.now.nodes graph.now.edges.now None (state self.old) }
        ensures end { IfOk result (λ _. IsAtEnd graph.now.nodes graph.now.edges.now (state self.new)) }
        ensures keeps { IfOk result (λ _. Keeps (state self.old) (state self.new)) }
    {
        while let Some(position) = self.path.last().copied() {
            self.step(graph, position)?;
        }
        Ok(())
    }

    // Follows the next edge of the last node of the path, or leaves that node.
    fn step(&mut self, graph: &Graph<'_>, position: usize) -> Result<(), AllocError>
        requires graph { IsGraph graph.now }
        requires sound { IsSound graph.now.nodes graph.now.edges.now None (state self.old) }
        requires top { slice_get self.old.path.items (length self.old.path.items - 1) ≡ Some position }
        ensures { IfOk result (λ _. state self.new ≡ stepped graph.now.edges.now graph.now.links.items position (state self.old)) }
    {
        let node = self.opened[position];
        match self.heads[node] {
            Some(edge) => {
                self.heads[node] = graph.links[edge];
                self.meet(graph.edges[edge].to)
            }
            None => {
                self.leave(position);
                Ok(())
            }
        }
    }

    // Follows an edge to the node: what was opened after an open one is of one component with it.
    fn meet(&mut self, node: usize) -> Result<(), AllocError>
        requires { node < length self.old.marks.items }
        ensures { IfOk result (λ _. state self.new ≡ met node (state self.old)) }
    {
        match self.marks[node] {
            Mark::Unseen => self.enter(node),
            Mark::Open(position) => {
                merge(&mut self.roots, position);
                Ok(())
            }
            Mark::Done(_) => Ok(()),
        }
    }

    // Opens a node that was not yet reached, as a segment of its own.
    fn enter(&mut self, node: usize) -> Result<(), AllocError>
        requires { node < length self.old.marks.items }
        ensures { IfOk result (λ _. state self.new ≡ entered node (state self.old)) }
    {
        let position = self.opened.len();
        self.opened.push(node)?;
        self.roots.push(position)?;
        self.path.push(position)?;
        self.marks[node] = Mark::Open(position);
        Ok(())
    }

    // Leaves the last node of the path, at this position. Where it begins a segment, that is a whole component.
    fn leave(&mut self, position: usize)
        requires places { ArePlaces (length self.old.marks.items) self.old.marks.items self.old.opened.items }
        requires fits { self.old.done < length self.old.marks.items }
        ensures { state self.new ≡ left position (state self.old) }
    {
        self.path.pop();
        if is_at_end(&self.roots, position) {
            self.roots.pop();
            close(&mut self.marks, &mut self.opened, position, self.done);
            self.done += 1;
        }
    }
}

// Whether the position is the last of them.
fn is_at_end(roots: &[usize], position: usize) -> bool
    ensures { result ≡ is_last position roots.now }
{
    match roots.last() {
        Some(root) => *root == position,
        None => false,
    }
}

// Takes the positions after this one from the end.
fn merge(roots: &mut Vec<usize>, position: usize)
    ensures { roots.new.items ≡ cut position roots.old.items }
{
    while let Some(root) = roots.last().copied() {
        if root <= position {
            return;
        }
        roots.pop();
    }
}

// Takes the open nodes from this position on for the component of this number.
fn close(marks: &mut Vec<Mark>, opened: &mut Vec<usize>, position: usize, number: usize)
    requires { ArePlaces (length marks.old.items) marks.old.items opened.old.items }
    ensures marks { marks.new.items ≡ map (shut position number) marks.old.items }
    ensures opened { opened.new.items ≡ take position opened.old.items }
{
    while opened.len() > position {
        if let Some(node) = opened.pop() {
            marks[node] = Mark::Done(number);
        }
    }
}

// The numbers of the nodes, each of which is done.
fn mark_numbers(alloc: Global, marks: &[Mark]) -> Result<Vec<usize>, AllocError>
    ensures { IfOk result (λ v. v.items ≡ map number marks.now) }
{
    let mut numbers = Vec::with_capacity(alloc, marks.len())?;
    for mark in marks {
        numbers.push(number_of(*mark))?;
    }
    Ok(numbers)
}

fn number_of(mark: Mark) -> usize
    ensures { result ≡ number mark }
{
    match mark {
        Mark::Done(number) => number,
        _ => 0,
    }
}
