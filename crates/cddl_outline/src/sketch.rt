//! What is left to be printed of a sketch, as a list of pieces.
use std::alloc::{AllocError, Global};
use tree_nodes::{Group, Leaf, Tree, Type2};

/// A part of a sketch: what is printed as it is, or one of the two nodes that all nesting goes
/// through, which is opened when its turn comes.
#[derive(Clone, Copy)]
pub(crate) enum Piece<'t> {
    Word(&'static str),
    /// A leaf, and the name of its node where it is all of that node.
    Leaf(&'static str, Leaf),
    Type2(&'t Box<Type2>),
    Group(&'t Group),
}

/// The sketch of a tree, as far as it is not printed.
#[derive(Drop)]
pub(crate) struct Sketch<'t> {
    /// The pieces of the node that is being opened, in the order in which they are printed.
    parts: Vec<Piece<'t>>,
    /// What comes after these. What comes next is last.
    left: Vec<Piece<'t>>,
    /// Whether there was memory for all pieces.
    memory: Result<(), AllocError>,
}

impl<'t> Sketch<'t> {
    pub(crate) fn of(alloc: Global, tree: &'t Tree<'_>) -> Sketch<'t> {
        let mut sketch = Sketch {
            parts: Vec::new(alloc),
            left: Vec::new(alloc),
            memory: Ok(()),
        };
        sketch.tree(tree);
        sketch.turn();
        sketch
    }

    // What comes next, up to the end, or to where there was no memory.
    pub(crate) fn next(&mut self) -> Option<Piece<'t>> {
        match self.memory {
            Ok(()) => self.left.pop(),
            Err(_) => None,
        }
    }

    // Whether there was memory for all of the sketch.
    pub(crate) fn memory(&self) -> Result<(), AllocError> {
        self.memory
    }

    // Puts what a type2 is made of before what is left.
    pub(crate) fn open_type2(&mut self, type2: &'t Box<Type2>) {
        self.in_type2(type2);
        self.turn();
    }

    // Puts what a group is made of before what is left.
    pub(crate) fn open_group(&mut self, group: &'t Group) {
        self.in_group(group);
        self.turn();
    }

    // Puts the parts of a node before what is left.
    fn turn(&mut self) {
        self.parts.reverse();
        if self.left.append(&mut self.parts).is_err() {
            self.memory = Err(AllocError);
        }
    }

    fn add(&mut self, piece: Piece<'t>) {
        if self.parts.push(piece).is_err() {
            self.memory = Err(AllocError);
        }
    }

    pub(crate) fn word(&mut self, word: &'static str) {
        self.add(Piece::Word(word));
    }

    pub(crate) fn token(&mut self, leaf: Leaf) {
        self.leaf("", leaf);
    }

    pub(crate) fn leaf(&mut self, node: &'static str, leaf: Leaf) {
        self.add(Piece::Leaf(node, leaf));
    }

    pub(crate) fn type2(&mut self, type2: &'t Box<Type2>) {
        self.add(Piece::Type2(type2));
    }

    pub(crate) fn group(&mut self, group: &'t Group) {
        self.add(Piece::Group(group));
    }
}
