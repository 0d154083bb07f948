//! Trees in one list, which only grows.

ghost use Rattle.std.specs.Prelude.{◌≡◌, ℕ, ◌+◌, ◌<◌, ◌≤◌, None, IfOk};
ghost use Rattle.cell_trees.specs.Trees.{span, halves, There, IsRoot, looked, Keeps};

use std::alloc::{AllocError, Global};
use std::marker::Model;

/// A tree of cells: one of which none is set, that of one cell which is set to the node at this place of the
/// graph, or that whose halves stand at this place of the list of trees. One root stands for the same cells
/// as long as its list lives.
#[derive(Clone, Copy, PartialEq, Eq)]
pub enum Root {
    Empty,
    Leaf(u32),
    Fork(u32),
}

/// The halves of a tree: that of its lower cells, and that of its upper ones.
#[derive(Clone, Copy)]
pub struct Halves {
    pub lower: Root,
    pub upper: Root,
}

/// Trees of as many cells each, in one list that only grows: the halves of each tree that is no single cell,
/// and that has a cell which is set.
#[derive(Drop)]
pub struct Trees {
    // How often a tree is halved until one cell is left, and how many cells it has.
    depth: usize,
    size: usize,
    forks: Vec<Halves>,
}

impl Model for Trees {
    ghost use Rattle.std.specs.Prelude.{◌≡◌};
    ghost use Rattle.cell_trees.specs.Trees.{Arena, span};

    ghost Value = { Arena };

    ghost view = { λ t. record { depth = t.depth; forks = t.forks.items } };

    ghost invariant = { λ t. t.size ≡ span t.depth };
}

// How often a tree of so many cells or a few more is halved until one cell is left, and how many it has.
fn measures(cells: usize) -> Result<(usize, usize), AllocError>
    ensures size { IfOk result (λ r. r.1 ≡ span r.0) }
    ensures enough { IfOk result (λ r. cells ≤ r.1) }
{
    let mut depth: usize = 0;
    let mut size: usize = 1;
    while size < cells {
        size = match size.checked_add(size) {
            Some(more) => more,
            None => return Err(AllocError),
        };
        depth += 1;
    }
    Ok((depth, size))
}

impl Trees {
    /// A list without halves, for trees of so many cells or a few more.
    pub fn new(alloc: Global, cells: usize) -> Result<Trees, AllocError>
        ensures { IfOk result (λ t. cells ≤ span t.depth) }
    {
        let (depth, size) = measures(cells)?;
        Ok(Trees {
            depth,
            size,
            forks: Vec::new(alloc),
        })
    }

    /// The tree of which no cell is set.
    pub fn empty(&self) -> Root
        ensures root { IsRoot self.now result }
        ensures cells { (c : ℕ) → looked self.now result c ≡ None }
    {
        Root::Empty
    }

    /// How often each tree is halved until one cell is left, and how many cells it has.
    pub(crate) fn measured(&self) -> (usize, usize)
        ensures depth { result.0 ≡ self.now.depth }
        ensures size { result.1 ≡ span result.0 }
    {
        (self.depth, self.size)
    }

    /// The halves of a tree. Those of a single cell, and of a tree that isn't in the list, are empty.
    pub(crate) fn halves(&self, root: Root) -> Halves
        ensures { result ≡ halves self.now.forks root }
    {
        if let Root::Fork(place) = root {
            let place = place as usize;
            if place < self.forks.len() {
                return self.forks[place];
            }
        }
        Halves {
            lower: Root::Empty,
            upper: Root::Empty,
        }
    }

    /// The tree with these halves. The error is that there is no memory, or that its place wouldn't be
    /// below 2 ^ 32.
    pub(crate) fn joined(&mut self, lower: Root, upper: Root) -> Result<Root, AllocError>
        ensures keeps { Keeps self.old self.new }
        ensures there { IfOk result (There self.new.forks) }
        ensures halves { IfOk result (λ r. halves self.new.forks r ≡ record { lower = lower; upper = upper }) }
    {
        if lower == Root::Empty && upper == Root::Empty {
            return Ok(Root::Empty);
        }
        let place = self.forks.len();
        if place > u32::MAX as usize {
            return Err(AllocError);
        }
        self.forks.push(Halves { lower, upper })?;
        Ok(Root::Fork(place as u32))
    }
}
