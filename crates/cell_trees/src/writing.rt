//! Trees with some cells changed.

ghost use Rattle.std.specs.Prelude.{◌≡◌, ◌==◌, ℕ, ◌+◌, ◌-◌, ◌^◌, ◌<◌, ◌≤◌, Some, None, slice_get, length, IfOk, if◌then◌else◌};
ghost use Rattle.cell_trees.specs.Trees.{span, leaf, IsTree, IsRoot, looked, looked_at, Keeps, Replaced};
ghost use Rattle.cell_trees.specs.inner.Filling.{Filled};

use crate::arena::{Root, Trees};
use std::alloc::AllocError;
use word_dag::Id;

// The tree of one cell, set to one of these nodes, if there is one at this place.
fn leaf(new: &[Id], from: usize) -> Result<Root, AllocError>
    ensures { IfOk result (λ r. leaf r ≡ slice_get new.now from) }
{
    if from >= new.len() {
        return Ok(Root::Empty);
    }
    let index = new[from].index;
    if index > u32::MAX as usize {
        return Err(AllocError);
    }
    Ok(Root::Leaf(index as u32))
}

impl Trees {
    // A tree of this depth and size with so many cells from one on set to the nodes from a place on, and those
    // behind the last node to none.
    fn filled(
        &mut self,
        depth: usize,
        size: usize,
        root: Root,
        at: usize,
        count: usize,
        new: &[Id],
        from: usize,
    ) -> Result<Root, AllocError>
        requires size { size ≡ span depth }
        requires some { 0 < count }
        requires within { at + count ≤ size }
        requires room { from + count < 2 ^ 64 }
        requires root { IsTree self.old.forks depth root }
        ensures keeps { Keeps self.old self.new }
        ensures tree { IfOk result (IsTree self.new.forks depth) }
        ensures filled { IfOk result (λ r. Filled (looked_at self.old.forks depth root) at from count new.now (looked_at self.new.forks depth r)) }
    {
        if depth == 0 {
            let root = leaf(new, from)?;
            return Ok(root);
        }
        if count == size && from >= new.len() {
            return Ok(Root::Empty);
        }
        let half = size / 2;
        let halves = self.halves(root);
        if at + count <= half {
            let lower = self.filled(depth - 1, half, halves.lower, at, count, new, from)?;
            let root = self.joined(lower, halves.upper)?;
            return Ok(root);
        }
        if half <= at {
            let upper = self.filled(depth - 1, half, halves.upper, at - half, count, new, from)?;
            let root = self.joined(halves.lower, upper)?;
            return Ok(root);
        }
        let front = half - at;
        let lower = self.filled(depth - 1, half, halves.lower, at, front, new, from)?;
        let upper = self.filled(
            depth - 1,
            half,
            halves.upper,
            0,
            count - front,
            new,
            from + front,
        )?;
        let root = self.joined(lower, upper)?;
        Ok(root)
    }

    /// A tree with so many cells from one on changed: the first of them are set to these nodes, and the others
    /// to none. The error is that there is no memory, that there would be 2 ^ 32 trees, or that a node's place
    /// isn't below 2 ^ 32; all roots stand for what they stood for then too.
    pub fn replaced(
        &mut self,
        root: Root,
        at: usize,
        count: usize,
        new: &[Id],
    ) -> Result<Root, AllocError>
        requires root { IsRoot self.old root }
        requires within { at + count ≤ span self.old.depth }
        ensures keeps { Keeps self.old self.new }
        ensures root { IfOk result (IsRoot self.new) }
        ensures replaced { IfOk result (λ r. Replaced (looked self.old root) at count new.now (looked self.new r)) }
    {
        if count == 0 {
            return Ok(root);
        }
        let (depth, size) = self.measured();
        let next = self.filled(depth, size, root, at, count, new, 0)?;
        Ok(next)
    }

    /// A tree with a cell set. The errors are those of `replaced`.
    pub fn put(&mut self, root: Root, cell: usize, id: Id) -> Result<Root, AllocError>
        requires root { IsRoot self.old root }
        requires within { cell < span self.old.depth }
        ensures keeps { Keeps self.old self.new }
        ensures root { IfOk result (IsRoot self.new) }
        ensures cells { IfOk result (λ r. (c : ℕ) → looked self.new r c ≡ (if cell == c then Some id else looked self.old root c)) }
    {
        let new = [id];
        let next = self.replaced(root, cell, 1, &new)?;
        Ok(next)
    }

    /// A tree with a cell set to none. The errors are those of `replaced`.
    pub fn without(&mut self, root: Root, cell: usize) -> Result<Root, AllocError>
        requires root { IsRoot self.old root }
        requires within { cell < span self.old.depth }
        ensures keeps { Keeps self.old self.new }
        ensures root { IfOk result (IsRoot self.new) }
        ensures cells { IfOk result (λ r. (c : ℕ) → looked self.new r c ≡ (if cell == c then None else looked self.old root c)) }
    {
        let none: [Id; 0] = [];
        let next = self.replaced(root, cell, 1, &none)?;
        Ok(next)
    }
}
