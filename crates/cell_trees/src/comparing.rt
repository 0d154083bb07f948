//! The cells in which two trees differ.

ghost use Rattle.std.specs.Prelude.{◌≡◌, ℕ, ◌+◌, ◌^◌, ◌<◌, false, IfOk, OnOk};
ghost use Rattle.cell_trees.specs.Trees.{span, among, looked, looked_at};

use crate::arena::{Root, Trees};
use std::alloc::{AllocError, Global};

impl Trees {
    // Adds the cells in which two trees of this depth and size differ, counted from a cell on.
    fn compare(
        &self,
        depth: usize,
        size: usize,
        base: usize,
        first: Root,
        second: Root,
        cells: &mut Vec<usize>,
    ) -> Result<(), AllocError>
        requires size { size ≡ span depth }
        requires room { base + size < 2 ^ 64 }
        ensures grows { (c : ℕ) → among cells.new.items c ≡ false → among cells.old.items c ≡ false }
        ensures same { OnOk result ((c : ℕ) → among cells.new.items (base + c) ≡ false → looked_at self.now.forks depth first c ≡ looked_at self.now.forks depth second c) }
    {
        if first == second {
            return Ok(());
        }
        if depth == 0 {
            cells.push(base)?;
            return Ok(());
        }
        let half = size / 2;
        let one = self.halves(first);
        let other = self.halves(second);
        self.compare(depth - 1, half, base, one.lower, other.lower, cells)?;
        self.compare(depth - 1, half, base + half, one.upper, other.upper, cells)?;
        Ok(())
    }

    /// The cells in which two trees may differ, in rising order. Parts that the trees share aren't looked at.
    pub fn differing(
        &self,
        alloc: Global,
        first: Root,
        second: Root,
    ) -> Result<Vec<usize>, AllocError>
        ensures { IfOk result (λ r. (c : ℕ) → among r.items c ≡ false → looked self.now first c ≡ looked self.now second c) }
    {
        let (depth, size) = self.measured();
        let mut cells = Vec::new(alloc);
        self.compare(depth, size, 0, first, second, &mut cells)?;
        Ok(cells)
    }
}
