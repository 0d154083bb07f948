//! The node of a cell.

ghost use Rattle.std.specs.Prelude.{◌≡◌};
ghost use Rattle.cell_trees.specs.Trees.{leaf, looked};

use crate::arena::{Root, Trees};
use word_dag::Id;

// The node of a tree of one cell, if it is set.
fn leaf(root: Root) -> Option<Id>
    ensures { result ≡ leaf root }
{
    match root {
        Root::Leaf(place) => Some(Id {
            index: place as usize,
        }),
        Root::Empty | Root::Fork(_) => None,
    }
}

impl Trees {
    /// The node of a cell of a tree, if it is set.
    pub fn look(&self, root: Root, cell: usize) -> Option<Id>
        ensures { result ≡ looked self.now root cell }
    {
        let (mut depth, mut size) = self.measured();
        let mut here = root;
        let mut left = cell;
        while depth > 0 {
            depth -= 1;
            size /= 2;
            let halves = self.halves(here);
            if left < size {
                here = halves.lower;
            } else {
                left -= size;
                here = halves.upper;
            }
        }
        if left == 0 { leaf(here) } else { None }
    }
}
