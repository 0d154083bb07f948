//! The cells of an object: a byte each, and how often it was written.

ghost use Rattle.std.specs.Prelude.{◌≡◌};
ghost use Rattle.actions.specs.Access.{is_one_cell, is_mixed};

use std::alloc::AllocError;
use std::marker::Model;

/// One cell of an object: an offset and a size, in bytes.
#[derive(Clone, Copy, PartialEq, Eq)]
pub struct Cell {
    pub offset: u32,
    pub size: u32,
}

/// The cells of an object, by rising offset. An object without cells isn't shared.
#[derive(Drop)]
pub struct Cells {
    items: Vec<Cell>,
}

impl Model for Cells {
    ghost use Rattle.std.specs.Prelude.{List};
    ghost use Rattle.actions.specs.declared.cells.Cell.{Cell};

    ghost Value = { List Cell };

    ghost view = { λ c. c.items.items };
}

impl Clone for Cells {
    ghost is_clone = { λ c d. d ≡ c };

    fn clone(&self) -> Result<Cells, AllocError> {
        Ok(Cells {
            items: self.items.clone()?,
        })
    }
}

impl Cells {
    /// The cells of a vector. Takes no memory.
    pub fn new(items: Vec<Cell>) -> Cells
        ensures { result ≡ items.items }
    {
        Cells { items }
    }

    /// The vector of the cells. Takes no memory.
    pub fn into_vec(self) -> Vec<Cell>
        ensures { result.items ≡ self }
    {
        self.items
    }

    /// The cells, in order.
    pub fn as_slice(&self) -> &[Cell]
        ensures { result.now ≡ self.now }
    {
        self.items.as_slice()
    }

    /// There are cells, and none of them is the n bytes from the offset `at` on.
    pub(crate) fn is_mixed(&self, at: u32, n: usize) -> bool
        ensures { result ≡ is_mixed self.now at n }
    {
        !self.items.is_empty() && !self.has(at, n)
    }

    fn has(&self, at: u32, n: usize) -> bool
        ensures { result ≡ is_one_cell self.now at n }
    {
        self.items
            .iter()
            .any(|cell| cell.offset == at && cell.size as usize == n)
    }
}
