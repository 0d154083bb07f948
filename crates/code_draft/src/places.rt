//! How many places lie behind those that code leads to, and which objects live on the way.

ghost use Rattle.std.specs.Prelude.{◌≡◌, ◌+◌, IfOk};

use std::alloc::AllocError;

/// What is known in front of code.
#[derive(Clone, Copy)]
pub enum Mark {
    /// A label, and how many places lie behind its place, up to the end of the function.
    Label { label: u32, place: usize },
    /// An object lives around it: the line of its declaration, and the variable that has its address.
    Alive { line: u32, home: u32 },
}

/// So many places more. Code that reaches so far can't be had where that has no number.
pub fn more(places: usize, count: usize) -> Result<usize, AllocError>
    ensures { IfOk result (λ n. n ≡ places + count) }
{
    match places.checked_add(count) {
        Some(sum) => Ok(sum),
        None => Err(AllocError),
    }
}
