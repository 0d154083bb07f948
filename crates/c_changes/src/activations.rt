//! How often each function may still be called within itself.

ghost use Rattle.std.specs.Prelude.{◌≡◌, ◌≤◌, ◌<◌, ◌==◌, ◌^◌, false, length, slice_index, IfOk};
ghost use Rattle.core_tree.specs.Trees.{view_functions};
ghost use Rattle.c_meaning.specs.Source.{first_left};
ghost use Rattle.c_meaning.specs.Meaning.{total, opened};
ghost use Rattle.c_tasks.specs.Items.{closed};

use core_tree::{Bounds, Function};
use std::alloc::{AllocError, Global};

/// How many activations of each function may be opened at the start of a thread.
#[tactic(auto, using(crate::proofs::OpenLeft::first_few))]
pub fn first_left(
    alloc: Global,
    functions: &[Function],
    bounds: &Bounds,
) -> Result<Vec<u64>, AllocError>
    requires { length functions.now < 2 ^ 31 }
    ensures left { IfOk result (λ left. left.items ≡ first_left (view_functions functions.now) bounds.now) }
    ensures few { IfOk result (λ left. total left.items ≤ 2 ^ 42) }
{
    vec![in alloc; bounds.unwind() as u64; functions.len()]
}

/// An activation of the function is over.
pub fn close_activation(left: &mut Vec<u64>, function: u32)
    requires { total left.old.items ≤ 2 ^ 42 }
    ensures { left.new.items ≡ closed left.old.items function }
{
    if let Some(more) = left.get_mut(function as usize) {
        *more += 1;
    }
}

/// An activation of the function begins.
pub fn open_activation(left: &mut Vec<u64>, function: u32)
    requires { (slice_index left.old.items function == 0) ≡ false }
    ensures { left.new.items ≡ opened left.old.items function }
{
    if let Some(more) = left.get_mut(function as usize) {
        *more -= 1;
    }
}
