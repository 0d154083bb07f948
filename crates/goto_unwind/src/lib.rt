//! Unrolls the code of a program under the bounds of a command, so that no loop and no call is left, and counts how
//! much that is.
#![tactic(auto)]

mod counting;
mod level;
mod linear_count;
mod loop_bounds;
mod objects;
mod renumbering;
mod trees;
mod unroller;
mod unrolling;
mod walk;

pub use counting::{Counts, count};
pub use unrolling::{UnwindError, passed_limit, unwind};
