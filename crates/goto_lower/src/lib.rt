//! Lowers typed trees to code with loops and calls, in one pass.
#![tactic(auto)]

mod exits;
mod first_values;
mod initializers;
mod jumps;
mod lowering;
mod objects;
mod statements;
mod switches;

pub use lowering::lower;
