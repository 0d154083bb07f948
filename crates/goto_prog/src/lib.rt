//! Code of a program: instructions over registers and blocks of bytes, with jumps forward alone, in loops of
//! functions that call each other, or flat, without loops and calls; and the threads that run it.
#![tactic(auto)]

mod activation;
mod answers;
mod block;
mod code;
mod cursor;
mod flow;
mod frame;
mod goto;
mod listing;
mod machines;
mod nodes;
mod program;
mod runner;
mod steps;
mod threads;
mod walker;

pub use code::{Condition, Instruction, Operation};
pub use goto::{Goto, Unrolled};
pub use listing::Code;
pub use machines::{PlainThread, StrictThread, UnrolledThread};
pub use nodes::{Kind, Node, Procedure, kind_of};
pub use program::resolved;
