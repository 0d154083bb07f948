//! The code of a function while it is made: that of expressions and structure values grows at its end, and
//! is put before the nodes of what stands behind it.
#![tactic(auto)]

mod accesses;
mod allocations;
mod draft;
mod expressions;
mod operand;
mod places;
mod pointers;
mod structures;

pub use draft::Draft;
pub use operand::Operand;
pub use places::{Mark, more};
