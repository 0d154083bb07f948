//! The objects of a program as nodes of a word graph: which of them a pointer points to, what an access breaks and
//! finds, and what it leaves.
#![tactic(auto)]

mod breaking;
mod finding;
mod making;
mod memory;
mod places;
mod reading;
mod writing;

pub use memory::Memory;
pub use places::{Failing, Found, Place};
