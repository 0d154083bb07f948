//! The goal of a graph of words as clauses.
#![tactic(auto)]

mod bits;
mod blasting;
mod encode;
mod lifting;
mod lists;
mod marks;
mod operations;
mod variables;

pub use blasting::{Blasted, blast};
pub use lifting::lift;
pub use lists::LitLists;
