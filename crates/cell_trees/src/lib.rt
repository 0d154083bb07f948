//! Cells by their numbers, each set to a node of a word graph or not, as trees that share their parts: a tree
//! with a cell changed is one more tree, and the old one stays.
#![tactic(auto)]

mod arena;
mod comparing;
mod looking;
mod writing;

pub use arena::{Halves, Root, Trees};
