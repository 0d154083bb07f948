//! Nodes of a word graph made again: simplified, and with known variables replaced by the nodes that have their
//! values.
#![tactic(auto)]

mod folding;
mod known;
mod operands;

pub use folding::{side, simplified, truth};
pub use known::Known;
