//! Graphs of operations on words of 1 to 64 bits. A node is a constant, a variable or an operation on
//! earlier nodes; the values of all nodes follow from the values of the variables.
#![tactic(auto)]

mod evaluate;
mod graph;
mod nodes;
mod valuations;

pub use graph::Dag;
pub use nodes::{BinaryOperator, Comparison, FitsTest, Id, Node, Quantifier, ShiftKind};
pub use valuations::Valuation;
