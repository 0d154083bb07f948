//! Tests of graphs of words: what their nodes mean, the nodes of values and of bytes, and the clauses of goals.
#![tactic(auto)]

#[cfg(test)]
mod byte_tests;
#[cfg(test)]
mod clause_tests;
#[cfg(test)]
mod graph_tests;
#[cfg(test)]
mod node_values;
#[cfg(test)]
mod value_tests;
