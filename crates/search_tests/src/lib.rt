//! Tests of gates and of the search.
#![tactic(auto)]

#[cfg(test)]
mod solver_tests;
