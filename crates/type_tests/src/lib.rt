//! Tests of the types and of how they lie in memory, by the public calls of their crate.
#![tactic(auto)]

#[cfg(test)]
mod type_tests;
