//! Tests of directives: files, with the tokens or the refusal that each gives.
#![tactic(auto)]

#[cfg(test)]
mod expand_tests;
