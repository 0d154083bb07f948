//! Tests of the texts of answers, and of failure texts that are read back.
#![tactic(auto)]

#[cfg(test)]
mod text_tests;
#[cfg(test)]
mod trace_tests;
