//! Tests of the layers at the bottom, each by its public calls. They stand apart from the layers, since a crate with tests is
//! proved twice.
#![tactic(auto)]

#[cfg(test)]
mod lexer_tests;
#[cfg(test)]
mod outside_tests;
#[cfg(test)]
mod store_tests;
#[cfg(test)]
mod turn_tests;
#[cfg(test)]
mod word_tests;
