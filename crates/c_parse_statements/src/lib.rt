//! The trees of statements and definitions among the tokens of a file (C11 6.8, 6.9).
#![tactic(auto)]

mod definitions;
mod statements;
mod table;

pub use definitions::external;
