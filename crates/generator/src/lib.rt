//! The generated program, in whose place no file is read.
#![tactic(auto)]

mod program;

pub use program::generated;
