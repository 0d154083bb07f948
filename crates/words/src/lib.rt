//! Machine words of 1 to 64 bits with the operators of C, each by its whole-number meaning,
//! and the classes of checks that a run of a program can break.
#![tactic(auto)]

mod check;
mod word;

pub use check::{Check, Class};
pub use word::Word;
