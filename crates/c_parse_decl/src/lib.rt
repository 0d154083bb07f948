//! The tree of a C file (C11 6.9) among its tokens.
#![tactic(auto)]

mod fault;
mod file;

pub use fault::ParseError;
pub use file::{no_proper_prefix, one_file, one_place, parse};
