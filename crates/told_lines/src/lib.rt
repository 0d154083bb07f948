//! The lines that the checker tells: each is at least 1.
#![tactic(auto)]

mod laws;

pub use laws::{expanded_lines, run_lines, token_lines, told_lines, tree_lines, typed_lines};
