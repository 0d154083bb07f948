//! The code of a typed file: which it is, that its parts fit, and that it does what the source does.
#![tactic(auto)]

mod laws;

pub use laws::{lowered_code_fits, lowered_code_is_static, lowering_keeps_meaning};
