//! The profile: which typed files are checked, and the rule that another file breaks.
#![tactic(auto)]

mod admitted;
mod breach;
mod breaches;

pub use admitted::{Admitted, Refusal, admit};
