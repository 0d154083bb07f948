//! The run that breaks a check, out of the values that make a formula true.
#![tactic(auto)]

mod building;
mod values;
mod walking;

pub use building::build;
