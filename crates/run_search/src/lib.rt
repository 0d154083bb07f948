//! The search of a program's runs: a run that breaks a check, or a refutation of the program's clauses.
#![tactic(auto)]

mod searching;
mod stop;
mod used;

pub use searching::{Searched, search};
pub use stop::Stop;
pub use used::Used;
