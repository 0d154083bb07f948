//! The formula of a file with one thread: it is true of the runs that break a check.
#![tactic(auto)]

mod chain;
mod formula;
mod memory;
mod replacing;

pub use formula::sequential;
