//! Explicit checks before the operations of code that may be undefined.
#![tactic(auto)]

mod checks;
mod inserting;
mod totals;

pub use inserting::insert;
