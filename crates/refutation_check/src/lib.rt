//! Whether a log of clauses refutes a form: each added clause follows by unit propagation from those
//! before it, each deleted one is there, and the last entry adds the empty clause.
#![tactic(auto)]

mod checker;
mod literals;
mod moments;
mod propagation;

pub use checker::Checker;
