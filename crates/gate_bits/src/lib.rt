//! Gates of single bits as clauses, and what is made of them alone: lists of bits, sums and orders.
//!
//! Each call appends variables and clauses to a form, and its result follows from the form that comes of it.
//! A form whose first clause is one literal fixes this literal: a call folds it as a constant.
#![tactic(auto)]

pub mod bits;
mod gates;
mod lists;
mod lits;
pub mod orders;
pub mod sums;

pub use gates::{all, and, any, choose, constant, flipped, known, majority, or, truth_of, xor};
pub use lists::{chosen, masked, moved_down, moved_up, turned};
pub use lits::{Lits, inverses};
