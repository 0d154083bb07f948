//! Products, quotients and shifts of words as clauses, over lists of literals that stand for the bits of words, the lowest
//! first.
//!
//! Each call appends variables and clauses to a form, and its result follows from the form that comes of it.
#![tactic(auto)]

pub mod products;
pub mod quotients;
pub mod shifts;
