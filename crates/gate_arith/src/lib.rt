//! Gates of arithmetic as clauses: adders, multipliers, dividers, shifters and orders over lists of
//! literals that stand for the bits of words, the lowest first.
//!
//! Each call appends variables and clauses to a form, and its result follows from the appended
//! clauses alone. A form whose first clause is one literal fixes this literal: a call folds it as a
//! constant, and then begins its clauses with that one again.
#![tactic(auto)]

mod operations;
mod ranges;

pub use gate_words::shifts::Shift;
pub use operations::{
    adder, all, any, choice, conjunction, difference, difference_fits, disjunction, divider, equal,
    exclusive, left_shift_fits, less, multiplier, negation, product_fits, shifter, sum_fits,
};
