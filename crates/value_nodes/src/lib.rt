//! The operators of C on numbers of integer types, as nodes of a graph of words.
#![tactic(auto)]

mod bytes;
mod checks;
mod numbers;
mod operations;
mod pointer_checks;
mod pointers;
mod truth;

pub use bytes::{bytes_of_word, loaded, stored, word_of_bytes};
pub use checks::{count_fails, left_shift_fails, negation_fails, quotient_fails, range_fails};
pub use numbers::{compared, constant, converted, is_zero, sign};
pub use operations::arithmetic;
pub use pointer_checks::{leaves_range, lies_outside, objects_differ, product_exceeds};
pub use pointers::{
    displaced, elements_between, moved, object_of, offset_of, offsets_compared, pointer_to,
};
pub use truth::{both, chosen, either, equal, inverse, nonzero_test, zero_test};
