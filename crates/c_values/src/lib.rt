//! Numbers of integer types: conversions, operations and their checks, the bytes that hold them, and
//! pointers to objects.
#![tactic(auto)]

mod blocks;
mod draws;
mod number;
mod objects;
mod pointers;

pub use blocks::{low_bytes, read_block, write_block};
pub use draws::{drawn_count, word_count};
pub use number::{Number, broken_by, broken_sign, compare, operate, sign, signed_value, value};
pub use objects::made_of;
pub use pointers::{elements_between, further, moved, object_of, offset_of, pointer_to};
