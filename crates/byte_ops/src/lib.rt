//! Bytes of a block at an offset that is a node of a word graph: a number read there, and bytes written there (read over write
//! in the theory of arrays: McCarthy 1962, Towards a mathematical science of computation).
#![tactic(auto)]

mod low_bits;
mod places;
mod selecting;
mod updating;

pub use low_bits::{LowBits, known_bits};
pub use places::{PlaceTest, TestedOffset, tested_offset};
pub use selecting::{select, select_within};
pub use updating::{update, update_within};
