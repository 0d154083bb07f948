//! Which objects the pointers of unrolled code may point to.
#![tactic(auto)]

mod sets;

pub use sets::Sets;
