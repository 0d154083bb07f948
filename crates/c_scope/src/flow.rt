//! How far a function is typed.

use c_types::{IntegerType, Ty};
use indexmap::IndexSet;

/// The cases of a switch so far: the type of its value, the bits of theirs, and whether `default` is among them.
#[derive(Drop)]
pub struct Cases {
    pub type_: IntegerType,
    pub values: IndexSet<u64>,
    pub has_default: bool,
}

/// What the function gives that is typed, how many loops and how many labels it has so far, and the cases of the innermost switch.
#[derive(Drop)]
pub struct Flow {
    pub gives: Ty,
    pub loops: u32,
    pub labels: u32,
    pub switch: Option<Cases>,
}
