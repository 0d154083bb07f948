//! The types of C, with the sizes of LP64 (System V ABI for AMD64).
#![tactic(auto)]

mod extents;
mod fault;
mod integers;
mod layouts;
mod listing;
mod sizes;
mod types;

pub use extents::prove_padded;
pub use fault::{Incomplete, LayoutError};
pub use integers::{IntegerType, common, promote};
pub use layouts::Layouts;
pub use listing::cells;
pub use sizes::{MOST_BYTES, POINTER_BYTES, align_of, is_complete, is_sized, size_of};
pub use types::{Cell, RecordKind, Ty, ValueType, same};
