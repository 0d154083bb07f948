//! The blocks that the code of a typed tree uses for values on the way.
#![tactic(auto)]

mod accesses;
mod sizes;
mod temporaries;

pub use accesses::{Access, access_to, home_in};
pub use sizes::{number_type, value_size};
pub use temporaries::{HEAP_BYTES, Temporaries, statement_temporaries};
