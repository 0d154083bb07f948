//! What a typed file means: its threads, and what its run finds at the start.
#![tactic(auto)]

mod functions;
mod objects;

pub use functions::number_of_main;
pub use objects::{are_storable, first_store};
