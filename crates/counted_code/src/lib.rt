//! The objects of lowered code: it makes as many as the typed file counts.
#![tactic(auto)]

mod laws;

pub use laws::lowered_code_counts_objects;
