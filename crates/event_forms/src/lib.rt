//! The form of a thread: guarded events over a word graph, which tell a run under each valuation of its variables. A
//! formula over such events asks that a goal is true; what it says of the runs of the threads is said here, whoever makes
//! it.
#![tactic(auto)]

mod forms;
mod formula;

pub use forms::{Event, EventId, EventKind, Nodes, ThreadForm};
pub use formula::Formula;
