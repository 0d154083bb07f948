//! The thread machine of the typed source: what a thread does, its runs, and an interpreter that makes
//! them.
#![tactic(auto)]

mod plan;
mod replay;
mod thread;

pub use replay::{run, safe_at_all, safe_within_more, small_steps_mean};
pub use thread::Thread;
