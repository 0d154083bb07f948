//! Turns and runs of any machine: which thread moves is told by a schedule, what it draws by inputs.
#![tactic(auto)]

mod counts;
mod effect;
mod inputs;
mod law;
mod runner;
mod script;
mod shared;
mod system;
mod turn;

pub use inputs::{Inputs, Schedule, Trace, Words};
pub use law::{same_systems, same_turns};
pub use script::{Script, Step};
pub use system::System;
pub use turn::{Outcome, Turn};
