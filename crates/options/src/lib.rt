//! The command: its words read as options and a FILE.
#![tactic(auto)]

mod laws;
mod loops;
mod numbers;
mod options;
mod reading;
mod table;
mod texts;

pub use laws::one_command;
pub use options::{CommandError, Job, Options, Task};
pub use reading::read_words;
