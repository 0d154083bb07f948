//! The actions by which a thread of the checked program meets what it shares with others, the store
//! that they act on, and the meaning of a thread: what is next after each list of answers.
#![tactic(auto)]

mod action;
mod bytes;
mod cells;
mod laws;
mod machine;
mod object;
mod store;
mod thread_state;

pub use action::{Action, Answer, DrawBits, Next};
pub use bytes::Bytes;
pub use cells::{Cell, Cells};
pub use laws::{changes_write_alone, rows_look_alone, same_local_runs};
pub use machine::Machine;
pub use object::Object;
pub use store::{AccessError, Store};
pub use thread_state::ThreadState;
