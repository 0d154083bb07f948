//! The form of a file's one thread is one of the forms of threads.
#![tactic(auto)]

mod laws;

pub use laws::form_is_of_threads;
