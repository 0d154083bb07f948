//! Checks one C file: the words of the command line and the bytes of the file in, the report and the status out.
//!
//! `top` is the whole of it. Its clauses say when each answer comes: a success only where no inputs and no schedule break
//! a check of the file's program, and with a refutation of the file's clauses, a failure only with a run that breaks the
//! check that is told, one of the two for each file in the profile of which no count passes its limit, unless a log of
//! the search shows that the budget was used up, and a refusal or a limit exactly where it is the first thing that stops
//! the file.
#![tactic(auto)]

mod accepting;
mod call;
mod failing;
mod finding;
mod laws;
mod reading;
mod reporting;
mod verdict;

pub use call::{Done, top};
pub use laws::{listing_answers, one_answer, one_program, one_verdict, runs_answer};
pub use options::{Job, Options, Task};
pub use report::one_reading;
pub use run_search::Used;
pub use verdict::{Verdict, check_bytes};
