//! Forms in conjunctive normal form, assignments, whether one satisfies the other, and logs of a search.
#![tactic(auto)]

mod assignments;
mod clauses;
mod forms;
mod laws;
mod lits;
mod logs;

pub use assignments::{Assignment, is_model};
pub use clauses::{Clause, is_within};
pub use forms::Cnf;
pub use laws::{no_model, units_differ, units_follow};
pub use lits::Lit;
pub use logs::{Entry, Hints, Log};
