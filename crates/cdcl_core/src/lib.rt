//! A complete search for a model of a form: unit propagation over a trail of steps, by two watched
//! literals of each clause, and clauses learned from conflicts, which are kept in a log.
#![tactic(auto)]

mod analysis;
mod averages;
mod clauses;
mod lists;
mod order;
mod propagation;
mod search;
mod segments;
mod trail;
mod watches;

pub use analysis::{Analysis, Lesson};
pub use averages::Averages;
pub use clauses::Clauses;
pub use lists::{Lists, Watch};
pub use order::Order;
pub use search::Answer;
pub use segments::{solve, solve_by};
pub use trail::{Mark, Step, Trail};
pub use watches::{Pair, Watches};
