//! Forms of many threads: a valuation of their variables gives a consistent candidate, and a run gives a valuation.
#![tactic(auto)]

mod laws;

pub use laws::{
    candidates_are_fit, forms_exist, goals_are_candidates, meets_is_consistent, runs_are_told,
    runs_give_valuations, scripts_are_bounded, scripts_have_forms, tables_are_told,
};
