//! Candidates: events of threads with clocks and sources, and why the consistent ones are the runs.
#![tactic(auto)]

mod laws;

pub use laws::{
    candidates_replay, ranks_rise, rows_read_alone, runs_have_candidates, scripts_are_families,
    tables_hold, words_are_inputs,
};
