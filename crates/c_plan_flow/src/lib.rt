//! What the tasks of statements, of loops and of the items of blocks do next.
#![tactic(auto)]

mod block_items;
mod plan_statements;

pub use block_items::{
    plan_death, plan_entry, plan_exit, plan_fill, plan_initial, plan_items, plan_settle,
};
pub use plan_statements::{plan_stage, running};
