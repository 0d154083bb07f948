//! What the tasks of expressions, of places, of structure values and of calls do next.
#![tactic(auto)]

mod allocations;
mod calls;
mod places;
mod plan_expressions;
mod pointers;
mod structures;

pub use allocations::{plan_admit, plan_draw_words, plan_make, plan_try};
pub use calls::{plan_add, plan_call_task, plan_get};
pub use places::{
    line_of_place, plan_combine, plan_increment, plan_place, plan_place_finish, plan_rewrite,
    plan_store,
};
pub use plan_expressions::{plan_expression, plan_finish};
pub use pointers::{plan_advance, plan_arrive, plan_land, plan_move};
pub use structures::{
    plan_initial_structure, plan_list, plan_place_number, plan_place_structure, plan_structure_task,
};
