//! What a step changes: what a task does with an answer, the stacks of a thread, and the activations.
#![tactic(auto)]

mod activations;
mod answered;
mod stacks;

pub use activations::{close_activation, first_left, open_activation};
pub use answered::answer_task;
pub use stacks::{
    change_numbers, change_structures, change_tasks, change_variables, cut_items, push_back,
};
