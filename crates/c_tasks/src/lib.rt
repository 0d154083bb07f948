//! What is to be done of the typed source, task by task: the tasks and the bytes of variables, the small steps that
//! they stand for, and plans as they are put together.
#![tactic(auto)]

mod functions;
mod plan_changes;
mod task;
mod variables;

pub use functions::{Body, body_of, defined};
pub use plan_changes::{
    count_drawn, count_more, decides, evaluating, evaluation, finishing, held_pointer,
    home_of_variable, instead, integer_of, locating, number_type_of, operand_first, operands_first,
    place_and_operand, place_first, plan_passed_bound, pushes, puts, second_of, size_of_top,
    size_of_variable, stacks, structure_first, takes, top_of, variable_of, writes,
};
pub use task::{
    Call, Caller, Change, Cut, Halt, Handed, Look, Part, Plan, Request, Stacked, Stage, Taken,
    Task, Tasks, Wanted, Written,
};
pub use variables::{Block, add_variables, read_number, read_variable, take_frame};
