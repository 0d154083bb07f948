//! What statements and definitions are typed by, apart from declarations: labels and jumps, loops and switches, and nodes (C11 6.8, 6.9).
#![tactic(auto)]

mod files;
mod flows;
mod jumps;
mod nodes;
mod own;
mod places;

pub use files::{Definition, give_bodies, procedures, static_objects};
pub use flows::{
    add_case, add_default, begin, close_switch, end, next_label, next_loop, open_switch,
    switch_type,
};
pub use jumps::{Ahead, Labels, add_labels, ahead_of};
pub use nodes::{
    Around, block_of, break_on, case_on, continue_on, default_on, do_on, evaluated, for_on,
    goto_on, if_else_on, if_on, in_loop, in_switch, label_on, part_ignored, part_tested,
    return_nothing, returned, switch_of, while_on,
};
pub use own::{is_variadic, own_suffix, parameters_in};
