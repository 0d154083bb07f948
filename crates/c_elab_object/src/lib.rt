//! Declarations: the variables, objects, functions and typedef names that declarators declare (C11 6.7).
#![tactic(auto)]

mod callables;
mod declarator_lists;
mod object_entries;

pub use callables::{declared_callable, definition_on, function_on};
pub use declarator_lists::{declare, declare_outside};
