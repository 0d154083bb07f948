//! Operands with a C type of their own, pointers among them, and what operators make of them (C11 6.5).
#![tactic(auto)]

mod binary_operators;
mod choices;
mod conversions;
mod names;
mod place_operators;
mod pointer_operators;
mod subscripts;
mod typed_operands;
mod unary_operators;
mod updates;

pub use binary_operators::{binary_operand, comma_by, comma_operand};
pub use choices::choice_operand;
pub use conversions::{assigned, cast_node, integral, is_null, record_from, scalar};
pub use names::{function_node, object_node, string_node, variable_node};
pub use place_operators::{arrow_node, member_node, step_node};
pub use pointer_operators::{arithmetic_node, valued};
pub use subscripts::subscript_node;
pub use typed_operands::{
    TypedOperand, address_node, address_of, dereference_node, dropped, made, part_of, place_line,
    settled, used, used_place, used_structure, variable_of,
};
pub use unary_operators::{not_node, operand_bytes, sign_node, sized_operand};
pub use updates::assignment_operand;
