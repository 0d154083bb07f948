//! Operands of expressions and what operators make of them (C11 6.5): nodes of the typed tree, constants, and operands of numbers, structures and arrays.
#![tactic(auto)]

mod constants;
mod nodes;
mod operands;
mod operators;

pub use constants::{constant_of, stated_length};
pub use nodes::{
    as_type, binary_node, character_node, constant_node, in_box, left_type, low_bits, operator_of,
    place_in_box, right_type, size_node, structure_in_box,
};
pub use operands::{
    CoreOperand, Home, bytes_of, computed, constant_in, dropped, made, member_node, name_node,
    number, operand_bytes, record_value, same_record, sized_operand, used,
};
pub use operators::{
    assign_operand, binary_operand, cast_operand, choice_operand, comma_operand, postfix_operand,
    unary_operand,
};
