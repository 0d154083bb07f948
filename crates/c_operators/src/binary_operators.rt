//! Operators of two used operands (C11 6.5.5 to 6.5.14, 6.5.17).

ghost use Rattle.core_tree.specs.Trees.{view};
ghost use Rattle.c_scope.specs.Faults.{GivesNode};
ghost use Rattle.c_operators.specs.Pointers.{view_typed, logical_node, integers_node, with_kinds, add_node, subtract_node, compared_by, related_by, binary_operand, comma_by, comma_operand};

use crate::conversions::{integral, is_null, scalar};
use crate::pointer_operators::{
    add_node, arithmetic_node, equality_node, relation_node, subtract_node, valued,
};
use crate::typed_operands::{TypedOperand, dropped, made};
use c_operands::{in_box, structure_in_box};
use c_scope::Broken;
use c_tree::BinaryOp;
use c_types::{IntegerType, Layouts, Ty};
use core_tree::{Comparison, CoreExpr, CoreStructure, LogicalOperator};
use std::alloc::Global;

fn logical_node(
    alloc: Global,
    line: u32,
    operator: LogicalOperator,
    left: TypedOperand,
    right: TypedOperand,
) -> Result<TypedOperand, Broken>
    ensures { GivesNode view_typed result (logical_node line operator (view_typed left) (view_typed right)) }
{
    let left = scalar(left, 7)?;
    let right = scalar(right, 7)?;
    let node = CoreExpr::Logical {
        line,
        operator,
        left,
        right,
    };
    Ok(TypedOperand::Value {
        type_: Ty::Integer(IntegerType::Int),
        null: false,
        value: in_box(alloc, node)?,
    })
}

// An operator of two integers alone.
fn integers_node(
    alloc: Global,
    line: u32,
    operator: BinaryOp,
    left: TypedOperand,
    right: TypedOperand,
) -> Result<TypedOperand, Broken>
    ensures { GivesNode view_typed result (integers_node line operator (view_typed left) (view_typed right)) }
{
    let (t, a) = integral(left, 7)?;
    let (u, b) = integral(right, 7)?;
    arithmetic_node(alloc, line, operator, (t, u), a, b)
}

fn sum(
    alloc: Global,
    line: u32,
    left: TypedOperand,
    right: TypedOperand,
    layouts: &Layouts,
) -> Result<TypedOperand, Broken>
    ensures { GivesNode view_typed result (with_kinds (add_node layouts.now.done line) (view_typed left) (view_typed right)) }
{
    let left = valued(left)?;
    let right = valued(right)?;
    add_node(alloc, line, left, right, layouts)
}

fn difference(
    alloc: Global,
    line: u32,
    left: TypedOperand,
    right: TypedOperand,
    layouts: &Layouts,
) -> Result<TypedOperand, Broken>
    ensures { GivesNode view_typed result (with_kinds (subtract_node layouts.now.done line) (view_typed left) (view_typed right)) }
{
    let left = valued(left)?;
    let right = valued(right)?;
    subtract_node(alloc, line, left, right, layouts)
}

fn compared(
    alloc: Global,
    line: u32,
    operator: BinaryOp,
    comparison: Comparison,
    left: TypedOperand,
    right: TypedOperand,
) -> Result<TypedOperand, Broken>
    ensures { GivesNode view_typed result (compared_by line operator comparison (view_typed left) (view_typed right)) }
{
    let nulls = (is_null(&left), is_null(&right));
    let left = valued(left)?;
    let right = valued(right)?;
    equality_node(alloc, line, operator, comparison, left, right, nulls)
}

fn related(
    alloc: Global,
    line: u32,
    operator: BinaryOp,
    comparison: Comparison,
    left: TypedOperand,
    right: TypedOperand,
) -> Result<TypedOperand, Broken>
    ensures { GivesNode view_typed result (related_by line operator comparison (view_typed left) (view_typed right)) }
{
    let left = valued(left)?;
    let right = valued(right)?;
    relation_node(alloc, line, operator, comparison, left, right)
}

/// What a binary operator makes of two used operands (C11 6.5.5 to 6.5.14).
pub fn binary_operand(
    alloc: Global,
    line: u32,
    operator: BinaryOp,
    left: TypedOperand,
    right: TypedOperand,
    layouts: &Layouts,
) -> Result<TypedOperand, Broken>
    ensures { GivesNode view_typed result (binary_operand layouts.now.done line operator (view_typed left) (view_typed right)) }
{
    let comparison = match operator {
        BinaryOp::LogicalOr => {
            return logical_node(alloc, line, LogicalOperator::Or, left, right);
        }
        BinaryOp::LogicalAnd => {
            return logical_node(alloc, line, LogicalOperator::And, left, right);
        }
        BinaryOp::Add => return sum(alloc, line, left, right, layouts),
        BinaryOp::Subtract => return difference(alloc, line, left, right, layouts),
        BinaryOp::Equal => {
            return compared(alloc, line, operator, Comparison::Equal, left, right);
        }
        BinaryOp::NotEqual => {
            return compared(alloc, line, operator, Comparison::NotEqual, left, right);
        }
        BinaryOp::Less => Comparison::Less,
        BinaryOp::Greater => Comparison::Greater,
        BinaryOp::LessEqual => Comparison::LessEqual,
        BinaryOp::GreaterEqual => Comparison::GreaterEqual,
        BinaryOp::Or
        | BinaryOp::Xor
        | BinaryOp::And
        | BinaryOp::ShiftLeft
        | BinaryOp::ShiftRight
        | BinaryOp::Multiply
        | BinaryOp::Divide
        | BinaryOp::Remainder => return integers_node(alloc, line, operator, left, right),
    };
    related(alloc, line, operator, comparison, left, right)
}

// ---- `,`

/// What a comma makes of an expression whose value isn't wanted and a used operand.
pub fn comma_by(
    alloc: Global,
    line: u32,
    left: Box<CoreExpr>,
    right: TypedOperand,
) -> Result<TypedOperand, Broken>
    ensures { GivesNode view_typed result (comma_by line (view left.value) (view_typed right)) }
{
    match right {
        TypedOperand::Value { type_, value, .. } => {
            let node = CoreExpr::Comma {
                line,
                left,
                right: value,
            };
            Ok(made(alloc, type_, node)?)
        }
        TypedOperand::Structure { type_, value } => {
            let node = CoreStructure::Comma {
                line,
                left,
                right: value,
            };
            Ok(TypedOperand::Structure {
                type_,
                value: structure_in_box(alloc, node)?,
            })
        }
        TypedOperand::Place { .. } | TypedOperand::Designator { .. } => {
            Err(Broken::Rule { rule: 7 })
        }
    }
}

/// What a comma makes of two used operands (C11 6.5.17).
pub fn comma_operand(
    alloc: Global,
    line: u32,
    left: TypedOperand,
    right: TypedOperand,
) -> Result<TypedOperand, Broken>
    ensures { GivesNode view_typed result (comma_operand line (view_typed left) (view_typed right)) }
{
    let left = dropped(alloc, left)?;
    comma_by(alloc, line, left, right)
}
