//! Assignments of used operands to operands that aren't used so far, with an operator or none (C11 6.5.16).

ghost use Rattle.c_types.specs.Types.{view as type_view};
ghost use Rattle.core_tree.specs.Trees.{view, view_place};
ghost use Rattle.c_scope.specs.Faults.{required, GivesNode};
ghost use Rattle.c_operators.specs.Pointers.{view_typed, kind_of, way_of, moved_by, update_number, update_place, update_value, update_node, assignment_operand};

use crate::conversions::integral;
use crate::place_operators::{assign_node, step_by, target};
use crate::typed_operands::{TypedOperand, made};
use c_operands::{as_type, left_type, operator_of, right_type};
use c_scope::{Broken, Scope};
use c_tree::BinaryOp;
use c_types::{IntegerType, Layouts, Ty};
use core_tree::{CoreExpr, Place, StepOperator};
use std::alloc::Global;

// Whether an operator moves a pointer forth or back; rule 7 where it does neither.
fn way_of(operator: BinaryOp) -> Result<StepOperator, Broken>
    ensures { GivesNode (λ o. o) result (required 7 (way_of operator)) }
{
    match operator {
        BinaryOp::Add => Ok(StepOperator::Increment),
        BinaryOp::Subtract => Ok(StepOperator::Decrement),
        BinaryOp::LogicalOr
        | BinaryOp::LogicalAnd
        | BinaryOp::Or
        | BinaryOp::Xor
        | BinaryOp::And
        | BinaryOp::Equal
        | BinaryOp::NotEqual
        | BinaryOp::Less
        | BinaryOp::Greater
        | BinaryOp::LessEqual
        | BinaryOp::GreaterEqual
        | BinaryOp::ShiftLeft
        | BinaryOp::ShiftRight
        | BinaryOp::Multiply
        | BinaryOp::Divide
        | BinaryOp::Remainder => Err(Broken::Rule { rule: 7 }),
    }
}

// What a pointer to a type moves by for each of a number, and that number.
fn moved_by(
    operator: BinaryOp,
    to: &Ty,
    operand: TypedOperand,
    layouts: &Layouts,
) -> Result<(i64, Box<CoreExpr>), Broken>
    ensures { GivesNode (λ p. (p.0, view p.1.value)) result (moved_by layouts.now.done operator (type_view to.now) (view_typed operand)) }
{
    let way = way_of(operator)?;
    let (_type, index) = integral(operand, 7)?;
    let step = step_by(way, to, layouts)?;
    Ok((step, index))
}

// A number that is changed by an operator.
fn update_number(
    alloc: Global,
    line: u32,
    operator: BinaryOp,
    type_: IntegerType,
    changed: (bool, Box<Place>),
    operand: TypedOperand,
) -> Result<TypedOperand, Broken>
    ensures { GivesNode view_typed result (update_number line operator type_ changed.0 (view_place changed.1.value) (view_typed operand)) }
{
    let operator = operator_of(operator)?;
    let (other, value) = integral(operand, 7)?;
    let place = target(changed.0, changed.1)?;
    let value = as_type(alloc, right_type(operator, type_, other), value)?;
    let update = CoreExpr::Update {
        line,
        type_,
        place,
        operator,
        operand: left_type(operator, type_, other),
        value,
    };
    Ok(made(alloc, Ty::Integer(type_), update)?)
}

// A place of this type that is changed by an operator.
fn update_place(
    alloc: Global,
    line: u32,
    operator: BinaryOp,
    changed: (Ty, bool, Box<Place>),
    operand: TypedOperand,
    layouts: &Layouts,
) -> Result<TypedOperand, Broken>
    ensures { GivesNode view_typed result (update_place layouts.now.done line operator (type_view changed.0) changed.1 (view_place changed.2.value) (view_typed operand)) }
{
    let (type_, constant, place) = changed;
    match &type_ {
        Ty::Integer(number) => {
            update_number(alloc, line, operator, *number, (constant, place), operand)
        }
        Ty::Pointer { to, .. } => {
            let (step, value) = moved_by(operator, to, operand, layouts)?;
            let place = target(constant, place)?;
            let update = CoreExpr::PointerUpdate {
                line,
                place,
                step,
                value,
            };
            Ok(made(alloc, type_, update)?)
        }
        Ty::Array { .. } => Err(Broken::Rule { rule: 9 }),
        Ty::Void | Ty::Record(_) | Ty::Function(_) => Err(Broken::Rule { rule: 7 }),
    }
}

// A value, which is no place, that would be changed by an operator.
fn update_value(
    operator: BinaryOp,
    type_: &Ty,
    operand: TypedOperand,
    layouts: &Layouts,
) -> Result<TypedOperand, Broken>
    ensures { GivesNode view_typed result (update_value layouts.now.done operator (kind_of (type_view type_.now)) (view_typed operand)) }
{
    match type_ {
        Ty::Integer(_) => {
            let _operator = operator_of(operator)?;
            let _number = integral(operand, 7)?;
            Err(Broken::Rule { rule: 9 })
        }
        Ty::Pointer { to, .. } => {
            let _moved = moved_by(operator, to, operand, layouts)?;
            Err(Broken::Rule { rule: 9 })
        }
        Ty::Void | Ty::Record(_) | Ty::Array { .. } | Ty::Function(_) => {
            Err(Broken::Rule { rule: 7 })
        }
    }
}

// An operator with `=`, of an operand that isn't used so far and a used one.
fn update_node(
    alloc: Global,
    line: u32,
    operator: BinaryOp,
    target: TypedOperand,
    operand: TypedOperand,
    layouts: &Layouts,
) -> Result<TypedOperand, Broken>
    ensures { GivesNode view_typed result (update_node layouts.now.done line operator (view_typed target) (view_typed operand)) }
{
    match target {
        TypedOperand::Value { type_, .. } => update_value(operator, &type_, operand, layouts),
        TypedOperand::Place {
            type_,
            constant,
            place,
        } => update_place(
            alloc,
            line,
            operator,
            (type_, constant, place),
            operand,
            layouts,
        ),
        TypedOperand::Structure { .. } | TypedOperand::Designator { .. } => {
            Err(Broken::Rule { rule: 7 })
        }
    }
}

/// An assignment to an operand that isn't used so far of a used one, with an operator or none.
pub fn assignment_operand(
    alloc: Global,
    line: u32,
    operator: Option<BinaryOp>,
    target: TypedOperand,
    operand: TypedOperand,
    scope: &Scope,
) -> Result<TypedOperand, Broken>
    ensures { GivesNode view_typed result (assignment_operand scope.now line operator (view_typed target) (view_typed operand)) }
{
    match operator {
        None => assign_node(alloc, line, target, operand, scope),
        Some(operator) => update_node(alloc, line, operator, target, operand, scope.layouts()),
    }
}
