//! Calls of built-in functions.

ghost use Rattle.std.specs.Prelude.{◌≡◌, map, IfOk};
ghost use Rattle.c_types.specs.declared.integers.IntegerType.TheVariants.{Int};
ghost use Rattle.c_types.specs.Types.{view as type_view};
ghost use Rattle.core_tree.specs.Trees.{boxed, comma, constant, discard, is_zero, view};
ghost use Rattle.c_scope.specs.Functions.{void_pointer, text_type};
ghost use Rattle.c_scope.specs.Faults.{GivesNode};
ghost use Rattle.c_operators.specs.Pointers.{plain, view_typed};
ghost use Rattle.c_calls.specs.Calls.{unsigned_long, one_scalar, one_of, two_of, no_arguments, assertion_call, assumption_call, draw_call, allocation, zeroed_allocation, release_call, exit_call, truth_and_text, checked, printed, built_in_call};

use crate::arguments::{behind, extra_arguments};
use c_operands::in_box;
use c_operators::{TypedOperand, assigned, comma_by, made, scalar};
use c_scope::{Broken, BuiltInFunction};
use c_types::{IntegerType, Ty};
use core_tree::{ArithmeticOperator, CoreExpr};
use std::alloc::{AllocError, Global};

// ---- arguments

// The one argument, of a scalar type.
fn one_scalar(mut operands: Vec<TypedOperand>) -> Result<Box<CoreExpr>, Broken>
    ensures { GivesNode boxed result (one_scalar (map view_typed operands.items)) }
{
    if operands.is_empty() {
        return Err(Broken::Rule { rule: 10 });
    }
    let more = operands.len() > 1;
    let value = scalar(operands.swap_remove(0), 8)?;
    if more {
        return Err(Broken::Rule { rule: 10 });
    }
    Ok(value)
}

// The one argument, converted as by assignment to this type.
fn one_of(
    alloc: Global,
    type_: &Ty,
    mut operands: Vec<TypedOperand>,
) -> Result<Box<CoreExpr>, Broken>
    ensures { GivesNode boxed result (one_of (type_view type_.now) (map view_typed operands.items)) }
{
    if operands.is_empty() {
        return Err(Broken::Rule { rule: 10 });
    }
    let more = operands.len() > 1;
    let value = assigned(alloc, type_, operands.swap_remove(0))?;
    if more {
        return Err(Broken::Rule { rule: 10 });
    }
    Ok(value)
}

// A number of type unsigned long for each of two arguments.
fn two_sizes(
    alloc: Global,
    mut operands: Vec<TypedOperand>,
) -> Result<(Box<CoreExpr>, Box<CoreExpr>), Broken>
    ensures { GivesNode (λ p. (boxed p.0, boxed p.1)) result (two_of unsigned_long unsigned_long (map view_typed operands.items)) }
{
    if operands.is_empty() {
        return Err(Broken::Rule { rule: 10 });
    }
    let size = Ty::Integer(IntegerType::UnsignedLong);
    let first = assigned(alloc, &size, operands.remove(0))?;
    let second = one_of(alloc, &size, operands)?;
    Ok((first, second))
}

// A value of this type where there are no arguments.
fn no_arguments(
    alloc: Global,
    operands: &[TypedOperand],
    type_: Ty,
    node: CoreExpr,
) -> Result<TypedOperand, Broken>
    ensures { GivesNode view_typed result (no_arguments (map view_typed operands.now) (plain (type_view type_) (view node))) }
{
    if operands.is_empty() {
        Ok(made(alloc, type_, node)?)
    } else {
        Err(Broken::Rule { rule: 10 })
    }
}

// The pointer to void.
fn void_pointer(alloc: Global) -> Result<Ty, AllocError>
    ensures { IfOk result (λ t. type_view t ≡ void_pointer) }
{
    Ty::pointer(alloc, Ty::Void, false)
}

// The pointer to characters that are const.
fn text_type(alloc: Global) -> Result<Ty, AllocError>
    ensures { IfOk result (λ t. type_view t ≡ text_type) }
{
    Ty::pointer(alloc, Ty::Integer(IntegerType::Char), true)
}

// ---- checks and inputs

/// `assert`.
pub fn assertion_call(
    alloc: Global,
    line: u32,
    operands: Vec<TypedOperand>,
) -> Result<TypedOperand, Broken>
    ensures { GivesNode view_typed result (assertion_call line (map view_typed operands.items)) }
{
    let condition = one_scalar(operands)?;
    Ok(made(alloc, Ty::Void, CoreExpr::Assertion { line, condition })?)
}

/// `__CPROVER_assume`.
pub fn assumption_call(
    alloc: Global,
    line: u32,
    operands: Vec<TypedOperand>,
) -> Result<TypedOperand, Broken>
    ensures { GivesNode view_typed result (assumption_call line (map view_typed operands.items)) }
{
    let condition = one_scalar(operands)?;
    Ok(made(alloc, Ty::Void, CoreExpr::Assumption { line, condition })?)
}

/// A function that draws a number of this type from the inputs.
pub fn draw_call(
    alloc: Global,
    line: u32,
    type_: IntegerType,
    operands: &[TypedOperand],
) -> Result<TypedOperand, Broken>
    ensures { GivesNode view_typed result (draw_call line type_ (map view_typed operands.now)) }
{
    no_arguments(
        alloc,
        operands,
        Ty::Integer(type_),
        CoreExpr::Draw { line, type_ },
    )
}

// ---- memory, and the end of the process

// `malloc`.
fn allocation(alloc: Global, line: u32, operands: Vec<TypedOperand>) -> Result<TypedOperand, Broken>
    ensures { GivesNode view_typed result (allocation line (map view_typed operands.items)) }
{
    let size = one_of(alloc, &Ty::Integer(IntegerType::UnsignedLong), operands)?;
    Ok(made(
        alloc,
        void_pointer(alloc)?,
        CoreExpr::Allocate { line, size },
    )?)
}

// `calloc`.
fn zeroed_allocation(
    alloc: Global,
    line: u32,
    operands: Vec<TypedOperand>,
) -> Result<TypedOperand, Broken>
    ensures { GivesNode view_typed result (zeroed_allocation line (map view_typed operands.items)) }
{
    let (count, size) = two_sizes(alloc, operands)?;
    let node = CoreExpr::AllocateZeroed { line, count, size };
    Ok(made(alloc, void_pointer(alloc)?, node)?)
}

// `free`.
fn release_call(
    alloc: Global,
    line: u32,
    operands: Vec<TypedOperand>,
) -> Result<TypedOperand, Broken>
    ensures { GivesNode view_typed result (release_call line (map view_typed operands.items)) }
{
    let pointer = one_of(alloc, &void_pointer(alloc)?, operands)?;
    Ok(made(alloc, Ty::Void, CoreExpr::Release { line, pointer })?)
}

// `exit`.
fn exit_call(alloc: Global, line: u32, operands: Vec<TypedOperand>) -> Result<TypedOperand, Broken>
    ensures { GivesNode view_typed result (exit_call line (map view_typed operands.items)) }
{
    let status = one_of(alloc, &Ty::Integer(IntegerType::Int), operands)?;
    Ok(made(alloc, Ty::Void, CoreExpr::Exit { line, status })?)
}

// ---- texts

// 1 where a condition isn't 0, else 0.
fn truth(alloc: Global, line: u32, condition: Box<CoreExpr>) -> Result<Box<CoreExpr>, AllocError>
    ensures { IfOk result (λ e. view e.value ≡ is_zero line (is_zero line (view condition.value))) }
{
    let inner = CoreExpr::IsZero {
        line,
        operand: condition,
    };
    let operand = in_box(alloc, inner)?;
    in_box(alloc, CoreExpr::IsZero { line, operand })
}

// 1, behind a text.
fn behind_text(alloc: Global, line: u32, text: Box<CoreExpr>) -> Result<Box<CoreExpr>, AllocError>
    ensures { IfOk result (λ e. view e.value ≡ comma line (discard line (view text.value)) (constant line Int 1)) }
{
    let left = in_box(
        alloc,
        CoreExpr::Discard {
            line,
            operand: text,
        },
    )?;
    let one = CoreExpr::Constant {
        line,
        type_: IntegerType::Int,
        bits: 1,
    };
    let right = in_box(alloc, one)?;
    in_box(alloc, CoreExpr::Comma { line, left, right })
}

// Whether a condition isn't 0, which is asked once a text is evaluated behind it.
fn truth_and_text(
    alloc: Global,
    line: u32,
    condition: Box<CoreExpr>,
    text: Box<CoreExpr>,
) -> Result<Box<CoreExpr>, AllocError>
    ensures { IfOk result (λ e. view e.value ≡ truth_and_text line (view condition.value) (view text.value)) }
{
    let left = truth(alloc, line, condition)?;
    let right = behind_text(alloc, line, text)?;
    let node = CoreExpr::Arithmetic {
        line,
        operator: ArithmeticOperator::And,
        left,
        right,
    };
    in_box(alloc, node)
}

// `__CPROVER_assert`.
fn checked(
    alloc: Global,
    line: u32,
    mut operands: Vec<TypedOperand>,
) -> Result<TypedOperand, Broken>
    ensures { GivesNode view_typed result (checked line (map view_typed operands.items)) }
{
    if operands.is_empty() {
        return Err(Broken::Rule { rule: 10 });
    }
    let condition = scalar(operands.remove(0), 8)?;
    let text = one_of(alloc, &text_type(alloc)?, operands)?;
    let condition = truth_and_text(alloc, line, condition, text)?;
    Ok(made(alloc, Ty::Void, CoreExpr::Assertion { line, condition })?)
}

// `printf`.
fn printed(
    alloc: Global,
    line: u32,
    mut operands: Vec<TypedOperand>,
) -> Result<TypedOperand, Broken>
    ensures { GivesNode view_typed result (printed line (map view_typed operands.items)) }
{
    if operands.is_empty() {
        return Err(Broken::Rule { rule: 10 });
    }
    let text = assigned(alloc, &text_type(alloc)?, operands.remove(0))?;
    operands.reverse();
    let extra = extra_arguments(alloc, true, operands)?;
    let type_ = IntegerType::Int;
    let drawn = made(alloc, Ty::Integer(type_), CoreExpr::Draw { line, type_ })?;
    let rest = behind(alloc, line, extra, drawn)?;
    comma_by(alloc, line, text, rest)
}

/// A built-in function that takes or gives pointers, or ends the process.
pub fn built_in_call(
    alloc: Global,
    line: u32,
    function: BuiltInFunction,
    operands: Vec<TypedOperand>,
) -> Result<TypedOperand, Broken>
    ensures { GivesNode view_typed result (built_in_call line function (map view_typed operands.items)) }
{
    match function {
        BuiltInFunction::Malloc => allocation(alloc, line, operands),
        BuiltInFunction::Calloc => zeroed_allocation(alloc, line, operands),
        BuiltInFunction::Free => release_call(alloc, line, operands),
        BuiltInFunction::Exit => exit_call(alloc, line, operands),
        BuiltInFunction::Abort => {
            no_arguments(alloc, &operands, Ty::Void, CoreExpr::Abort { line })
        }
        BuiltInFunction::Check => checked(alloc, line, operands),
        BuiltInFunction::Print => printed(alloc, line, operands),
    }
}
