//! Calls by a pointer to a function. They are typed whole, since the profile refuses each file that has one.

ghost use Rattle.std.specs.Prelude.{◌≡◌, map, option_map, IfOk};
ghost use Rattle.c_types.specs.Types.{void, view as type_view};
ghost use Rattle.c_types.specs.declared.integers.IntegerType.TheVariants.{Int};
ghost use Rattle.c_types.specs.Layouts.{size_of};
ghost use Rattle.core_tree.specs.Trees.{constant, discard, list, no_part, view};
ghost use Rattle.c_scope.specs.Scopes.{view_function_type};
ghost use Rattle.c_scope.specs.Faults.{GivesNode};
ghost use Rattle.c_operators.specs.Pointers.{plain, structure, view_typed};
ghost use Rattle.c_calls.specs.Calls.{some_value, called_by_type, function_place, pointee_place, type_at, pointer_call};

use crate::arguments::{arguments_in, behind, behind_arguments, extra_arguments};
use crate::function_calls::given_size;
use c_operands::{bytes_of, in_box, structure_in_box};
use c_operators::{TypedOperand, comma_by, made};
use c_scope::{Broken, FunctionType, Functions, Scope};
use c_types::{IntegerType, Layouts, Ty};
use core_tree::{CoreExpr, CoreStructure};
use std::alloc::{AllocError, Global};

// Nothing at all.
fn no_value(alloc: Global, line: u32) -> Result<TypedOperand, AllocError>
    ensures { IfOk result (λ x. view_typed x ≡ plain void (discard line (constant line Int 0))) }
{
    let zero = CoreExpr::Constant {
        line,
        type_: IntegerType::Int,
        bits: 0,
    };
    let operand = in_box(alloc, zero)?;
    made(alloc, Ty::Void, CoreExpr::Discard { line, operand })
}

// The number 0.
fn no_number(
    alloc: Global,
    line: u32,
    type_: Ty,
    number: IntegerType,
) -> Result<TypedOperand, AllocError>
    ensures { IfOk result (λ x. view_typed x ≡ plain (type_view type_) (constant line number 0)) }
{
    let zero = CoreExpr::Constant {
        line,
        type_: number,
        bits: 0,
    };
    made(alloc, type_, zero)
}

// A structure whose bytes are 0.
fn no_structure(
    alloc: Global,
    line: u32,
    type_: Ty,
    layouts: &Layouts,
) -> Result<TypedOperand, AllocError>
    ensures { IfOk result (λ x. view_typed x ≡ structure (type_view type_) (list line (size_of layouts.now.done (type_view type_)) no_part)) }
{
    let zeros = CoreStructure::List {
        line,
        size: bytes_of(&type_, layouts)?,
        parts: Vec::new(alloc),
    };
    Ok(TypedOperand::Structure {
        type_,
        value: structure_in_box(alloc, zeros)?,
    })
}

// Something of this type.
fn some_value(
    alloc: Global,
    line: u32,
    type_: &Ty,
    layouts: &Layouts,
) -> Result<TypedOperand, AllocError>
    ensures { IfOk result (λ x. view_typed x ≡ some_value layouts.now.done line (type_view type_.now)) }
{
    match type_ {
        Ty::Void | Ty::Function(_) => no_value(alloc, line),
        Ty::Integer(integer) => no_number(alloc, line, type_.copied()?, *integer),
        Ty::Pointer { .. } => { no_number(alloc, line, type_.copied()?, IntegerType::UnsignedLong) }
        Ty::Record(_) | Ty::Array { .. } => no_structure(alloc, line, type_.copied()?, layouts),
    }
}

// A call of a function of this type, which an expression tells.
fn called_by_type(
    alloc: Global,
    line: u32,
    callee: Box<CoreExpr>,
    type_: &FunctionType,
    mut operands: Vec<TypedOperand>,
    layouts: &Layouts,
) -> Result<TypedOperand, Broken>
    ensures { GivesNode view_typed result (called_by_type layouts.now.done line (view callee.value) (view_function_type type_.now) (map view_typed operands.items)) }
{
    let _size = given_size(&type_.gives, layouts)?;
    operands.reverse();
    let arguments = arguments_in(alloc, &type_.parameters, &mut operands)?;
    let extra = extra_arguments(alloc, type_.ellipsis, operands)?;
    let value = some_value(alloc, line, &type_.gives, layouts)?;
    let inner = behind(alloc, line, extra, value)?;
    let whole = behind_arguments(alloc, line, arguments, inner)?;
    comma_by(alloc, line, callee, whole)
}

// The place of a function type among those of the file.
fn function_place(type_: &Ty) -> Option<u32>
    ensures { result ≡ function_place (type_view type_.now) }
{
    match type_ {
        Ty::Function(place) => Some(*place),
        Ty::Void | Ty::Integer(_) | Ty::Record(_) | Ty::Array { .. } | Ty::Pointer { .. } => None,
    }
}

// That of what a value of this type points to.
fn pointee_place(type_: &Ty) -> Option<u32>
    ensures { result ≡ pointee_place (type_view type_.now) }
{
    match type_ {
        Ty::Pointer { to, .. } => function_place(to),
        Ty::Void | Ty::Integer(_) | Ty::Record(_) | Ty::Array { .. } | Ty::Function(_) => None,
    }
}

// The type of the function to which a value of this type points.
fn type_at<'a>(type_: &Ty, functions: &'a Functions) -> Option<&'a FunctionType>
    ensures { option_map (λ f. view_function_type f.now) result ≡ type_at functions.now.types (pointee_place (type_view type_.now)) }
{
    match pointee_place(type_) {
        Some(place) => functions.type_at(place),
        None => None,
    }
}

/// A call of a used operand that isn't the name of a function.
pub fn pointer_call(
    alloc: Global,
    line: u32,
    callee: TypedOperand,
    operands: Vec<TypedOperand>,
    scope: &Scope,
) -> Result<TypedOperand, Broken>
    ensures { GivesNode view_typed result (pointer_call scope.now line (view_typed callee) (map view_typed operands.items)) }
{
    match callee {
        TypedOperand::Value { type_, value, .. } => match type_at(&type_, scope.functions()) {
            Some(function) => {
                called_by_type(alloc, line, value, function, operands, scope.layouts())
            }
            None => Err(Broken::Rule { rule: 10 }),
        },
        TypedOperand::Place { .. }
        | TypedOperand::Structure { .. }
        | TypedOperand::Designator { .. } => Err(Broken::Rule { rule: 10 }),
    }
}
