//! Calls of functions of the file.

ghost use Rattle.std.specs.Prelude.{◌≡◌, map, IfOk};
ghost use Rattle.c_types.specs.Types.{view as type_view};
ghost use Rattle.c_types.specs.Layouts.{size_of};
ghost use Rattle.core_tree.specs.Trees.{call, give, arguments_of};
ghost use Rattle.c_scope.specs.Scopes.{view_function_type};
ghost use Rattle.c_scope.specs.Faults.{GivesNode};
ghost use Rattle.c_operators.specs.Pointers.{plain, structure, view_typed};
ghost use Rattle.c_calls.specs.Calls.{given_size, given_operand, function_call};

use crate::arguments::{arguments_in, behind, extra_arguments};
use c_operands::{bytes_of, structure_in_box};
use c_operators::{TypedOperand, made};
use c_scope::{Broken, FunctionType, type_size};
use c_types::{IntegerType, Layouts, Ty, ValueType};
use core_tree::{CoreArgument, CoreExpr, CoreStructure};
use std::alloc::{AllocError, Global};

/// What a call gives is void or complete: its bytes.
pub fn given_size(type_: &Ty, layouts: &Layouts) -> Result<u64, Broken>
    ensures { GivesNode (λ n. n) result (given_size layouts.now.done (type_view type_.now)) }
{
    match type_ {
        Ty::Void => Ok(0),
        other => type_size(other, layouts),
    }
}

// A call of the function with a number, which gives a number or nothing.
fn given_value(
    alloc: Global,
    line: u32,
    function: u32,
    used: bool,
    given: (Ty, ValueType),
    arguments: Vec<CoreArgument>,
) -> Result<TypedOperand, AllocError>
    ensures { IfOk result (λ x. view_typed x ≡ plain (type_view given.0) (call line function used given.1 (arguments_of arguments.items))) }
{
    let (type_, number) = given;
    made(
        alloc,
        type_,
        CoreExpr::Call {
            line,
            function,
            used,
            type_: number,
            arguments,
        },
    )
}

// A call of the function with a number, which gives a structure of this type.
fn given_structure(
    alloc: Global,
    line: u32,
    function: u32,
    used: bool,
    type_: &Ty,
    arguments: Vec<CoreArgument>,
    layouts: &Layouts,
) -> Result<TypedOperand, AllocError>
    ensures { IfOk result (λ x. view_typed x ≡ structure (type_view type_.now) (give line function used (size_of layouts.now.done (type_view type_.now)) (arguments_of arguments.items))) }
{
    let size = bytes_of(type_, layouts)?;
    let type_ = type_.copied()?;
    let call = CoreStructure::Call {
        line,
        function,
        used,
        size,
        arguments,
    };
    Ok(TypedOperand::Structure {
        type_,
        value: structure_in_box(alloc, call)?,
    })
}

// A call of the function with a number, which gives this type.
fn given_operand(
    alloc: Global,
    line: u32,
    function: u32,
    wanted: bool,
    type_: &Ty,
    arguments: Vec<CoreArgument>,
    layouts: &Layouts,
) -> Result<TypedOperand, AllocError>
    ensures { IfOk result (λ x. view_typed x ≡ given_operand layouts.now.done line function wanted (type_view type_.now) (arguments_of arguments.items)) }
{
    match type_ {
        Ty::Void => {
            let given = (Ty::Void, ValueType::Void);
            given_value(alloc, line, function, false, given, arguments)
        }
        Ty::Integer(integer) => {
            let given = (type_.copied()?, ValueType::Integer(*integer));
            given_value(alloc, line, function, wanted, given, arguments)
        }
        Ty::Pointer { .. } => {
            let given = (
                type_.copied()?,
                ValueType::Integer(IntegerType::UnsignedLong),
            );
            given_value(alloc, line, function, wanted, given, arguments)
        }
        Ty::Record(_) | Ty::Array { .. } | Ty::Function(_) => {
            given_structure(alloc, line, function, wanted, type_, arguments, layouts)
        }
    }
}

/// A call of the function with a number and a type, whose value is wanted or not.
pub fn function_call(
    alloc: Global,
    line: u32,
    function: u32,
    wanted: bool,
    type_: &FunctionType,
    mut operands: Vec<TypedOperand>,
    layouts: &Layouts,
) -> Result<TypedOperand, Broken>
    ensures { GivesNode view_typed result (function_call layouts.now.done line function wanted (view_function_type type_.now) (map view_typed operands.items)) }
{
    let _size = given_size(&type_.gives, layouts)?;
    operands.reverse();
    let arguments = arguments_in(alloc, &type_.parameters, &mut operands)?;
    let extra = extra_arguments(alloc, type_.ellipsis, operands)?;
    let call = given_operand(
        alloc,
        line,
        function,
        wanted,
        &type_.gives,
        arguments,
        layouts,
    )?;
    behind(alloc, line, extra, call)
}
