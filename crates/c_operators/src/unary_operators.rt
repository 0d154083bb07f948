//! Signs, `!` and `sizeof` of operands (C11 6.5.3.3, 6.5.3.4).

ghost use Rattle.std.specs.Prelude.{◌≡◌, ◌%◌, ◌^◌, IfOk};
ghost use Rattle.c_types.specs.declared.integers.IntegerType.TheVariants.{UnsignedLong};
ghost use Rattle.c_types.specs.Types.{integer, view as type_view};
ghost use Rattle.core_tree.specs.Trees.{size_of_value, size_of_structure, view, view_place, view_structure};
ghost use Rattle.c_scope.specs.Faults.{GivesNode};
ghost use Rattle.c_operators.specs.Pointers.{view_typed, plain, scalar_of, sign_node, not_node, operand_bytes, sized_place, sized_operand};

use crate::conversions::{integral, scalar};
use crate::typed_operands::{TypedOperand, made, scalar_of};
use c_operands::{as_type, bytes_of, in_box, low_bits, structure_in_box};
use c_scope::{Broken, type_size};
use c_types::{IntegerType, Layouts, Ty, promote};
use core_tree::{CoreExpr, CoreStructure, Place, SignOperator};
use std::alloc::{AllocError, Global};

/// A sign before a used operand.
pub fn sign_node(
    alloc: Global,
    line: u32,
    operator: SignOperator,
    operand: TypedOperand,
) -> Result<TypedOperand, Broken>
    ensures { GivesNode view_typed result (sign_node line operator (view_typed operand)) }
{
    let (type_, value) = integral(operand, 7)?;
    let promoted = promote(type_);
    let operand = as_type(alloc, promoted, value)?;
    let signed = CoreExpr::Sign {
        line,
        operator,
        operand,
    };
    Ok(made(alloc, Ty::Integer(promoted), signed)?)
}

/// `!` of a used operand.
pub fn not_node(alloc: Global, line: u32, operand: TypedOperand) -> Result<TypedOperand, Broken>
    ensures { GivesNode view_typed result (not_node line (view_typed operand)) }
{
    let operand = scalar(operand, 7)?;
    let node = CoreExpr::IsZero { line, operand };
    Ok(made(alloc, Ty::Integer(IntegerType::Int), node)?)
}

/// The bytes of an operand that isn't used.
pub fn operand_bytes(operand: &TypedOperand, layouts: &Layouts) -> Result<u64, Broken>
    ensures { GivesNode (λ n. n) result (operand_bytes layouts.now.done (view_typed operand.now)) }
{
    match operand {
        TypedOperand::Value { type_, .. } => type_size(type_, layouts),
        TypedOperand::Place { type_, .. } => type_size(type_, layouts),
        TypedOperand::Structure { type_, .. } => type_size(type_, layouts),
        TypedOperand::Designator { .. } => Err(Broken::Rule { rule: 3 }),
    }
}

// `sizeof` of a value, by its bytes.
fn sized_value(
    alloc: Global,
    line: u32,
    size: u64,
    operand: Box<CoreExpr>,
) -> Result<TypedOperand, AllocError>
    ensures { IfOk result (λ x. view_typed x ≡ plain (integer UnsignedLong) (size_of_value line (size % 2 ^ 64) (view operand.value))) }
{
    let node = CoreExpr::SizeOf {
        line,
        bits: low_bits(size, 64),
        operand,
    };
    made(alloc, Ty::Integer(IntegerType::UnsignedLong), node)
}

// `sizeof` of a structure value, by its bytes.
fn sized_structure(
    alloc: Global,
    line: u32,
    size: u64,
    operand: Box<CoreStructure>,
) -> Result<TypedOperand, AllocError>
    ensures { IfOk result (λ x. view_typed x ≡ plain (integer UnsignedLong) (size_of_structure line (size % 2 ^ 64) (view_structure operand.value))) }
{
    let node = CoreExpr::SizeOfStructure {
        line,
        bits: low_bits(size, 64),
        operand,
    };
    made(alloc, Ty::Integer(IntegerType::UnsignedLong), node)
}

// `sizeof` of a place of this type.
fn sized_place(
    alloc: Global,
    line: u32,
    size: u64,
    type_: &Ty,
    place: Box<Place>,
    layouts: &Layouts,
) -> Result<TypedOperand, AllocError>
    ensures { IfOk result (λ x. view_typed x ≡ sized_place layouts.now.done line size (type_view type_.now) (scalar_of (type_view type_.now)) (view_place place.value)) }
{
    match scalar_of(type_) {
        Some(number) => {
            let read = CoreExpr::Read {
                type_: number,
                place,
            };
            sized_value(alloc, line, size, in_box(alloc, read)?)
        }
        None => {
            let copy = CoreStructure::Read {
                place,
                size: bytes_of(type_, layouts)?,
            };
            sized_structure(alloc, line, size, structure_in_box(alloc, copy)?)
        }
    }
}

/// `sizeof` of an operand that isn't used, by its bytes.
pub fn sized_operand(
    alloc: Global,
    line: u32,
    size: u64,
    operand: TypedOperand,
    layouts: &Layouts,
) -> Result<TypedOperand, AllocError>
    ensures { IfOk result (λ x. view_typed x ≡ sized_operand layouts.now.done line size (view_typed operand)) }
{
    match operand {
        TypedOperand::Value { value, .. } => sized_value(alloc, line, size, value),
        TypedOperand::Place { type_, place, .. } => {
            sized_place(alloc, line, size, &type_, place, layouts)
        }
        TypedOperand::Structure { value, .. } => sized_structure(alloc, line, size, value),
        TypedOperand::Designator { address, .. } => sized_value(alloc, line, size, address),
    }
}
