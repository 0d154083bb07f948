//! Conversions of used operands: as by assignment, and by casts (C11 6.3.2.3, 6.5.4, 6.5.16.1).

ghost use Rattle.std.specs.Prelude.{◌≡◌};
ghost use Rattle.c_types.specs.Types.{void, integer, pointer, view as type_view};
ghost use Rattle.core_tree.specs.Trees.{view, boxed, view_structure};
ghost use Rattle.c_scope.specs.Faults.{required, GivesNode};
ghost use Rattle.c_operators.specs.Pointers.{view_typed, plain, kind_of, is_bool, is_zero_constant, is_null, may_point, assigned, same_record, record_from, integral, scalar, cast_void, cast_pointer, cast_node};

use crate::pointer_operators::{valued, with_void};
use crate::typed_operands::{TypedOperand, integer_of, is_void, scalar_of};
use c_operands::{as_type, constant_of, in_box};
use c_scope::{Broken, same_ctype};
use c_types::{IntegerType, Ty};
use core_tree::{CoreExpr, CoreStructure};
use std::alloc::Global;

fn is_bool(type_: IntegerType) -> bool
    ensures { result ≡ is_bool type_ }
{
    match type_ {
        IntegerType::Bool => true,
        IntegerType::Char
        | IntegerType::SignedChar
        | IntegerType::UnsignedChar
        | IntegerType::Short
        | IntegerType::UnsignedShort
        | IntegerType::Int
        | IntegerType::UnsignedInt
        | IntegerType::Long
        | IntegerType::UnsignedLong
        | IntegerType::LongLong
        | IntegerType::UnsignedLongLong => false,
    }
}

// An integer constant expression of value 0.
fn is_zero_constant(type_: &Ty, value: &CoreExpr) -> bool
    ensures { result ≡ is_zero_constant (type_view type_.now) (view value.now) }
{
    match type_ {
        Ty::Integer(_) => match constant_of(value) {
            Some(number) => number.bits() == 0,
            None => false,
        },
        Ty::Void | Ty::Record(_) | Ty::Array { .. } | Ty::Pointer { .. } | Ty::Function(_) => false,
    }
}

/// Whether an operand is a null pointer constant (C11 6.3.2.3p3).
pub fn is_null(operand: &TypedOperand) -> bool
    ensures { result ≡ is_null (view_typed operand.now) }
{
    match operand {
        TypedOperand::Value { type_, null, value } => *null || is_zero_constant(type_, value),
        TypedOperand::Place { .. }
        | TypedOperand::Structure { .. }
        | TypedOperand::Designator { .. } => false,
    }
}

// Whether a pointer to one type may take one to another, of which each may be const.
fn may_point(to: &Ty, constant: bool, other: &Ty, fixed: bool) -> bool
    ensures { result ≡ may_point (type_view to.now) constant (type_view other.now) fixed }
{
    (same_ctype(to, other) || with_void(to, other)) && (constant || !fixed)
}

// The number that an operand gives an object of integer type.
fn integer_from(
    alloc: Global,
    to: IntegerType,
    operand: TypedOperand,
) -> Result<Box<CoreExpr>, Broken>
    ensures { GivesNode boxed result (assigned (integer to) (view_typed operand)) }
{
    match operand {
        TypedOperand::Value { type_, value, .. } => match &type_ {
            Ty::Integer(_) => Ok(as_type(alloc, to, value)?),
            Ty::Pointer { .. } => {
                if is_bool(to) {
                    Ok(as_type(alloc, to, value)?)
                } else {
                    Err(Broken::Rule { rule: 8 })
                }
            }
            Ty::Void | Ty::Record(_) | Ty::Array { .. } | Ty::Function(_) => {
                Err(Broken::Rule { rule: 8 })
            }
        },
        TypedOperand::Place { .. }
        | TypedOperand::Structure { .. }
        | TypedOperand::Designator { .. } => Err(Broken::Rule { rule: 8 }),
    }
}

// The pointer that an operand gives an object of pointer type.
fn pointer_from(
    alloc: Global,
    to: &Ty,
    constant: bool,
    operand: TypedOperand,
) -> Result<Box<CoreExpr>, Broken>
    ensures { GivesNode boxed result (assigned (pointer (type_view to.now) constant) (view_typed operand)) }
{
    match operand {
        TypedOperand::Value { type_, null, value } => match &type_ {
            Ty::Integer(_) => {
                if is_zero_constant(&type_, &value) {
                    Ok(as_type(alloc, IntegerType::UnsignedLong, value)?)
                } else {
                    Err(Broken::Rule { rule: 8 })
                }
            }
            Ty::Pointer {
                to: other,
                constant: fixed,
            } => {
                if null || may_point(to, constant, other, *fixed) {
                    Ok(value)
                } else {
                    Err(Broken::Rule { rule: 8 })
                }
            }
            Ty::Void | Ty::Record(_) | Ty::Array { .. } | Ty::Function(_) => {
                Err(Broken::Rule { rule: 8 })
            }
        },
        TypedOperand::Place { .. }
        | TypedOperand::Structure { .. }
        | TypedOperand::Designator { .. } => Err(Broken::Rule { rule: 8 }),
    }
}

/// What an operand gives an object of a scalar type, as by assignment (C11 6.5.16.1).
pub fn assigned(alloc: Global, type_: &Ty, operand: TypedOperand) -> Result<Box<CoreExpr>, Broken>
    ensures { GivesNode boxed result (assigned (type_view type_.now) (view_typed operand)) }
{
    match type_ {
        Ty::Integer(to) => integer_from(alloc, *to, operand),
        Ty::Pointer { to, constant } => pointer_from(alloc, to, *constant, operand),
        Ty::Void | Ty::Record(_) | Ty::Array { .. } | Ty::Function(_) => {
            Err(Broken::Rule { rule: 8 })
        }
    }
}

/// Whether a type is the struct or union at a place of the layouts.
pub fn same_record(place: u32, type_: &Ty) -> bool
    ensures { result ≡ same_record place (type_view type_.now) }
{
    match type_ {
        Ty::Record(other) => place == *other,
        Ty::Void | Ty::Integer(_) | Ty::Array { .. } | Ty::Pointer { .. } | Ty::Function(_) =>
            false,
    }
}

/// What an operand gives an object of a struct or union type, by its place in the layouts, or the broken rule.
pub fn record_from(
    place: u32,
    operand: TypedOperand,
    rule: u32,
) -> Result<Box<CoreStructure>, Broken>
    ensures { GivesNode (λ a. view_structure a.value) result (required rule (record_from place (view_typed operand))) }
{
    match operand {
        TypedOperand::Structure { type_, value } => {
            if same_record(place, &type_) {
                Ok(value)
            } else {
                Err(Broken::Rule { rule })
            }
        }
        TypedOperand::Value { .. } | TypedOperand::Place { .. } | TypedOperand::Designator { .. } =>
            Err(Broken::Rule { rule }),
    }
}

/// The value of an operand of integer type, with that type, or the broken rule.
pub fn integral(operand: TypedOperand, rule: u32) -> Result<(IntegerType, Box<CoreExpr>), Broken>
    ensures { GivesNode (λ p. (p.0, view p.1.value)) result (integral rule (view_typed operand)) }
{
    match operand {
        TypedOperand::Value { type_, value, .. } => match integer_of(&type_) {
            Some(integer) => Ok((integer, value)),
            None => Err(Broken::Rule { rule }),
        },
        TypedOperand::Place { .. }
        | TypedOperand::Structure { .. }
        | TypedOperand::Designator { .. } => Err(Broken::Rule { rule }),
    }
}

/// The value of an operand of a scalar type, or the broken rule.
pub fn scalar(operand: TypedOperand, rule: u32) -> Result<Box<CoreExpr>, Broken>
    ensures { GivesNode boxed result (scalar rule (view_typed operand)) }
{
    match operand {
        TypedOperand::Value { type_, value, .. } => match scalar_of(&type_) {
            Some(_) => Ok(value),
            None => Err(Broken::Rule { rule }),
        },
        TypedOperand::Place { .. }
        | TypedOperand::Structure { .. }
        | TypedOperand::Designator { .. } => Err(Broken::Rule { rule }),
    }
}

// The expression of a used operand whose value is let go.
fn let_go(alloc: Global, line: u32, operand: TypedOperand) -> Result<Box<CoreExpr>, Broken>
    ensures { GivesNode (λ e. plain void (view e.value)) result (cast_void line (view_typed operand)) }
{
    match operand {
        TypedOperand::Value { type_, value, .. } => {
            if is_void(&type_) {
                return Ok(value);
            }
            let operand = value;
            Ok(in_box(alloc, CoreExpr::Discard { line, operand })?)
        }
        TypedOperand::Place { .. } => Err(Broken::Rule { rule: 7 }),
        TypedOperand::Structure { value, .. } => {
            Ok(in_box(alloc, CoreExpr::DiscardStructure { value })?)
        }
        TypedOperand::Designator { address, .. } => Ok(address),
    }
}

// A value of this type that is cast to a pointer type.
fn cast_pointer(
    alloc: Global,
    type_: Ty,
    null: bool,
    from: &Ty,
    number: Box<CoreExpr>,
) -> Result<TypedOperand, Broken>
    ensures { GivesNode view_typed result (cast_pointer (type_view type_) null (kind_of (type_view from.now)) (view number.value)) }
{
    match from {
        Ty::Integer(_) => {
            let converted = CoreExpr::Convert {
                to: IntegerType::UnsignedLong,
                operand: number,
            };
            Ok(TypedOperand::Value {
                type_,
                null,
                value: in_box(alloc, converted)?,
            })
        }
        Ty::Pointer { .. } => Ok(TypedOperand::Value {
            type_,
            null: false,
            value: number,
        }),
        Ty::Void | Ty::Record(_) | Ty::Array { .. } | Ty::Function(_) => {
            Err(Broken::Rule { rule: 7 })
        }
    }
}

/// A used operand that is cast to a type (C11 6.5.4).
pub fn cast_node(
    alloc: Global,
    line: u32,
    type_: &Ty,
    operand: TypedOperand,
) -> Result<TypedOperand, Broken>
    ensures { GivesNode view_typed result (cast_node line (type_view type_.now) (view_typed operand)) }
{
    match type_ {
        Ty::Void => Ok(TypedOperand::Value {
            type_: Ty::Void,
            null: false,
            value: let_go(alloc, line, operand)?,
        }),
        Ty::Integer(to) => {
            let number = scalar(operand, 7)?;
            let converted = CoreExpr::Convert {
                to: *to,
                operand: number,
            };
            Ok(TypedOperand::Value {
                type_: type_.copied()?,
                null: false,
                value: in_box(alloc, converted)?,
            })
        }
        Ty::Pointer { to, constant } => {
            let null = is_void(to) && !*constant && is_null(&operand);
            let (from, number) = valued(operand)?;
            cast_pointer(alloc, type_.copied()?, null, &from, number)
        }
        Ty::Record(_) | Ty::Array { .. } | Ty::Function(_) => Err(Broken::Rule { rule: 7 }),
    }
}
