//! Typed operands with their C types: places, pointers and functions among them.

ghost use Rattle.std.specs.Prelude.{◌≡◌, ◌+◌, false, IfOk};
ghost use Rattle.c_types.specs.Types.{pointer, function as function_at, view as type_view};
ghost use Rattle.c_types.specs.Layouts.{size_of};
ghost use Rattle.core_tree.specs.Trees.{read, copy, view, view_place, boxed, view_structure};
ghost use Rattle.c_scope.specs.Faults.{GivesNode};
ghost use Rattle.c_operators.specs.Pointers.{view_typed, plain, structure, scalar_of, integer_of, is_void, is_function, place_line, part_of, variable_of, address_of, used_place, no_address, used_structure, used, settled, dropped, address_node, pointed_node, dereference_node};

use c_operands::{bytes_of, in_box, place_in_box, structure_in_box};
use c_scope::{Broken, type_size};
use c_types::{IntegerType, Layouts, Ty};
use core_tree::{CoreExpr, CoreStructure, Place};
use std::alloc::{AllocError, Global};

/// What an expression is (C11 6.3.2.1).
#[derive(Drop)]
pub enum TypedOperand {
    /// A value of a scalar type or of none, and whether it is the null pointer constant of type `void *`.
    Value {
        type_: Ty,
        null: bool,
        value: Box<CoreExpr>,
    },
    /// A place of an object type, and whether it is const.
    Place {
        type_: Ty,
        constant: bool,
        place: Box<Place>,
    },
    /// A value of a struct or union type that is no place, or of an array in one.
    Structure {
        type_: Ty,
        value: Box<CoreStructure>,
    },
    /// A function, by the place of its type among those of the file, and what stands for its address.
    Designator {
        type_: u32,
        address: Box<CoreExpr>,
    },
}

/// The type of the number that a value of a scalar type is (C11 6.2.5p21).
pub fn scalar_of(type_: &Ty) -> Option<IntegerType>
    ensures { result ≡ scalar_of (type_view type_.now) }
{
    match type_ {
        Ty::Integer(integer) => Some(*integer),
        Ty::Pointer { .. } => Some(IntegerType::UnsignedLong),
        Ty::Void | Ty::Record(_) | Ty::Array { .. } | Ty::Function(_) => None,
    }
}

/// An integer type.
pub fn integer_of(type_: &Ty) -> Option<IntegerType>
    ensures { result ≡ integer_of (type_view type_.now) }
{
    match type_ {
        Ty::Integer(integer) => Some(*integer),
        Ty::Void | Ty::Record(_) | Ty::Array { .. } | Ty::Pointer { .. } | Ty::Function(_) => None,
    }
}

/// Whether a type is `void`.
pub fn is_void(type_: &Ty) -> bool
    ensures { result ≡ is_void (type_view type_.now) }
{
    match type_ {
        Ty::Void => true,
        Ty::Integer(_) | Ty::Record(_) | Ty::Array { .. } | Ty::Pointer { .. } | Ty::Function(_) =>
            false,
    }
}

/// Whether a type is a function's.
pub fn is_function(type_: &Ty) -> bool
    ensures { result ≡ is_function (type_view type_.now) }
{
    match type_ {
        Ty::Function(_) => true,
        Ty::Void | Ty::Integer(_) | Ty::Record(_) | Ty::Array { .. } | Ty::Pointer { .. } => false,
    }
}

/// The line of a place's own token.
pub fn place_line(place: &Place) -> u32
    ensures { result ≡ place_line (view_place place.now) }
{
    match place {
        Place::Variable { line, .. } => *line,
        Place::Object { line, .. } => *line,
        Place::Literal { line, .. } => *line,
        Place::Pointed { line, .. } => *line,
        Place::Arrow { line, .. } => *line,
        Place::Member { line, .. } => *line,
        Place::Element { line, .. } => *line,
        Place::Subscript { line, .. } => *line,
    }
}

/// The variable within which a place lies, none where it lies within an object that has another address.
pub fn variable_of(place: &Place) -> Option<u32>
    ensures { result ≡ variable_of (view_place place.now) }
{
    match place {
        Place::Variable { variable, .. } => Some(*variable),
        Place::Member { place, .. } => variable_of(place),
        Place::Element { place, .. } => variable_of(place),
        Place::Object { .. }
        | Place::Literal { .. }
        | Place::Pointed { .. }
        | Place::Arrow { .. }
        | Place::Subscript { .. } => None,
    }
}

// The sum of two offsets in an object. No object has so many bytes that there is none.
fn added(from: u32, offset: u32) -> Result<u32, AllocError>
    ensures { IfOk result (λ at. at ≡ from + offset) }
{
    match from.checked_add(offset) {
        Some(at) => Ok(at),
        None => Err(AllocError),
    }
}

/// A part of a place, from an offset on.
pub fn part_of(
    alloc: Global,
    line: u32,
    place: Box<Place>,
    offset: u32,
) -> Result<Box<Place>, AllocError>
    ensures { IfOk result (λ p. view_place p.value ≡ part_of line (view_place place.value) offset) }
{
    match *place {
        Place::Variable {
            variable,
            offset: from,
            ..
        } => {
            let offset = added(from, offset)?;
            place_in_box(
                alloc,
                Place::Variable {
                    line,
                    variable,
                    offset,
                },
            )
        }
        Place::Object {
            object,
            offset: from,
            ..
        } => {
            let offset = added(from, offset)?;
            place_in_box(
                alloc,
                Place::Object {
                    line,
                    object,
                    offset,
                },
            )
        }
        _ => place_in_box(
            alloc,
            Place::Member {
                line,
                place,
                offset,
            },
        ),
    }
}

/// A value of this type that is no null pointer constant.
pub fn made(alloc: Global, type_: Ty, node: CoreExpr) -> Result<TypedOperand, AllocError>
    ensures { IfOk result (λ x. view_typed x ≡ plain (type_view type_) (view node)) }
{
    Ok(TypedOperand::Value {
        type_,
        null: false,
        value: in_box(alloc, node)?,
    })
}

/// The address of a place of this type.
pub fn address_of(
    alloc: Global,
    line: u32,
    type_: Ty,
    constant: bool,
    place: Box<Place>,
) -> Result<TypedOperand, AllocError>
    ensures { IfOk result (λ x. view_typed x ≡ address_of line (type_view type_) constant (view_place place.value)) }
{
    let type_ = Ty::pointer(alloc, type_, constant)?;
    let value = in_box(alloc, CoreExpr::Address { line, place })?;
    Ok(TypedOperand::Value {
        type_,
        null: false,
        value,
    })
}

// A number that is read.
fn number_read(
    alloc: Global,
    type_: Ty,
    number: IntegerType,
    place: Box<Place>,
) -> Result<TypedOperand, AllocError>
    ensures { IfOk result (λ x. view_typed x ≡ plain (type_view type_) (read number (view_place place.value))) }
{
    let value = in_box(
        alloc,
        CoreExpr::Read {
            type_: number,
            place,
        },
    )?;
    Ok(TypedOperand::Value {
        type_,
        null: false,
        value,
    })
}

// A struct or union that is read whole.
fn record_read(
    alloc: Global,
    type_: Ty,
    place: Box<Place>,
    layouts: &Layouts,
) -> Result<TypedOperand, AllocError>
    ensures { IfOk result (λ x. view_typed x ≡ structure (type_view type_) (copy (view_place place.value) (size_of layouts.now.done (type_view type_)))) }
{
    let size = bytes_of(&type_, layouts)?;
    let value = structure_in_box(alloc, CoreStructure::Read { place, size })?;
    Ok(TypedOperand::Structure { type_, value })
}

/// The value of a place (C11 6.3.2.1p2, p3).
pub fn used_place(
    alloc: Global,
    type_: Ty,
    constant: bool,
    place: Box<Place>,
    layouts: &Layouts,
) -> Result<TypedOperand, Broken>
    ensures { GivesNode view_typed result (used_place layouts.now.done (type_view type_) constant (view_place place.value)) }
{
    match &type_ {
        Ty::Integer(integer) => {
            let number = *integer;
            Ok(number_read(alloc, type_, number, place)?)
        }
        Ty::Pointer { .. } => {
            let number = IntegerType::UnsignedLong;
            Ok(number_read(alloc, type_, number, place)?)
        }
        Ty::Record(_) => Ok(record_read(alloc, type_, place, layouts)?),
        Ty::Array { element, .. } => {
            let element = element.copied()?;
            let line = place_line(&place);
            Ok(address_of(alloc, line, element, constant, place)?)
        }
        Ty::Void | Ty::Function(_) => Err(Broken::Rule { rule: 7 }),
    }
}

// What stands for the address of an array that has none, where it isn't evaluated.
fn no_address(alloc: Global, value: Box<CoreStructure>) -> Result<Box<CoreExpr>, AllocError>
    ensures { IfOk result (λ e. view e.value ≡ no_address (view_structure value.value)) }
{
    let left = in_box(alloc, CoreExpr::DiscardStructure { value })?;
    let zero = CoreExpr::Constant {
        line: 0,
        type_: IntegerType::UnsignedLong,
        bits: 0,
    };
    let right = in_box(alloc, zero)?;
    in_box(
        alloc,
        CoreExpr::Comma {
            line: 0,
            left,
            right,
        },
    )
}

/// A value of a struct or union, or of an array in one, which has an address within `sizeof` alone.
pub fn used_structure(
    alloc: Global,
    within: bool,
    type_: Ty,
    value: Box<CoreStructure>,
) -> Result<TypedOperand, Broken>
    ensures { GivesNode view_typed result (used_structure within (type_view type_) (view_structure value.value)) }
{
    match &type_ {
        Ty::Array { element, .. } => {
            if !within {
                return Err(Broken::Rule { rule: 9 });
            }
            let type_ = Ty::pointer(alloc, element.copied()?, false)?;
            Ok(TypedOperand::Value {
                type_,
                null: false,
                value: no_address(alloc, value)?,
            })
        }
        Ty::Void | Ty::Integer(_) | Ty::Record(_) | Ty::Pointer { .. } | Ty::Function(_) => {
            Ok(TypedOperand::Structure { type_, value })
        }
    }
}

// The pointer to a function.
fn function_pointer(
    alloc: Global,
    function: u32,
    address: Box<CoreExpr>,
) -> Result<TypedOperand, AllocError>
    ensures { IfOk result (λ x. view_typed x ≡ plain (pointer (function_at function) false) (view address.value)) }
{
    let type_ = Ty::pointer(alloc, Ty::Function(function), false)?;
    Ok(TypedOperand::Value {
        type_,
        null: false,
        value: address,
    })
}

/// An operand where its value is wanted, within `sizeof` or not.
pub fn used(
    alloc: Global,
    within: bool,
    operand: TypedOperand,
    layouts: &Layouts,
) -> Result<TypedOperand, Broken>
    ensures { GivesNode view_typed result (used layouts.now.done within (view_typed operand)) }
{
    match operand {
        TypedOperand::Value { .. } => Ok(operand),
        TypedOperand::Place {
            type_,
            constant,
            place,
        } => used_place(alloc, type_, constant, place, layouts),
        TypedOperand::Structure { type_, value } => used_structure(alloc, within, type_, value),
        TypedOperand::Designator { type_, address } => {
            Ok(function_pointer(alloc, type_, address)?)
        }
    }
}

/// An operand that may be a place: only an array in a value that is no place is used first.
pub fn settled(alloc: Global, within: bool, operand: TypedOperand) -> Result<TypedOperand, Broken>
    ensures { GivesNode view_typed result (settled within (view_typed operand)) }
{
    match operand {
        TypedOperand::Structure { type_, value } => used_structure(alloc, within, type_, value),
        TypedOperand::Value { .. } | TypedOperand::Place { .. } | TypedOperand::Designator { .. } =>
            { Ok(operand) }
    }
}

/// The expression of a used operand whose value isn't wanted.
pub fn dropped(alloc: Global, operand: TypedOperand) -> Result<Box<CoreExpr>, Broken>
    ensures { GivesNode boxed result (dropped (view_typed operand)) }
{
    match operand {
        TypedOperand::Value { value, .. } => Ok(value),
        TypedOperand::Place { .. } => Err(Broken::Rule { rule: 7 }),
        TypedOperand::Structure { value, .. } => {
            Ok(in_box(alloc, CoreExpr::DiscardStructure { value })?)
        }
        TypedOperand::Designator { address, .. } => Ok(address),
    }
}

/// The address of an operand (C11 6.5.3.2p3).
pub fn address_node(alloc: Global, line: u32, operand: TypedOperand) -> Result<TypedOperand, Broken>
    ensures { GivesNode view_typed result (address_node line (view_typed operand)) }
{
    match operand {
        TypedOperand::Value { .. } => Err(Broken::Rule { rule: 9 }),
        TypedOperand::Place {
            type_,
            constant,
            place,
        } => Ok(address_of(alloc, line, type_, constant, place)?),
        TypedOperand::Structure { .. } => Err(Broken::Rule { rule: 9 }),
        TypedOperand::Designator { type_, address } => {
            Ok(function_pointer(alloc, type_, address)?)
        }
    }
}

// What a pointer points to.
fn pointed_node(
    alloc: Global,
    line: u32,
    to: &Ty,
    constant: bool,
    pointer: Box<CoreExpr>,
    layouts: &Layouts,
) -> Result<TypedOperand, Broken>
    ensures { GivesNode view_typed result (pointed_node layouts.now.done line (type_view to.now) constant (view pointer.value)) }
{
    match to {
        Ty::Void => return Err(Broken::Rule { rule: 3 }),
        Ty::Function(function) => {
            return Ok(TypedOperand::Designator {
                type_: *function,
                address: pointer,
            });
        }
        Ty::Integer(_) | Ty::Pointer { .. } => {}
        Ty::Record(_) | Ty::Array { .. } => {
            let _size = type_size(to, layouts)?;
        }
    }
    Ok(TypedOperand::Place {
        type_: to.copied()?,
        constant,
        place: place_in_box(alloc, Place::Pointed { line, pointer })?,
    })
}

/// What a used operand points to (C11 6.5.3.2p4).
pub fn dereference_node(
    alloc: Global,
    line: u32,
    operand: TypedOperand,
    layouts: &Layouts,
) -> Result<TypedOperand, Broken>
    ensures { GivesNode view_typed result (dereference_node layouts.now.done line (view_typed operand)) }
{
    match operand {
        TypedOperand::Value { type_, value, .. } => match &type_ {
            Ty::Pointer { to, constant } => {
                pointed_node(alloc, line, to, *constant, value, layouts)
            }
            Ty::Void | Ty::Integer(_) | Ty::Record(_) | Ty::Array { .. } | Ty::Function(_) => {
                Err(Broken::Rule { rule: 7 })
            }
        },
        TypedOperand::Place { .. }
        | TypedOperand::Structure { .. }
        | TypedOperand::Designator { .. } => Err(Broken::Rule { rule: 7 }),
    }
}
