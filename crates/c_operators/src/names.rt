//! Names and strings as operands that aren't used so far (C11 6.4.5p6, 6.5.1).

ghost use Rattle.std.specs.Prelude.{◌≡◌, slice_get, IfOk};
ghost use Rattle.core_tree.specs.Trees.{view, view_place};
ghost use Rattle.c_scope.specs.Faults.{GivesNode};
ghost use Rattle.c_scope.specs.Scopes.{object_at, view_function_type};
ghost use Rattle.c_operators.specs.Pointers.{view_typed, variable_node, object_node, function_address, function_node, string_place, string_node};

use crate::typed_operands::TypedOperand;
use c_operands::{in_box, place_in_box};
use c_scope::{Broken, FunctionType, Scope, is_incomplete};
use c_types::{IntegerType, Ty};
use core_tree::{CoreExpr, Place};
use std::alloc::{AllocError, Global};
use std::rc::Rc;

/// The variable with a number.
pub fn variable_node(
    alloc: Global,
    line: u32,
    variable: u32,
    scope: &Scope,
) -> Result<TypedOperand, Broken>
    ensures { GivesNode view_typed result (variable_node line variable (slice_get scope.now.variables variable)) }
{
    match scope.variable(variable) {
        None => Err(Broken::Rule { rule: 1 }),
        Some(named) => {
            let place = Place::Variable {
                line,
                variable,
                offset: 0,
            };
            Ok(TypedOperand::Place {
                type_: named.type_.copied()?,
                constant: named.constant,
                place: place_in_box(alloc, place)?,
            })
        }
    }
}

/// The object of the file with a number.
pub fn object_node(
    alloc: Global,
    line: u32,
    object: u32,
    scope: &Scope,
) -> Result<TypedOperand, Broken>
    ensures { GivesNode view_typed result (object_node scope.now.records.done line object (object_at scope.now object)) }
{
    match scope.object(object) {
        None => Err(Broken::Rule { rule: 1 }),
        Some(entry) => {
            if is_incomplete(entry, scope.layouts()) {
                return Err(Broken::Rule { rule: 3 });
            }
            let place = Place::Object {
                line,
                object,
                offset: 0,
            };
            Ok(TypedOperand::Place {
                type_: entry.named.type_.copied()?,
                constant: entry.named.constant,
                place: place_in_box(alloc, place)?,
            })
        }
    }
}

// What stands for a function's address where it isn't called.
fn function_address(alloc: Global, line: u32) -> Result<Box<CoreExpr>, AllocError>
    ensures { IfOk result (λ e. view e.value ≡ function_address line) }
{
    let left = in_box(alloc, CoreExpr::FunctionName { line })?;
    let zero = CoreExpr::Constant {
        line,
        type_: IntegerType::UnsignedLong,
        bits: 0,
    };
    let right = in_box(alloc, zero)?;
    in_box(alloc, CoreExpr::Comma { line, left, right })
}

/// The name of a function of this type, which isn't called. No file has so many types that there is no number for one.
pub fn function_node(
    alloc: Global,
    line: u32,
    type_: &FunctionType,
    scope: &Scope,
) -> Result<TypedOperand, Broken>
    ensures { GivesNode view_typed result (function_node scope.now line (view_function_type type_.now)) }
{
    let place = scope.functions().type_place(type_);
    match u32::try_from(place) {
        Ok(type_) => Ok(TypedOperand::Designator {
            type_,
            address: function_address(alloc, line)?,
        }),
        Err(_) => Err(Broken::Memory),
    }
}

// Where a string lies: an object of the file, or none within `sizeof`.
fn string_place(
    alloc: Global,
    within: bool,
    line: u32,
    literal: u32,
) -> Result<Box<Place>, AllocError>
    ensures { IfOk result (λ p. view_place p.value ≡ string_place within line literal) }
{
    if within {
        let zero = CoreExpr::Constant {
            line,
            type_: IntegerType::UnsignedLong,
            bits: 0,
        };
        let pointer = in_box(alloc, zero)?;
        place_in_box(alloc, Place::Pointed { line, pointer })
    } else {
        place_in_box(alloc, Place::Literal { line, literal })
    }
}

/// A string of so many characters, which is a literal of the file, or none within `sizeof`.
pub fn string_node(
    alloc: Global,
    within: bool,
    line: u32,
    literal: u32,
    length: u32,
) -> Result<TypedOperand, AllocError>
    ensures { IfOk result (λ x. view_typed x ≡ string_node within line literal length) }
{
    match length.checked_add(1) {
        Some(bytes) => {
            let element = Rc::new(alloc, Ty::Integer(IntegerType::Char))?;
            Ok(TypedOperand::Place {
                type_: Ty::Array {
                    element,
                    length: bytes,
                },
                constant: false,
                place: string_place(alloc, within, line, literal)?,
            })
        }
        None => Err(AllocError),
    }
}
