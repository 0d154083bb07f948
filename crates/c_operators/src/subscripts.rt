//! Subscripts of operands that aren't used so far (C11 6.5.2.1).

ghost use Rattle.std.specs.Prelude.{◌≡◌, ◌-◌, slice_get, IfOk};
ghost use Rattle.c_types.specs.Types.{view as type_view};
ghost use Rattle.core_tree.specs.Trees.{view, view_place};
ghost use Rattle.core_tree.specs.Typed.{object_size};
ghost use Rattle.c_scope.specs.Faults.{GivesNode};
ghost use Rattle.c_scope.specs.Scopes.{view_object_entry, object_entry_size, sizes, all_sizes};
ghost use Rattle.c_operators.specs.Pointers.{place as place_operand, view_typed, view_index, kind_of, element_at, element_node, subscript_by, subscript_place, subscript_base, index_of, subscript_node};

use crate::pointer_operators::valued;
use crate::typed_operands::{TypedOperand, integer_of, place_line, used_structure};
use c_operands::{bytes_of, in_box, place_in_box};
use c_scope::{Broken, ObjectEntry, Scope, is_incomplete, type_size};
use c_types::{IntegerType, Layouts, Ty};
use core_tree::{CoreExpr, Place};
use std::alloc::{AllocError, Global};

// The bytes of an object of the file, none where its type isn't complete.
fn entry_bytes(object: &ObjectEntry, layouts: &Layouts) -> Result<u32, AllocError>
    ensures { IfOk result (λ n. n ≡ object_entry_size layouts.now.done (view_object_entry object.now)) }
{
    if is_incomplete(object, layouts) {
        Ok(0)
    } else {
        bytes_of(&object.named.type_, layouts)
    }
}

// The bytes of the variable with a number.
#[tactic(auto, using(crate::proofs::Sizes::variable_size))]
fn variable_bytes(number: u32, scope: &Scope) -> Result<Option<u32>, AllocError>
    ensures { IfOk result (λ o. o ≡ slice_get (sizes scope.now) number) }
{
    match scope.variable(number) {
        Some(variable) => Ok(Some(bytes_of(&variable.type_, scope.layouts())?)),
        None => Ok(None),
    }
}

// The bytes of the object of the file with a number, from 1.
#[tactic(auto, using(crate::proofs::Sizes::object_size))]
fn object_bytes(number: u32, scope: &Scope) -> Result<Option<u32>, AllocError>
    ensures { IfOk result (λ o. o ≡ slice_get (all_sizes scope.now).objects (number - 1)) }
{
    match scope.object(number.max(1)) {
        Some(object) => Ok(Some(entry_bytes(object, scope.layouts())?)),
        None => Ok(None),
    }
}

// The bytes of the named object in which a place lies, none where a pointer tells the object.
fn whole_of(place: &Place, scope: &Scope) -> Result<Option<u32>, AllocError>
    ensures { IfOk result (λ o. o ≡ object_size (all_sizes scope.now) (view_place place.now)) }
{
    match place {
        Place::Variable { variable, .. } => variable_bytes(*variable, scope),
        Place::Object { object, .. } => object_bytes(*object, scope),
        Place::Member { place, .. } => whole_of(place, scope),
        Place::Element { place, .. } => whole_of(place, scope),
        Place::Literal { .. }
        | Place::Pointed { .. }
        | Place::Arrow { .. }
        | Place::Subscript { .. } => Ok(None),
    }
}

// The element of an array in a named object of so many bytes, or in one that its address tells.
fn element_at(
    alloc: Global,
    whole: Option<u32>,
    line: u32,
    place: Box<Place>,
    index: Box<CoreExpr>,
    size: u32,
    swapped: bool,
) -> Result<Box<Place>, AllocError>
    ensures { IfOk result (λ p. view_place p.value ≡ element_at whole line (view_place place.value) (view index.value) size swapped) }
{
    match whole {
        Some(whole) => place_in_box(
            alloc,
            Place::Element {
                line,
                place,
                index,
                size,
                whole,
                swapped,
            },
        ),
        None => {
            let own = place_line(&place);
            let pointer = in_box(alloc, CoreExpr::Address { line: own, place })?;
            place_in_box(
                alloc,
                Place::Subscript {
                    line,
                    pointer,
                    index,
                    size,
                    swapped,
                },
            )
        }
    }
}

// The element, of this type, of an array, whose place may be const.
fn element_node(
    alloc: Global,
    line: u32,
    type_: Ty,
    array: (bool, Box<Place>),
    index: Box<CoreExpr>,
    swapped: bool,
    scope: &Scope,
) -> Result<TypedOperand, AllocError>
    ensures { IfOk result (λ x. view_typed x ≡ element_node scope.now line (type_view type_) array.0 (view_place array.1.value) (view index.value) swapped) }
{
    let (constant, place) = array;
    let whole = whole_of(&place, scope)?;
    let size = bytes_of(&type_, scope.layouts())?;
    let place = element_at(alloc, whole, line, place, index, size, swapped)?;
    Ok(TypedOperand::Place {
        type_,
        constant,
        place,
    })
}

// What a value of this type has at an index: a pointer to a complete object.
fn subscript_by(
    alloc: Global,
    line: u32,
    type_: &Ty,
    pointer: Box<CoreExpr>,
    index: Box<CoreExpr>,
    swapped: bool,
    layouts: &Layouts,
) -> Result<TypedOperand, Broken>
    ensures { GivesNode view_typed result (subscript_by layouts.now.done line (kind_of (type_view type_.now)) (view pointer.value) (view index.value) swapped) }
{
    match type_ {
        Ty::Pointer { to, constant } => {
            let size = type_size(to, layouts)? as u32;
            let place = Place::Subscript {
                line,
                pointer,
                index,
                size,
                swapped,
            };
            Ok(TypedOperand::Place {
                type_: to.copied()?,
                constant: *constant,
                place: place_in_box(alloc, place)?,
            })
        }
        Ty::Void | Ty::Integer(_) | Ty::Record(_) | Ty::Array { .. } | Ty::Function(_) => {
            Err(Broken::Rule { rule: 7 })
        }
    }
}

// What a place of this type has at an index.
fn subscript_place(
    alloc: Global,
    line: u32,
    type_: &Ty,
    base: (bool, Box<Place>),
    index: Box<CoreExpr>,
    swapped: bool,
    scope: &Scope,
) -> Result<TypedOperand, Broken>
    ensures { GivesNode view_typed result (subscript_place scope.now line (type_view type_.now) base.0 (view_place base.1.value) (view index.value) swapped) }
{
    match type_ {
        Ty::Array { element, .. } => Ok(element_node(
            alloc,
            line,
            element.copied()?,
            base,
            index,
            swapped,
            scope,
        )?),
        Ty::Pointer { .. } => {
            let read = CoreExpr::Read {
                type_: IntegerType::UnsignedLong,
                place: base.1,
            };
            let pointer = in_box(alloc, read)?;
            subscript_by(alloc, line, type_, pointer, index, swapped, scope.layouts())
        }
        Ty::Void | Ty::Integer(_) | Ty::Record(_) | Ty::Function(_) => {
            Err(Broken::Rule { rule: 7 })
        }
    }
}

// What an operand has at an index.
fn subscript_base(
    alloc: Global,
    within: bool,
    line: u32,
    operand: TypedOperand,
    index: Box<CoreExpr>,
    swapped: bool,
    scope: &Scope,
) -> Result<TypedOperand, Broken>
    ensures { GivesNode view_typed result (subscript_base scope.now within line (view_typed operand) (view index.value) swapped) }
{
    match operand {
        TypedOperand::Value { type_, value, .. } => {
            subscript_by(alloc, line, &type_, value, index, swapped, scope.layouts())
        }
        TypedOperand::Place {
            type_,
            constant,
            place,
        } => subscript_place(
            alloc,
            line,
            &type_,
            (constant, place),
            index,
            swapped,
            scope,
        ),
        TypedOperand::Structure { type_, value } => {
            let used = used_structure(alloc, within, type_, value)?;
            let (type_, pointer) = valued(used)?;
            subscript_by(
                alloc,
                line,
                &type_,
                pointer,
                index,
                swapped,
                scope.layouts(),
            )
        }
        TypedOperand::Designator { .. } => Err(Broken::Rule { rule: 3 }),
    }
}

// The number of a place that is used as an integer, or the place as it is.
fn index_place(
    alloc: Global,
    type_: Ty,
    constant: bool,
    place: Box<Place>,
    layouts: &Layouts,
) -> Result<Result<Box<CoreExpr>, TypedOperand>, AllocError>
    ensures { IfOk result (λ r. view_index r ≡ index_of layouts.now.done (place_operand (type_view type_) constant (view_place place.value))) }
{
    match &type_ {
        Ty::Integer(integer) => {
            let read = CoreExpr::Read {
                type_: *integer,
                place,
            };
            Ok(Ok(in_box(alloc, read)?))
        }
        Ty::Void | Ty::Record(_) | Ty::Array { .. } | Ty::Pointer { .. } | Ty::Function(_) => {
            Ok(Err(TypedOperand::Place {
                type_,
                constant,
                place,
            }))
        }
    }
}

// The number of an operand that is used as an integer, or the operand as it is.
fn index_of(
    alloc: Global,
    operand: TypedOperand,
    layouts: &Layouts,
) -> Result<Result<Box<CoreExpr>, TypedOperand>, AllocError>
    ensures { IfOk result (λ r. view_index r ≡ index_of layouts.now.done (view_typed operand)) }
{
    match operand {
        TypedOperand::Value { type_, null, value } => match integer_of(&type_) {
            Some(_) => Ok(Ok(value)),
            None => Ok(Err(TypedOperand::Value { type_, null, value })),
        },
        TypedOperand::Place {
            type_,
            constant,
            place,
        } => index_place(alloc, type_, constant, place, layouts),
        TypedOperand::Structure { .. } | TypedOperand::Designator { .. } => Ok(Err(operand)),
    }
}

/// A subscript of two operands, one of them an integer, within `sizeof` or not.
pub fn subscript_node(
    alloc: Global,
    within: bool,
    line: u32,
    left: TypedOperand,
    right: TypedOperand,
    scope: &Scope,
) -> Result<TypedOperand, Broken>
    ensures { GivesNode view_typed result (subscript_node scope.now within line (view_typed left) (view_typed right)) }
{
    match index_of(alloc, right, scope.layouts())? {
        Ok(index) => subscript_base(alloc, within, line, left, index, false, scope),
        Err(right) => match index_of(alloc, left, scope.layouts())? {
            Ok(index) => subscript_base(alloc, within, line, right, index, true, scope),
            Err(_) => Err(Broken::Rule { rule: 7 }),
        },
    }
}
