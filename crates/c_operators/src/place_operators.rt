//! Members of operands, and operators that change places, of pointer type among them (C11 6.5.2.3, 6.5.2.4, 6.5.3.1, 6.5.16).

ghost use Rattle.std.specs.Prelude.{◌≡◌, IfOk};
ghost use Rattle.c_types.specs.Types.{aggregate, view as type_view};
ghost use Rattle.core_tree.specs.Trees.{part, view, view_place, view_structure};
ghost use Rattle.c_scope.specs.Faults.{GivesNode};
ghost use Rattle.c_operators.specs.Pointers.{view_typed, plain, stepped, step_size, target, kind_of, step_place, step_value, step_node, part_operand, member_named, member_node, arrow_by, arrow_node, put_number, assign_place, assign_record, assign_node};

use crate::conversions::{assigned, record_from};
use crate::pointer_operators::{step_back, step_forth};
use crate::typed_operands::{TypedOperand, made, part_of};
use c_operands::{bytes_of, place_in_box, structure_in_box};
use c_scope::{Broken, Scope, part_at, type_size};
use c_types::{IntegerType, Layouts, Ty};
use core_tree::{CoreExpr, CoreStructure, Place, StepOperator};
use std::alloc::{AllocError, Global};

/// The place that is changed, which isn't const.
pub fn target(constant: bool, place: Box<Place>) -> Result<Box<Place>, Broken>
    ensures { GivesNode (λ p. view_place p.value) result (target constant (view_place place.value)) }
{
    if constant {
        Err(Broken::Rule { rule: 9 })
    } else {
        Ok(place)
    }
}

// ---- members

// A member by its name: its offset and type, and whether it is const.
fn member_named(
    alloc: Global,
    type_: &Ty,
    name: &[u8],
    scope: &Scope,
) -> Result<(u32, Ty, bool), Broken>
    ensures { GivesNode (λ m. ((m.0, type_view m.1), m.2)) result (member_named scope.now (type_view type_.now) name.now) }
{
    match scope.way(type_, name) {
        Some(way) => {
            let constant = way.constant;
            let (at, part) = part_at(alloc, 0, type_, &way.path, scope.layouts())?;
            Ok((at, part, constant))
        }
        None => Err(Broken::Rule { rule: 11 }),
    }
}

// A number that is part of a value.
fn number_part(
    alloc: Global,
    line: u32,
    offset: u32,
    type_: Ty,
    number: IntegerType,
    value: Box<CoreStructure>,
) -> Result<TypedOperand, AllocError>
    ensures { IfOk result (λ x. view_typed x ≡ plain (type_view type_) (part line number offset (view_structure value.value))) }
{
    let node = CoreExpr::Member {
        line,
        type_: number,
        offset,
        value,
    };
    made(alloc, type_, node)
}

// The part of a type at an offset of a value that is no place.
fn part_operand(
    alloc: Global,
    line: u32,
    offset: u32,
    type_: Ty,
    value: Box<CoreStructure>,
    layouts: &Layouts,
) -> Result<TypedOperand, AllocError>
    ensures { IfOk result (λ x. view_typed x ≡ part_operand layouts.now.done line offset (type_view type_) (view_structure value.value)) }
{
    match &type_ {
        Ty::Integer(integer) => {
            let number = *integer;
            number_part(alloc, line, offset, type_, number, value)
        }
        Ty::Pointer { .. } => {
            let number = IntegerType::UnsignedLong;
            number_part(alloc, line, offset, type_, number, value)
        }
        Ty::Void | Ty::Record(_) | Ty::Array { .. } | Ty::Function(_) => {
            let size = bytes_of(&type_, layouts)?;
            let section = CoreStructure::Member {
                line,
                offset,
                size,
                value,
            };
            Ok(TypedOperand::Structure {
                type_,
                value: structure_in_box(alloc, section)?,
            })
        }
    }
}

/// The member of an operand that isn't used so far, behind a `.` on this line.
pub fn member_node(
    alloc: Global,
    line: u32,
    operand: TypedOperand,
    name: &[u8],
    scope: &Scope,
) -> Result<TypedOperand, Broken>
    ensures { GivesNode view_typed result (member_node scope.now line (view_typed operand) name.now) }
{
    match operand {
        TypedOperand::Place {
            type_,
            constant,
            place,
        } => {
            let (offset, part, fixed) = member_named(alloc, &type_, name, scope)?;
            Ok(TypedOperand::Place {
                type_: part,
                constant: constant || fixed,
                place: part_of(alloc, line, place, offset)?,
            })
        }
        TypedOperand::Structure { type_, value } => {
            let (offset, part, _fixed) = member_named(alloc, &type_, name, scope)?;
            Ok(part_operand(alloc, line, offset, part, value, scope.layouts())?)
        }
        TypedOperand::Value { .. } | TypedOperand::Designator { .. } => {
            Err(Broken::Rule { rule: 11 })
        }
    }
}

// A member of what a pointer of this type points to.
fn arrow_by(
    alloc: Global,
    line: u32,
    type_: &Ty,
    pointer: Box<CoreExpr>,
    name: &[u8],
    scope: &Scope,
) -> Result<TypedOperand, Broken>
    ensures { GivesNode view_typed result (arrow_by scope.now line (kind_of (type_view type_.now)) (view pointer.value) name.now) }
{
    match type_ {
        Ty::Pointer { to, constant } => {
            let (offset, part, fixed) = member_named(alloc, to, name, scope)?;
            let place = Place::Arrow {
                line,
                pointer,
                offset,
            };
            Ok(TypedOperand::Place {
                type_: part,
                constant: *constant || fixed,
                place: place_in_box(alloc, place)?,
            })
        }
        Ty::Void | Ty::Integer(_) | Ty::Record(_) | Ty::Array { .. } | Ty::Function(_) => {
            Err(Broken::Rule { rule: 11 })
        }
    }
}

/// The member of a used operand, behind a `->` on this line.
pub fn arrow_node(
    alloc: Global,
    line: u32,
    operand: TypedOperand,
    name: &[u8],
    scope: &Scope,
) -> Result<TypedOperand, Broken>
    ensures { GivesNode view_typed result (arrow_node scope.now line (view_typed operand) name.now) }
{
    match operand {
        TypedOperand::Value { type_, value, .. } => {
            arrow_by(alloc, line, &type_, value, name, scope)
        }
        TypedOperand::Place { .. }
        | TypedOperand::Structure { .. }
        | TypedOperand::Designator { .. } => Err(Broken::Rule { rule: 11 }),
    }
}

// ---- `++` and `--`

/// The bytes by which a step moves a pointer to a type.
pub fn step_by(operator: StepOperator, to: &Ty, layouts: &Layouts) -> Result<i64, Broken>
    ensures { GivesNode (λ n. n) result (stepped layouts.now.done (type_view to.now) (step_size operator)) }
{
    match operator {
        StepOperator::Increment => step_forth(to, layouts),
        StepOperator::Decrement => step_back(to, layouts),
    }
}

// A step of a place of this type.
fn step_place(
    alloc: Global,
    line: u32,
    operator: StepOperator,
    before: bool,
    changed: (Ty, bool, Box<Place>),
    layouts: &Layouts,
) -> Result<TypedOperand, Broken>
    ensures { GivesNode view_typed result (step_place layouts.now.done line operator before (type_view changed.0) changed.1 (view_place changed.2.value)) }
{
    let (type_, constant, place) = changed;
    let node = match &type_ {
        Ty::Integer(integer) => CoreExpr::Step {
            line,
            type_: *integer,
            place: target(constant, place)?,
            operator,
            before,
        },
        Ty::Pointer { to, .. } => {
            let step = step_by(operator, to, layouts)?;
            CoreExpr::PointerStep {
                line,
                place: target(constant, place)?,
                step,
                before,
            }
        }
        Ty::Array { .. } => return Err(Broken::Rule { rule: 9 }),
        Ty::Void | Ty::Record(_) | Ty::Function(_) => return Err(Broken::Rule { rule: 7 }),
    };
    Ok(made(alloc, type_, node)?)
}

// A step of a value, which is no place.
fn step_value(type_: &Ty, layouts: &Layouts) -> Result<TypedOperand, Broken>
    ensures { GivesNode view_typed result (step_value layouts.now.done (kind_of (type_view type_.now))) }
{
    match type_ {
        Ty::Integer(_) => Err(Broken::Rule { rule: 9 }),
        Ty::Pointer { to, .. } => {
            let _size = type_size(to, layouts)?;
            Err(Broken::Rule { rule: 9 })
        }
        Ty::Void | Ty::Record(_) | Ty::Array { .. } | Ty::Function(_) => {
            Err(Broken::Rule { rule: 7 })
        }
    }
}

/// `++` or `--` of an operand that isn't used so far (C11 6.5.2.4, 6.5.3.1).
pub fn step_node(
    alloc: Global,
    line: u32,
    operator: StepOperator,
    before: bool,
    operand: TypedOperand,
    layouts: &Layouts,
) -> Result<TypedOperand, Broken>
    ensures { GivesNode view_typed result (step_node layouts.now.done line operator before (view_typed operand)) }
{
    match operand {
        TypedOperand::Value { type_, .. } => step_value(&type_, layouts),
        TypedOperand::Place {
            type_,
            constant,
            place,
        } => step_place(
            alloc,
            line,
            operator,
            before,
            (type_, constant, place),
            layouts,
        ),
        TypedOperand::Structure { .. } | TypedOperand::Designator { .. } => {
            Err(Broken::Rule { rule: 7 })
        }
    }
}

// ---- assignments

// A value that is assigned to a struct or union.
fn put_record(
    alloc: Global,
    line: u32,
    number: u32,
    changed: (bool, Box<Place>),
    operand: TypedOperand,
    scope: &Scope,
) -> Result<TypedOperand, Broken>
    ensures { GivesNode view_typed result (assign_place scope.now line (aggregate number) changed.0 (view_place changed.1.value) (view_typed operand)) }
{
    let (constant, place) = changed;
    let type_ = Ty::Record(number);
    let value = record_from(number, operand, 8)?;
    let fixed = constant || scope.is_constant_within(&type_);
    let place = target(fixed, place)?;
    let put = CoreStructure::Assign { line, place, value };
    Ok(TypedOperand::Structure {
        type_,
        value: structure_in_box(alloc, put)?,
    })
}

// A number that is assigned to a place of this type.
fn put_number(
    alloc: Global,
    line: u32,
    number: IntegerType,
    changed: (Ty, bool, Box<Place>),
    value: Box<CoreExpr>,
) -> Result<TypedOperand, Broken>
    ensures { GivesNode view_typed result (put_number line number (type_view changed.0) changed.1 (view_place changed.2.value) (view value.value)) }
{
    let (type_, constant, place) = changed;
    let place = target(constant, place)?;
    let node = CoreExpr::Assign {
        line,
        type_: number,
        place,
        value,
    };
    Ok(made(alloc, type_, node)?)
}

// A used operand that is assigned to a place.
fn assign_place(
    alloc: Global,
    line: u32,
    changed: (Ty, bool, Box<Place>),
    operand: TypedOperand,
    scope: &Scope,
) -> Result<TypedOperand, Broken>
    ensures { GivesNode view_typed result (assign_place scope.now line (type_view changed.0) changed.1 (view_place changed.2.value) (view_typed operand)) }
{
    let number = match &changed.0 {
        Ty::Integer(integer) => *integer,
        Ty::Pointer { .. } => IntegerType::UnsignedLong,
        Ty::Record(record) => {
            let record = *record;
            return put_record(alloc, line, record, (changed.1, changed.2), operand, scope);
        }
        Ty::Array { .. } => return Err(Broken::Rule { rule: 9 }),
        Ty::Void | Ty::Function(_) => return Err(Broken::Rule { rule: 8 }),
    };
    let value = assigned(alloc, &changed.0, operand)?;
    put_number(alloc, line, number, changed, value)
}

// A used operand that is assigned to a value of a struct or union type, which is no place.
fn assign_record(type_: &Ty, operand: TypedOperand) -> Result<TypedOperand, Broken>
    ensures { GivesNode view_typed result (assign_record (type_view type_.now) (view_typed operand)) }
{
    match type_ {
        Ty::Record(record) => {
            let _value = record_from(*record, operand, 8)?;
            Err(Broken::Rule { rule: 9 })
        }
        Ty::Void | Ty::Integer(_) | Ty::Array { .. } | Ty::Pointer { .. } | Ty::Function(_) => {
            Err(Broken::Rule { rule: 9 })
        }
    }
}

/// A used operand that is assigned to one that isn't used so far (C11 6.5.16.1).
pub fn assign_node(
    alloc: Global,
    line: u32,
    target: TypedOperand,
    operand: TypedOperand,
    scope: &Scope,
) -> Result<TypedOperand, Broken>
    ensures { GivesNode view_typed result (assign_node scope.now line (view_typed target) (view_typed operand)) }
{
    match target {
        TypedOperand::Value { type_, .. } => {
            let _value = assigned(alloc, &type_, operand)?;
            Err(Broken::Rule { rule: 9 })
        }
        TypedOperand::Place {
            type_,
            constant,
            place,
        } => assign_place(alloc, line, (type_, constant, place), operand, scope),
        TypedOperand::Structure { type_, .. } => assign_record(&type_, operand),
        TypedOperand::Designator { .. } => Err(Broken::Rule { rule: 9 }),
    }
}
